//! The numbers of sessions.

ghost use Rattle.std.specs.Prelude.{◌≡◌, ◌==◌, ◌<◌, false, IfSome};
ghost use Rattle.std.specs.List.{list_any};

/// The number of the next session (TSIH), from 1 to 65,535: the first one behind the last that is not
/// taken; behind 65,535 comes 1. None: all are taken.
pub fn next_number(last: u16, taken: &[u16]) -> Option<u16>
    ensures some { IfSome result (λ number. 0 < number) }
    ensures free { IfSome result (λ number. list_any (λ n. n == number) taken.now ≡ false) }
{
    let mut number = last;
    for _ in 0..=taken.len() {
        number = if number == u16::MAX { 1 } else { number + 1 };
        if !taken.contains(&number) {
            return Some(number);
        }
    }
    None
}
