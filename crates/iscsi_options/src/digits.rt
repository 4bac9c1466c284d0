//! Decimal digits of a command line.

ghost use Rattle.std.specs.Prelude.{◌≤◌, IfSome};

/// The number that decimal digits spell, if it is at most `most`. It is `None` for an empty word, for
/// anything that is no digit, a sign too, and for a larger number.
pub fn number_of(digits: &str, most: u64) -> Option<u64>
    ensures most { IfSome result (λ n. n ≤ most) }
{
    if !digits.bytes().all(|digit| digit.is_ascii_digit()) {
        return None;
    }
    match digits.parse::<u64>() {
        Ok(number) if number <= most => Some(number),
        Ok(_) | Err(_) => None,
    }
}
