//! Where a segment stands in its stream (RFC 9293, section 3.4).

ghost use Rattle.std.specs.Prelude.{◌≤◌, ◌^◌};
ghost use Rattle.tcp_streams.specs.Placing.{IsPlaceOf};

/// How many sequence numbers there are: they count modulo 2^32.
const NUMBERS: u64 = 4_294_967_296;
/// Half of them. What is nearer than this in one direction is not behind it in the other.
const HALF: u64 = 2_147_483_648;

// The offset of the byte with a sequence number, and how many bytes lie before the stream's first.
// Of the offsets that the number may mean it is the one nearest to the known bytes' end.
pub(crate) fn place(first: u32, count: u64, sequence: u32) -> (u64, u64)
    requires { count ≤ 2 ^ 63 }
    ensures { IsPlaceOf first count sequence result.0 result.1 }
{
    let next = first.wrapping_add((count % NUMBERS) as u32);
    let ahead = sequence.wrapping_sub(next) as u64;
    if ahead < HALF {
        return (count + ahead, 0);
    }
    let behind = NUMBERS - ahead;
    if behind <= count {
        return (count - behind, 0);
    }
    (0, behind - count)
}
