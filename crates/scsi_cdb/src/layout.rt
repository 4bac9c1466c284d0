//! Fields at their places in bytes: each is read from and written to a byte list by its place and
//! mask. Numbers of several bytes have the highest byte first.

ghost use Rattle.std.specs.Prelude.{◌≡◌, ◌+◌, ◌-◌, ◌*◌, ◌/◌, ◌<◌, ◌≤◌, ◌^◌, length, Some, IfSome};
ghost use Rattle.std.specs.Option.{ForSome};
ghost use Rattle.scsi_cdb.specs.Layout.{is_set, bits_at, number_at, part, unit, put_bit, put_number, put_bytes, put_raw, put_part};

use byteorder::{BigEndian, ByteOrder};

/// Whether the bit of the mask is set in byte `at`. The mask has one bit.
#[tactic(auto, unfolding(crate::specs::Layout::is_set))]
pub fn bit(bytes: &[u8], at: usize, mask: u8) -> bool
    requires { at < length bytes.now }
    ensures { result ≡ is_set at mask bytes.now }
{
    (bytes[at] & mask) != 0
}

/// The lowest bit of a mask.
fn unit(mask: u8) -> u8
    ensures { result ≡ unit mask }
{
    mask & mask.wrapping_neg()
}

/// The bits of the mask in byte `at`, moved down to bit 0. The mask is one run of bits.
#[tactic(auto, unfolding(crate::specs::Layout::bits_at))]
pub fn bits(bytes: &[u8], at: usize, mask: u8) -> u8
    requires within { at < length bytes.now }
    requires mask { 0 < unit mask }
    ensures { result ≡ bits_at at mask bytes.now }
{
    (bytes[at] & mask) / unit(mask)
}

/// Byte `at`.
#[tactic(auto, unfolding(crate::specs::Layout::number_at))]
pub fn u8_at(bytes: &[u8], at: usize) -> u8
    requires { at < length bytes.now }
    ensures { result ≡ number_at at at bytes.now }
{
    bytes[at]
}

/// The number in the two bytes from `at`.
#[tactic(auto, unfolding(crate::specs::Layout::number_at))]
pub fn u16_at(bytes: &[u8], at: usize) -> u16
    requires { at + 2 ≤ length bytes.now }
    ensures { result ≡ number_at at (at + 1) bytes.now }
{
    BigEndian::read_u16(&bytes[at..])
}

/// The number in the three bytes from `at`.
#[tactic(auto, unfolding(crate::specs::Layout::number_at))]
pub fn u24_at(bytes: &[u8], at: usize) -> u32
    requires { at + 3 ≤ length bytes.now }
    ensures { result ≡ number_at at (at + 2) bytes.now }
{
    BigEndian::read_u24(&bytes[at..])
}

/// The number in the four bytes from `at`.
#[tactic(auto, unfolding(crate::specs::Layout::number_at))]
pub fn u32_at(bytes: &[u8], at: usize) -> u32
    requires { at + 4 ≤ length bytes.now }
    ensures { result ≡ number_at at (at + 3) bytes.now }
{
    BigEndian::read_u32(&bytes[at..])
}

/// The number in the eight bytes from `at`.
#[tactic(auto, unfolding(crate::specs::Layout::number_at))]
pub fn u64_at(bytes: &[u8], at: usize) -> u64
    requires { at + 8 ≤ length bytes.now }
    ensures { result ≡ number_at at (at + 7) bytes.now }
{
    BigEndian::read_u64(&bytes[at..])
}

/// The `N` bytes from `at`, as they are.
#[tactic(auto, unfolding(crate::specs::Layout::part))]
pub fn array_at<const N: usize>(bytes: &[u8], at: usize) -> [u8; N]
    requires some { 0 < N }
    requires within { at + N ≤ length bytes.now }
    ensures { result ≡ part at (at + N - 1) bytes.now }
{
    let mut array = [0; N];
    array.copy_from_slice(&bytes[at..at + N]);
    array
}

/// Writes the bit of the mask in byte `at`, where there is a value. All other bits stay.
#[tactic(auto, unfolding(crate::specs::Layout::put_bit))]
pub fn put_bit_if(out: &mut [u8], at: usize, mask: u8, value: Option<bool>)
    requires { at < length out.old }
    ensures { out.new ≡ put_bit at mask value out.old }
{
    if let Some(on) = value {
        let bits = if on { mask } else { 0 };
        out[at] = out[at] & !mask | bits;
    }
}

/// Writes a number into the bits of the mask in byte `at`. All other bits stay.
///
/// The number has to fit: it is at most the mask moved down to bit 0.
#[tactic(auto, unfolding(crate::specs::Layout::put_number))]
pub fn put_number(out: &mut [u8], at: usize, mask: u8, value: u8)
    requires within { at < length out.old }
    requires mask { 0 < unit mask }
    requires value { value ≤ mask / unit mask }
    ensures { out.new ≡ put_number at mask (Some value) out.old }
{
    out[at] = out[at] & !mask | value * unit(mask);
}

/// Writes the bit of the mask in byte `at`. All other bits stay.
pub fn put_bit(out: &mut [u8], at: usize, mask: u8, value: bool)
    requires { at < length out.old }
    ensures { out.new ≡ put_bit at mask (Some value) out.old }
{
    put_bit_if(out, at, mask, Some(value));
}

/// Writes a number into the bits of the mask in byte `at`, where there is a value, as `put_number`
/// does.
#[tactic(auto, unfolding(crate::specs::Layout::put_number))]
pub fn put_number_if(out: &mut [u8], at: usize, mask: u8, value: Option<u8>)
    requires within { at < length out.old }
    requires mask { 0 < unit mask }
    requires value { ForSome value (λ v. v ≤ mask / unit mask) }
    ensures { out.new ≡ put_number at mask value out.old }
{
    if let Some(value) = value {
        put_number(out, at, mask, value);
    }
}

/// Writes bytes as they are from `at` on.
#[tactic(auto, unfolding(crate::specs::Layout::put_raw))]
pub fn put_raw(out: &mut [u8], at: usize, bytes: &[u8])
    requires { at + length bytes.now ≤ length out.old }
    ensures raw { out.new ≡ put_raw at (Some bytes.now) out.old }
    ensures part { out.new ≡ put_part at bytes.now out.old }
{
    out[at..at + bytes.len()].copy_from_slice(bytes);
}

/// Writes a number into byte `at`.
#[tactic(auto, unfolding(crate::specs::Layout::put_bytes))]
pub fn put_u8(out: &mut [u8], at: usize, value: u8)
    requires { at + 1 ≤ length out.old }
    ensures written { out.new ≡ put_bytes at at (Some value) out.old }
    ensures room { value < 256 ^ 1 }
{
    put_raw(out, at, &[value]);
}

/// Writes a number into byte `at`, where there is one.
#[tactic(auto, unfolding(crate::specs::Layout::put_bytes))]
pub fn put_u8_if(out: &mut [u8], at: usize, value: Option<u8>)
    requires { at + 1 ≤ length out.old }
    ensures written { out.new ≡ put_bytes at at value out.old }
    ensures room { IfSome value (λ v. v < 256 ^ 1) }
{
    if let Some(value) = value {
        put_u8(out, at, value);
    }
}

/// Writes a number into the two bytes from `at`.
#[tactic(auto, unfolding(crate::specs::Layout::put_bytes))]
pub fn put_u16(out: &mut [u8], at: usize, value: u16)
    requires { at + 2 ≤ length out.old }
    ensures written { out.new ≡ put_bytes at (at + 1) (Some value) out.old }
    ensures room { value < 256 ^ 2 }
{
    put_raw(out, at, &u16::to_be_bytes(value));
}

/// Writes a number into the two bytes from `at`, where there is one.
#[tactic(auto, unfolding(crate::specs::Layout::put_bytes))]
pub fn put_u16_if(out: &mut [u8], at: usize, value: Option<u16>)
    requires { at + 2 ≤ length out.old }
    ensures written { out.new ≡ put_bytes at (at + 1) value out.old }
    ensures room { IfSome value (λ v. v < 256 ^ 2) }
{
    if let Some(value) = value {
        put_u16(out, at, value);
    }
}

/// Writes a number into the three bytes from `at`.
///
/// Bits of the number above these are not written.
#[tactic(auto, unfolding(crate::specs::Layout::put_bytes))]
pub fn put_u24(out: &mut [u8], at: usize, value: u32)
    requires { at + 3 ≤ length out.old }
    ensures { out.new ≡ put_bytes at (at + 2) (Some value) out.old }
{
    let [_, high, middle, low] = value.to_be_bytes();
    put_raw(out, at, &[high, middle, low]);
}

/// Writes a number into the four bytes from `at`.
#[tactic(auto, unfolding(crate::specs::Layout::put_bytes))]
pub fn put_u32(out: &mut [u8], at: usize, value: u32)
    requires { at + 4 ≤ length out.old }
    ensures written { out.new ≡ put_bytes at (at + 3) (Some value) out.old }
    ensures room { value < 256 ^ 4 }
{
    put_raw(out, at, &u32::to_be_bytes(value));
}

/// Writes a number into the four bytes from `at`, where there is one.
#[tactic(auto, unfolding(crate::specs::Layout::put_bytes))]
pub fn put_u32_if(out: &mut [u8], at: usize, value: Option<u32>)
    requires { at + 4 ≤ length out.old }
    ensures written { out.new ≡ put_bytes at (at + 3) value out.old }
    ensures room { IfSome value (λ v. v < 256 ^ 4) }
{
    if let Some(value) = value {
        put_u32(out, at, value);
    }
}

/// Writes a number into the eight bytes from `at`.
#[tactic(auto, unfolding(crate::specs::Layout::put_bytes))]
pub fn put_u64(out: &mut [u8], at: usize, value: u64)
    requires { at + 8 ≤ length out.old }
    ensures written { out.new ≡ put_bytes at (at + 7) (Some value) out.old }
    ensures room { value < 256 ^ 8 }
{
    put_raw(out, at, &u64::to_be_bytes(value));
}

/// Writes a number into the eight bytes from `at`, where there is one.
#[tactic(auto, unfolding(crate::specs::Layout::put_bytes))]
pub fn put_u64_if(out: &mut [u8], at: usize, value: Option<u64>)
    requires { at + 8 ≤ length out.old }
    ensures written { out.new ≡ put_bytes at (at + 7) value out.old }
    ensures room { IfSome value (λ v. v < 256 ^ 8) }
{
    if let Some(value) = value {
        put_u64(out, at, value);
    }
}
