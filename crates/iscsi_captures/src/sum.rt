//! CRC32C, the sum of iSCSI's digests (RFC 3720, section 12.1).

/// What four bits do to a sum: the remainders of the polynomial 1edc6f41, with the bits reversed.
const REMAINDERS: [u32; 16] = [
    0x0000_0000,
    0x105e_c76f,
    0x20bd_8ede,
    0x30e3_49b1,
    0x417b_1dbc,
    0x5125_dad3,
    0x61c6_9362,
    0x7198_540d,
    0x82f6_3b78,
    0x92a8_fc17,
    0xa24b_b5a6,
    0xb215_72c9,
    0xc38d_26c4,
    0xd3d3_e1ab,
    0xe330_a81a,
    0xf36e_6f75,
];

/// A sum over bytes that go by.
#[derive(Clone, Copy)]
pub(crate) struct Sum {
    state: u32,
}

impl Sum {
    /// Over no byte.
    pub(crate) fn new() -> Sum {
        Sum { state: 0xffff_ffff }
    }

    /// Goes over bytes.
    pub(crate) fn take(&mut self, bytes: &[u8]) {
        for byte in bytes {
            self.take_bits(*byte as u32);
            self.take_bits(*byte as u32 / 16);
        }
    }

    // Goes over the low four bits of a number.
    fn take_bits(&mut self, bits: u32) {
        let row = ((self.state ^ bits) % 16) as usize;
        self.state = (self.state / 16) ^ REMAINDERS[row];
    }

    /// The sum as it stands in a stream.
    pub(crate) fn bytes(self) -> [u8; 4] {
        (self.state ^ 0xffff_ffff).to_le_bytes()
    }

    /// The sum of these bytes as it stands in a stream.
    pub(crate) fn of(bytes: &[u8]) -> [u8; 4] {
        let mut sum = Sum::new();
        sum.take(bytes);
        sum.bytes()
    }
}
