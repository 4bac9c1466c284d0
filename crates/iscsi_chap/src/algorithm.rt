//! The algorithms of CHAP, by their numbers in IANA's registry (RFC 7143, section 12.1.3).

ghost use Rattle.std.specs.Prelude.{◌≡◌};
ghost use Rattle.iscsi_chap.specs.Response.{algorithm_name, algorithm_named};

/// An algorithm that makes a response from a challenge.
#[derive(Clone, Copy, Debug, PartialEq, Eq)]
pub enum Algorithm {
    /// MD5, which is 5 (RFC 1994).
    Md5,
    /// SHA-256, which is 7 (FIPS 180-4).
    Sha256,
}

impl Algorithm {
    /// The algorithm that an item of CHAP_A names: MD5 for `5`, SHA-256 for `7`, and none for any
    /// other item. The number is read by its bytes, so `0x5` names none (own rule).
    pub fn named(item: &[u8]) -> Option<Algorithm>
        ensures names { result ≡ algorithm_named item.now }
    {
        if item == b"5".as_slice() {
            Some(Algorithm::Md5)
        } else if item == b"7".as_slice() {
            Some(Algorithm::Sha256)
        } else {
            None
        }
    }

    /// The number of the algorithm, as CHAP_A writes it.
    pub fn name(self) -> &'static [u8]
        ensures written { result.now ≡ algorithm_name self }
    {
        match self {
            Algorithm::Md5 => b"5",
            Algorithm::Sha256 => b"7",
        }
    }
}
