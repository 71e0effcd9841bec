// The hashes by their numbers.
use refusals::number;

#[derive(Clone, Copy, Debug, PartialEq, Eq)]
pub enum HashFunction {
    Sha3_256,
    Sha3_512,
    Shake128,
    Shake256,
}

// Any further number is SHAKE256's.
impl From<u32> for HashFunction {
    fn from(number: u32) -> HashFunction {
        match number {
            0 => HashFunction::Sha3_256,
            1 => HashFunction::Sha3_512,
            2 => HashFunction::Shake128,
            _ => HashFunction::Shake256,
        }
    }
}

impl HashFunction {
    // The number of its answer; the SHAKEs refuse nothing. The one place that goes by the hash.
    pub fn digest(self, message: &[u8], out: &mut [u8]) -> u64 {
        match self {
            HashFunction::Sha3_256 => number(fips202::sha3_256(message, out)),
            HashFunction::Sha3_512 => number(fips202::sha3_512(message, out)),
            HashFunction::Shake128 => {
                fips202::shake128(message, out);
                0
            }
            HashFunction::Shake256 => {
                fips202::shake256(message, out);
                0
            }
        }
    }
}
