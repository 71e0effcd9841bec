// The hashes, by their numbers, and the masked ones.
use crate::left::Left;
use refusals::number;
use test_memory::hashes::HashFunction;
use test_memory::memory::Memory;
use test_memory::record::Record;

// out is operand 1; the hash and the message are operands 9 and 10.
pub(crate) fn hash(r: Record, m: &Memory, left: &mut Left) -> u64 {
    HashFunction::from(r.low(9)).digest(r.lent(10, &m.bytes), r.taken(1, &m.bytes, &mut left.b0))
}

// The masked hashes by their numbers.
#[derive(Clone, Copy, Debug, PartialEq, Eq)]
enum MaskedHash {
    Sha3_512,
    Shake256,
}

impl From<u32> for MaskedHash {
    fn from(number: u32) -> MaskedHash {
        match number {
            0 => MaskedHash::Sha3_512,
            _ => MaskedHash::Shake256,
        }
    }
}

impl MaskedHash {
    fn digest(
        self,
        in0: &[u8],
        in1: &[u8],
        masks: &[u64],
        out0: &mut [u8],
        out1: &mut [u8],
    ) -> u64 {
        number(match self {
            MaskedHash::Sha3_512 => masked_fips202::masked_sha3_512(in0, in1, masks, out0, out1),
            MaskedHash::Shake256 => masked_fips202::masked_shake256(in0, in1, masks, out0, out1),
        })
    }
}

// The shares of the output are operands 1 and 2; the hash, the shares of the message and the masks are operands 9 to
// 12.
pub(crate) fn masked_hash(r: Record, m: &Memory, left: &mut Left) -> u64 {
    MaskedHash::from(r.low(9)).digest(
        r.lent(10, &m.bytes),
        r.lent(11, &m.bytes),
        r.lent(12, &m.words),
        r.taken(1, &m.bytes, &mut left.b0),
        r.taken(2, &m.bytes, &mut left.b1),
    )
}
