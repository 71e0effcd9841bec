// The outward calls, by the kind of their records.
use crate::left::Left;
use crate::{decapsulations, hashes, keys, splits};
use test_memory::failure::{Failure, Outcome, wanted};
use test_memory::memory::Memory;
use test_memory::record::Record;

#[derive(Clone, Copy, Debug, PartialEq, Eq)]
enum Call {
    Keygen,
    Encaps,
    Sample,
    Import,
    Refresh,
    Decaps,
    Trace,
    Hash,
    MaskedHash,
}

impl TryFrom<u32> for Call {
    type Error = Failure;

    fn try_from(kind: u32) -> Result<Call, Failure> {
        match kind {
            32 => Ok(Call::Keygen),
            33 => Ok(Call::Encaps),
            34 => Ok(Call::Sample),
            35 => Ok(Call::Import),
            36 => Ok(Call::Refresh),
            37 => Ok(Call::Decaps),
            38 => Ok(Call::Trace),
            39 => Ok(Call::Hash),
            40 => Ok(Call::MaskedHash),
            _ => Err(Failure::NoSuchKind),
        }
    }
}

impl Call {
    // The number of its answer; the one place that goes by the call.
    fn answer(self, r: Record, m: &Memory, left: &mut Left) -> u64 {
        match self {
            Call::Keygen => keys::keygen(r, m, left),
            Call::Encaps => keys::encaps(r, m, left),
            Call::Sample => keys::sample(r, m, left),
            Call::Import => splits::import(r, m, left),
            Call::Refresh => splits::refresh(r, m, left),
            Call::Decaps => decapsulations::decaps(r, m, left),
            Call::Trace => decapsulations::trace(r, m, left),
            Call::Hash => hashes::hash(r, m, left),
            Call::MaskedHash => hashes::masked_hash(r, m, left),
        }
    }
}

// Whether the call's answer is the wanted one, operand 0's first number.
fn made(r: Record, m: &Memory, left: &mut Left) -> Outcome {
    let call = Call::try_from(r.kind())?;
    wanted(call.answer(r, m, left) == r.low(0) as u64)
}

// Holds where the answer is the wanted one and what the call leaves could be put back. A call that there isn't leaves
// zeros.
pub(crate) fn carry_out(r: Record, m: &mut Memory) -> Outcome {
    let mut left = Left::new();
    let answered = made(r, m, &mut left);
    answered.and(left.put(r, m))
}
