// What must hold of the memory's bytes.
use crate::failure::{Outcome, wanted};
use crate::memory::{Memory, part};
use crate::record::Record;

// Operand 0, and whether it is a part of the memory as long as it says.
fn buffer<'a>(r: Record, m: &'a Memory) -> (&'a [u8], bool) {
    let bytes = r.lent(0, &m.bytes);
    (bytes, bytes.len() == r.count(0))
}

pub(crate) fn want(r: Record, m: &Memory) -> Outcome {
    let (bytes, is_whole) = buffer(r, m);
    wanted(is_whole && bytes == r.text())
}

pub(crate) fn want_hash(r: Record, m: &Memory) -> Outcome {
    let mut hash = [0u8; 32];
    let (bytes, is_whole) = buffer(r, m);
    let _ = fips202::sha3_256(bytes, &mut hash);
    wanted(is_whole && hash.as_slice() == r.hash())
}

// The bytes at operand 1 are those of operand 0.
pub(crate) fn want_same(r: Record, m: &Memory) -> Outcome {
    let (bytes, is_whole) = buffer(r, m);
    wanted(is_whole && bytes == part(&m.bytes, r.start(1), r.count(0)))
}
