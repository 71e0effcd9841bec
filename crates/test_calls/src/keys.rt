// Key making, encapsulation and sampling.
use crate::left::Left;
use refusals::number;
use test_memory::memory::Memory;
use test_memory::record::Record;

// Of the memory's bytes, ek and dk are operands 1 and 2; edition and rank, d, z are operands 9 to 11.
pub(crate) fn keygen(r: Record, m: &Memory, left: &mut Left) -> u64 {
    number(mlkem_keygen::keygen(
        r.edition(9),
        r.high(9),
        r.lent(10, &m.bytes),
        r.lent(11, &m.bytes),
        r.taken(1, &m.bytes, &mut left.b0),
        r.taken(2, &m.bytes, &mut left.b1),
    ))
}

// ct and k; edition and rank, ek, m. The same operands as keygen's, in another call.
pub(crate) fn encaps(r: Record, m: &Memory, left: &mut Left) -> u64 {
    number(mlkem_encaps::encaps(
        r.edition(9),
        r.high(9),
        r.lent(10, &m.bytes),
        r.lent(11, &m.bytes),
        r.taken(1, &m.bytes, &mut left.b0),
        r.taken(2, &m.bytes, &mut left.b1),
    ))
}

// Of the memory's coefficients, out is operand 3; the stream is operand 9.
pub(crate) fn sample(r: Record, m: &Memory, left: &mut Left) -> u64 {
    number(mlkem::sample(
        r.lent(9, &m.bytes),
        r.taken(3, &m.coefficients, &mut left.c0),
    ))
}
