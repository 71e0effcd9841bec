// Decapsulation and trace. Edition and rank are operand 9; s0, s1, z0, z1, the public part, the ciphertext and the
// strip are operands 11 to 18.
use crate::left::Left;
use crate::splits::number_of;
use decapsulation::{Input, SplitKey};
use refusals::number;
use test_memory::memory::{Memory, element};
use test_memory::record::Record;

fn input_at<'a>(r: Record, m: &'a Memory) -> Input<'a> {
    Input {
        key: SplitKey {
            s0: r.lent(11, &m.coefficients),
            s1: r.lent(12, &m.coefficients),
            z0: r.lent(13, &m.words),
            z1: r.lent(14, &m.words),
            public: r.lent(15, &m.bytes),
        },
        ct: r.lent(16, &m.bytes),
        words: r.lent(17, &m.words),
        coeffs: r.lent(18, &m.coefficients),
    }
}

// The shares of K are operands 5 and 6, the count is operand 8, the limit operand 10.
pub(crate) fn decaps(r: Record, m: &Memory, left: &mut Left) -> u64 {
    let mut count = number_of(r, 8, m);
    let answer = number(decapsulation::decaps(
        r.edition(9),
        r.high(9),
        &input_at(r, m),
        r.low(10),
        &mut count,
        r.taken(5, &m.words, &mut left.w0),
        r.taken(6, &m.words, &mut left.w1),
    ));
    left.n1 = count as u64;
    answer
}

// The value is operand 7, and operand 10 is where the step's number stands.
pub(crate) fn trace(r: Record, m: &Memory, left: &mut Left) -> u64 {
    left.n0 = element(&m.words, r.start(7));
    number(decapsulation::trace(
        r.edition(9),
        r.high(9),
        &input_at(r, m),
        element(&m.words, r.start(10)),
        &mut left.n0,
    ))
}
