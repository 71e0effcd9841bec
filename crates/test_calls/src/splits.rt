// Import and refreshing. The public part is operand 1, the shares are operands 3 to 6, limit and count operands 7 and
// 8.
use crate::left::Left;
use refusals::number;
use split_key::{KeyStateMut, Masks, SharesMut};
use test_memory::memory::{Memory, element};
use test_memory::record::Record;

// The number of 32 bits that stands in the word of operand i.
pub(crate) fn number_of(r: Record, i: usize, m: &Memory) -> u32 {
    (element(&m.words, r.start(i)) % 0x1_0000_0000) as u32
}

// Limit and rank, dk, the masks: operands 9 to 12.
pub(crate) fn import(r: Record, m: &Memory, left: &mut Left) -> u64 {
    let mut limit = number_of(r, 7, m);
    let mut count = number_of(r, 8, m);
    let answer = number(split_key_import::import(
        r.high(9),
        r.lent(10, &m.bytes),
        &Masks {
            coeffs: r.lent(11, &m.coefficients),
            words: r.lent(12, &m.words),
        },
        r.low(9),
        &mut KeyStateMut {
            s0: r.taken(3, &m.coefficients, &mut left.c0),
            s1: r.taken(4, &m.coefficients, &mut left.c1),
            z0: r.taken(5, &m.words, &mut left.w0),
            z1: r.taken(6, &m.words, &mut left.w1),
            public: r.taken(1, &m.bytes, &mut left.b0),
            limit: &mut limit,
            count: &mut count,
        },
    ));
    left.n0 = limit as u64;
    left.n1 = count as u64;
    answer
}

// Rank, the masks: operands 9 to 11.
pub(crate) fn refresh(r: Record, m: &Memory, left: &mut Left) -> u64 {
    let mut count = number_of(r, 8, m);
    let answer = number(split_key_refresh::refresh(
        r.high(9),
        &Masks {
            coeffs: r.lent(10, &m.coefficients),
            words: r.lent(11, &m.words),
        },
        &mut SharesMut {
            s0: r.taken(3, &m.coefficients, &mut left.c0),
            s1: r.taken(4, &m.coefficients, &mut left.c1),
            z0: r.taken(5, &m.words, &mut left.w0),
            z1: r.taken(6, &m.words, &mut left.w1),
        },
        &mut count,
    ));
    left.n1 = count as u64;
    answer
}
