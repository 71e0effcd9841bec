// What a call may change: operands 1 to 8 of its record, the same eight for each call, say where that stands in the
// memory. What a call hasn't stays zero and is put back so.
use test_memory::failure::Outcome;
use test_memory::memory::{Memory, store};
use test_memory::record::Record;

#[derive(Drop)]
pub(crate) struct Left {
    pub(crate) b0: [u8; 4096],
    pub(crate) b1: [u8; 4096],
    pub(crate) c0: [u16; 4096],
    pub(crate) c1: [u16; 4096],
    pub(crate) w0: [u64; 512],
    pub(crate) w1: [u64; 512],
    pub(crate) n0: u64,
    pub(crate) n1: u64,
}

impl Left {
    pub(crate) fn new() -> Left {
        Left {
            b0: [0u8; 4096],
            b1: [0u8; 4096],
            c0: [0u16; 4096],
            c1: [0u16; 4096],
            w0: [0u64; 512],
            w1: [0u64; 512],
            n0: 0,
            n1: 0,
        }
    }

    // Back into the memory, all that there is room for.
    pub(crate) fn put(&self, r: Record, m: &mut Memory) -> Outcome {
        let b0 = put(r, 1, &self.b0, &mut m.bytes);
        let b1 = put(r, 2, &self.b1, &mut m.bytes);
        let c0 = put(r, 3, &self.c0, &mut m.coefficients);
        let c1 = put(r, 4, &self.c1, &mut m.coefficients);
        let w0 = put(r, 5, &self.w0, &mut m.words);
        let w1 = put(r, 6, &self.w1, &mut m.words);
        let n0 = put(r, 7, &[self.n0], &mut m.words);
        let n1 = put(r, 8, &[self.n1], &mut m.words);
        b0.and(b1).and(c0).and(c1).and(w0).and(w1).and(n0).and(n1)
    }
}

fn put<T: Copy>(r: Record, i: usize, buffer: &[T], memory: &mut [T]) -> Outcome {
    store(r.first(i, buffer), memory, r.start(i))
}
