// A record: its length, its kind, operands, and for some kinds bytes or records behind the operands. An operand is a
// pair of numbers; a buffer's are where it begins in the memory, and how many elements are lent of it.
ghost use Rattle.std.specs.Prelude.{◌≤◌, length};
ghost use Rattle.std.specs.Iterator.{at_most};

use crate::failure::{Failure, Outcome};
use crate::memory::{load, number, part};
use parameters::Edition;

#[derive(Clone, Copy)]
pub struct Record<'a> {
    bytes: &'a [u8],
}

impl<'a> Record<'a> {
    // Whether it has as many bytes as it says.
    pub fn whole(self) -> Outcome {
        if self.bytes.len() == number(self.bytes, 0) as usize {
            return Ok(());
        }
        Err(Failure::Cut)
    }

    pub fn kind(self) -> u32 {
        number(self.bytes, 4)
    }

    // ---- operands

    // Operand i's two numbers; no record has 64 operands.
    pub fn low(self, i: usize) -> u32 {
        number(self.bytes, 8 + 8 * (i % 64))
    }

    pub fn high(self, i: usize) -> u32 {
        number(self.bytes, 12 + 8 * (i % 64))
    }

    // The first number as an edition's.
    pub fn edition(self, i: usize) -> Edition {
        if self.low(i) == 0 {
            return Edition::MlKem;
        }
        Edition::Kyber
    }

    // ---- behind the first operand

    pub fn text(self) -> &'a [u8] {
        part(self.bytes, 16, self.count(0))
    }

    pub fn hash(self) -> &'a [u8] {
        part(self.bytes, 16, 32)
    }

    pub fn records(self) -> Records<'a> {
        Records {
            rest: part(self.bytes, 16, self.bytes.len()),
        }
    }

    // ---- buffers

    pub fn start(self, i: usize) -> usize {
        self.low(i) as usize
    }

    pub fn count(self, i: usize) -> usize {
        self.high(i) as usize
    }

    // What is lent of the memory.
    pub fn lent<T>(self, i: usize, memory: &[T]) -> &[T] {
        part(memory, self.start(i), self.count(i))
    }

    // The first elements of a buffer, as many as are lent.
    pub fn first<T>(self, i: usize, buffer: &[T]) -> &[T] {
        part(buffer, 0, self.count(i))
    }

    pub fn first_mut<T>(self, i: usize, buffer: &mut [T]) -> &mut [T]
        ensures { length result.now ≤ length buffer.old }
    {
        let n = self.count(i).min(buffer.len());
        &mut buffer[..n]
    }

    // The buffer with what the memory holds there, and of it as many as are lent.
    pub fn taken<'b, T: Copy>(self, i: usize, memory: &[T], buffer: &'b mut [T]) -> &'b mut [T] {
        load(memory, self.start(i), buffer);
        self.first_mut(i, buffer)
    }
}

// Records one after the other.
#[derive(Clone, Copy)]
pub struct Records<'a> {
    rest: &'a [u8],
}

impl<'a> Records<'a> {
    pub fn new(bytes: &'a [u8]) -> Records<'a> {
        Records { rest: bytes }
    }
}

// Of the last as much as there is. It is also the last where it says that it has no bytes.
impl<'a> Iterator for Records<'a> {
    type Item = Record<'a>;

    ghost remaining = { λ s. at_most (length s.rest.now) };

    fn next(&mut self) -> Option<Record<'a>> {
        if self.rest.len() == 0 {
            return None;
        }
        let n = number(self.rest, 0) as usize;
        let (bytes, rest) = self.rest.split_at(n.min(self.rest.len()));
        self.rest = if n == 0 { &[] } else { rest };
        Some(Record { bytes })
    }
}
