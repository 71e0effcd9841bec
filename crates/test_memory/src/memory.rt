// The memory: bytes, coefficients and words. What isn't in it isn't read or written.
ghost use Rattle.std.specs.Prelude.{◌≡◌, ◌≤◌, length, IfOk};

use crate::failure::{Failure, Outcome};

// How much of each it has.
pub const BYTES: usize = 655360;

pub const COEFFICIENTS: usize = 65536;

pub const WORDS: usize = 65536;

#[derive(Drop)]
pub struct Memory {
    pub bytes: [u8; BYTES],
    pub coefficients: [u16; COEFFICIENTS],
    pub words: [u64; WORDS],
}

impl Memory {
    // All zero.
    pub fn new() -> Memory {
        Memory {
            bytes: [0u8; BYTES],
            coefficients: [0u16; COEFFICIENTS],
            words: [0u64; WORDS],
        }
    }
}

// ---- parts, which are cut at the end, or whole

pub fn part<T>(s: &[T], at: usize, n: usize) -> &[T]
    ensures { length result.now ≤ n }
{
    let rest = s.get(at..).unwrap_or(&[]);
    rest.get(..n).unwrap_or(rest)
}

pub fn part_mut<T>(s: &mut [T], at: usize, n: usize) -> Result<&mut [T], Failure>
    ensures { IfOk result (λ p. length p.now ≡ n) }
{
    let rest = s.get_mut(at..).ok_or(Failure::Outside)?;
    rest.get_mut(..n).ok_or(Failure::Outside)
}

// What stands from a place on; past the memory's end out keeps what it has.
pub fn load<T: Copy>(s: &[T], at: usize, out: &mut [T]) {
    let from = part(s, at % 0x1_0000_0000, out.len());
    let n = from.len();
    out[..n].copy_from_slice(from);
}

// Nothing is stored where there isn't room for all.
pub fn store<T: Copy>(from: &[T], s: &mut [T], at: usize) -> Outcome {
    part_mut(s, at, from.len())?.copy_from_slice(from);
    Ok(())
}

// ---- single elements

// 0 past the end.
pub fn element<T: Copy + Default>(s: &[T], at: usize) -> T {
    s.get(at).copied().unwrap_or_default()
}

pub fn set<T: Copy>(s: &mut [T], at: usize, v: T) -> Outcome {
    *s.get_mut(at).ok_or(Failure::Outside)? = v;
    Ok(())
}

// Four bytes, the lowest first; 0 where not all are there.
pub fn number(b: &[u8], at: usize) -> u32 {
    part(b, at, 4)
        .first_chunk()
        .map_or(0, |p| u32::from_le_bytes(*p))
}

// ---- places, and sums of them that don't overflow

pub fn place(at: usize, i: usize) -> usize {
    at % 0x1_0000_0000 + i % 0x1_0000_0000
}
