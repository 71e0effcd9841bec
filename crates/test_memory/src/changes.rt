// Records that change the memory. They hold where what they change is in it.
use crate::elements::Element;
use crate::failure::{Failure, Outcome};
use crate::hashes::HashFunction;
use crate::memory::{Memory, element, load, part, part_mut, place, set, store};
use crate::record::Record;
use buffers::values::reduce;

// ---- WRITE: a buffer; then the bytes

pub(crate) fn write(r: Record, m: &mut Memory) -> Outcome {
    store(r.text(), &mut m.bytes, r.start(0))
}

// ---- FILL: a buffer, a byte

fn low_byte(x: u32) -> u8 {
    (x % 256) as u8
}

pub(crate) fn fill(r: Record, m: &mut Memory) -> Outcome {
    part_mut(&mut m.bytes, r.start(0), r.count(0))?.fill(low_byte(r.low(1)));
    Ok(())
}

// ---- COPY: a buffer, a stride and a counter, from where and its stride

// t times a stride, both below 65,536.
fn strides(stride: u16, t: u16) -> usize {
    (stride as u32 * t as u32) as usize
}

fn low_half(x: u64) -> u16 {
    (x % 65536) as u16
}

// Where the buffer begins that is t strides behind a place.
fn place_at(at: usize, stride: u32, t: u64) -> usize {
    place(at, strides(low_half(stride as u64), low_half(t)))
}

pub(crate) fn copy(r: Record, m: &mut Memory) -> Outcome {
    let t = element(&m.words, r.count(1));
    let to = place_at(r.start(0), r.low(1), t);
    let from = place_at(r.start(2), r.high(2), t);
    // Room for the longest, as there is no heap.
    let mut held = [0u8; 4096];
    load(&m.bytes, from, &mut held);
    store(r.first(0, &held), &mut m.bytes, to)
}

// ---- JOIN: a buffer, another

pub(crate) fn join(r: Record, m: &mut Memory) -> Outcome {
    // Room for the longest, as there is no heap.
    let mut both = [0u8; 4096];
    load(r.lent(0, &m.bytes), 0, &mut both);
    for (x, y) in both.iter_mut().zip(part(&m.bytes, r.start(1), r.count(0))) {
        *x ^= *y;
    }
    store(r.first(0, &both), &mut m.bytes, r.start(0))
}

// ---- SET: a place and the width of an element, a counter and the value, a modulus

// An element's bits.
enum Width {
    Eight,
    Twelve,
    Sixteen,
}

impl TryFrom<u32> for Width {
    type Error = Failure;

    fn try_from(bits: u32) -> Result<Width, Failure> {
        match bits {
            8 => Ok(Width::Eight),
            12 => Ok(Width::Twelve),
            16 => Ok(Width::Sixteen),
            _ => Err(Failure::NoSuchKind),
        }
    }
}

// Bytes 0 and 1 of an element of 16 bits.
fn set_wide(b: &mut [u8], at: usize, v: u32) -> Outcome {
    let first = set(b, at, low_byte(v));
    first.and(set(b, place(at, 1), low_byte(v / 256)))
}

// Of the three bytes of two elements of 12 bits, those of the first or of the second.
fn set_even(b: &mut [u8], at: usize, v: u32) -> Outcome {
    let middle = element(b, place(at, 1)) & 0xf0 | low_byte(v / 256 % 16);
    let first = set(b, at, low_byte(v));
    first.and(set(b, place(at, 1), middle))
}

fn set_odd(b: &mut [u8], at: usize, v: u32) -> Outcome {
    let middle = element(b, place(at, 1)) & 0x0f | low_byte(v % 16 * 16);
    let first = set(b, place(at, 1), middle);
    first.and(set(b, place(at, 2), low_byte(v / 16)))
}

// Element i of the string that begins at a place; the one place that goes by the width.
fn set_element(b: &mut [u8], width: Width, at: usize, i: usize, v: u32) -> Outcome {
    let j = i % 65536;
    match width {
        Width::Eight => set(b, place(at, j), low_byte(v)),
        Width::Twelve if j % 2 == 0 => set_even(b, place(at, j / 2 * 3), v),
        Width::Twelve => set_odd(b, place(at, j / 2 * 3), v),
        Width::Sixteen => set_wide(b, place(at, 2 * j), v),
    }
}

pub(crate) fn set_in_string(r: Record, m: &mut Memory) -> Outcome {
    let counter = element(&m.words, r.start(1));
    let i = counter.checked_rem(r.low(2) as u64).unwrap_or(0) as usize;
    let width = Width::try_from(r.high(0))?;
    set_element(&mut m.bytes, width, r.start(0), i, r.high(1))
}

// ---- SQUEEZE: a buffer, the hash, the message

pub(crate) fn squeeze(r: Record, m: &mut Memory) -> Outcome {
    // Room for the longest, as there is no heap.
    let mut buffer = [0u8; 170000];
    let out = r.first_mut(0, &mut buffer);
    HashFunction::from(r.low(1)).digest(r.lent(2, &m.bytes), out);
    store(out, &mut m.bytes, r.start(0))
}

// ---- LOAD: a buffer of coefficients or words, from which byte on; coefficients modulo q where that is asked

fn load_elements<T: Element>(r: Record, bytes: &[u8], memory: &mut [T]) -> Outcome {
    let out = part_mut(memory, r.start(0), r.count(0))?;
    let length = T::BYTES.checked_mul(out.len()).ok_or(Failure::Outside)?;
    let source = part(bytes, r.start(1), length);
    if source.len() != length {
        return Err(Failure::Outside);
    }
    T::get(source, out);
    Ok(())
}

pub(crate) fn load_coefficients(r: Record, m: &mut Memory) -> Outcome {
    load_elements(r, &m.bytes, &mut m.coefficients)?;
    if r.high(1) == 1 {
        reduce(part_mut(&mut m.coefficients, r.start(0), r.count(0))?);
    }
    Ok(())
}

pub(crate) fn load_words(r: Record, m: &mut Memory) -> Outcome {
    load_elements(r, &m.bytes, &mut m.words)
}

// ---- STORE: to which byte, a buffer of coefficients or words

// A number of elements is taken modulo 65,537.
fn store_elements<T: Element>(r: Record, bytes: &mut [u8], memory: &[T]) -> Outcome {
    let elements = r.lent(1, memory);
    if elements.len() != r.count(1) % 65537 {
        return Err(Failure::Outside);
    }
    let length = T::BYTES
        .checked_mul(elements.len())
        .ok_or(Failure::Outside)?;
    T::put(elements, part_mut(bytes, r.start(0), length)?);
    Ok(())
}

pub(crate) fn store_coefficients(r: Record, m: &mut Memory) -> Outcome {
    store_elements(r, &mut m.bytes, &m.coefficients)
}

pub(crate) fn store_words(r: Record, m: &mut Memory) -> Outcome {
    store_elements(r, &mut m.bytes, &m.words)
}

// ---- COUNT: a word's place and what is added to it

pub(crate) fn count(r: Record, m: &mut Memory) -> Outcome {
    let at = r.start(0);
    let sum = element(&m.words, at) % 0x1_0000_0000 + r.high(0) as u64;
    set(&mut m.words, at, sum % 0x1_0000_0000)
}

// ---- ABSORB: a digest, a buffer

pub(crate) fn absorb(r: Record, m: &mut Memory) -> Outcome {
    // Room for the longest, as there is no heap.
    let mut feed = [0u8; 16032];
    let mut digest = [0u8; 32];
    let at = r.start(0);
    let first = store(part(&m.bytes, at, 32), &mut feed, 0);
    let second = store(r.lent(1, &m.bytes), &mut feed, 32);
    let n = place(r.count(1), 32);
    let _ = fips202::sha3_256(part(&feed, 0, n), &mut digest);
    first.and(second).and(store(&digest, &mut m.bytes, at))
}
