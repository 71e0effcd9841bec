// The words of the command line.
ghost use Rattle.std.specs.Prelude.{◌≤◌, IfSome, IfOk, length};

use crate::desk::Desk;
use crate::messages;
use crate::messages::Told;
use std::env::FillError;

// A word, in room for N bytes.
#[derive(Drop)]
pub struct Word<const N: usize> {
    room: [u8; N],
    count: usize,
    ghost within: { count ≤ N },
}

impl<const N: usize> Word<N> {
    // Argument i; empty where it is missing or longer.
    pub fn at(desk: &impl Desk, i: usize) -> Self {
        let mut room = [0; N];
        let count = desk.arg(i, &mut room).unwrap_or(0);
        Word { room, count }
    }

    pub fn bytes(&self) -> &[u8]
        ensures { length result.now ≤ N }
    {
        &self.room[..self.count]
    }
}

// A word that is a path.
pub type Path = Word<4096>;

pub fn path_at(desk: &impl Desk, i: usize) -> Result<Path, Told> {
    let path = Path::at(desk, i);
    if path.bytes().is_empty() {
        return Err(messages::bad_argument(desk, i));
    }
    Ok(path)
}

// How many words the command line has, the program's name among them. They are asked for one by one: an iterator over
// them would take memory from the heap.
pub fn count(desk: &impl Desk) -> usize {
    let mut room = [0u8; 1];
    for i in 0..usize::MAX {
        if let Err(FillError::NotPresent) = desk.arg(i, &mut room) {
            return i;
        }
    }
    usize::MAX
}

// The number n with one more digit, where b is one and the number is at most most.
fn appended(n: u64, b: u8, most: u64) -> Option<u64>
    ensures { IfSome result (λ m. m ≤ most) }
{
    let digit = (b as char).to_digit(10)?;
    let number = n.checked_mul(10)?.checked_add(digit as u64)?;
    if number <= most { Some(number) } else { None }
}

// The number from 0 to most that a word spells in decimal. It isn't u64's parse, which takes a sign too.
fn decimal(word: &[u8], most: u64) -> Option<u64>
    ensures { IfSome result (λ m. m ≤ most) }
{
    if word.is_empty() {
        return None;
    }
    let mut n: u64 = 0;
    for b in word {
        n = appended(n, *b, most)?;
    }
    Some(n)
}

// Argument i as a number from 0 to most.
pub fn number(desk: &impl Desk, i: usize, most: u64) -> Result<u64, Told>
    ensures { IfOk result (λ m. m ≤ most) }
{
    let word = Word::<32>::at(desk, i);
    match decimal(word.bytes(), most) {
        Some(number) => Ok(number),
        None => Err(messages::no_number(desk, word.bytes(), most)),
    }
}
