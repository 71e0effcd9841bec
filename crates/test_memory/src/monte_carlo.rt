// CHAIN: a turn of NIST's Monte Carlo test. Where the output stands and the message's length, the least and the most
// that an output has, where the lengths of the last and of the next output stand and the hash.
ghost use Rattle.std.specs.Prelude.{◌≤◌};

use crate::failure::{Outcome, wanted};
use crate::hashes::HashFunction;
use crate::memory::{Memory, element, load, part, place, set, store};
use crate::record::Record;

// The output's last two bytes, the highest first, choose the next one's length.
fn chosen(out: &[u8], least: u32, most: u32) -> u64 {
    match out {
        [.., high, low] if least <= most => {
            let ending = *high as u64 * 256 + *low as u64;
            least as u64 + ending % ((most - least) as u64 + 1)
        }
        _ => 0,
    }
}

fn set_lengths(m: &mut Memory, state: usize, last: u64, next: u64) -> Outcome {
    let first = set(&mut m.words, state, last);
    first.and(set(&mut m.words, place(state, 1), next))
}

// out becomes the next output. The message is the last output's start; past its end zeros.
fn chain_into(r: Record, last: usize, m: &mut Memory, out: &mut [u8]) -> Outcome {
    let at = r.start(0);
    let mut text = [0u8; 64];
    load(part(&m.bytes, at, last), 0, &mut text);
    let answer = HashFunction::from(r.high(2)).digest(r.first(0, &text), out);
    let next = chosen(out, r.low(1), r.high(1));
    let stored = store(out, &mut m.bytes, at);
    let lengths = set_lengths(m, r.start(2), out.len() as u64, next);
    wanted(answer == 0).and(stored).and(lengths)
}

// The length that stands in a word, as far as there is room.
fn length_at(m: &Memory, at: usize) -> usize
    ensures { result ≤ 250 }
{
    element(&m.words, at).min(250) as usize
}

pub(crate) fn chain(r: Record, m: &mut Memory) -> Outcome {
    // Room for the longest output, as there is no heap.
    let mut out = [0u8; 250];
    let state = r.start(2);
    let last = length_at(m, state);
    let n = length_at(m, place(state, 1));
    chain_into(r, last, m, &mut out[..n])
}
