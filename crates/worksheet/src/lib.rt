// The recorder, and one function for each kind of entry, which does the operation and records the result.
#![tactic(auto)]

ghost use Rattle.std.specs.Prelude.{◌≡◌, ℕ};
ghost use Rattle.words.specs.Word.{xor, and, complement, ones as ones_of};
ghost use Rattle.worksheet.specs.Prog.{entry};
ghost use Rattle.worksheet.specs.Ran.{Makes};
ghost use Rattle.worksheet.specs.Recording;

pub mod gates; // complement, exclusive or, And and Or of sharings

pub use gates::{masked_and, masked_not, masked_or, masked_xor};

// What is kept of a worksheet: the entry that is `left` entries ahead (1: the next one; 0: none).
#[derive(Clone, Copy)]
pub struct Recorder {
    pub left: u64,
    pub value: u64,
}

// A value, and the recorder behind it.
#[derive(Clone, Copy)]
pub struct Entered<T> {
    pub value: T,
    pub rec: Recorder,
}

// Two shares of what stands for a T.
#[derive(Clone, Copy)]
pub struct Shared<T> {
    pub s0: T,
    pub s1: T,
}

pub type Shares = Shared<u64>;

pub fn note(rec: Recorder, v: u64) -> Recorder
    ensures { result ≡ Recording.note rec v }
{
    match rec.left {
        0 => rec,
        1 => Recorder { left: 0, value: v },
        n => Recorder { left: n - 1, ..rec },
    }
}

// A value as it stands: the outcome of a pass on one share.
pub fn enter(rec: Recorder, v: u64) -> Recorder
    ensures { Makes (entry v) rec v result }
{
    note(rec, v)
}

pub fn enter_xor(rec: Recorder, x: u64, y: u64) -> Entered<u64>
    ensures { Makes (entry (xor x y)) rec result.value result.rec }
{
    let v = x ^ y;
    Entered {
        value: v,
        rec: enter(rec, v),
    }
}

pub fn enter_and(rec: Recorder, x: u64, y: u64) -> Entered<u64>
    ensures { Makes (entry (and x y)) rec result.value result.rec }
{
    let v = x & y;
    Entered {
        value: v,
        rec: enter(rec, v),
    }
}

// The complement of x at the width of `ones`, whose bits are all 1.
pub fn enter_complement(rec: Recorder, x: u64, ones: u64) -> Entered<u64>
    ensures { (w : ℕ) → ones ≡ ones_of w → Makes (entry (complement w x)) rec result.value result.rec }
{
    enter_xor(rec, x, ones)
}
