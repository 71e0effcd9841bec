// Test cases that stand in files: which calls are made, on what, and what they must answer and leave. The arguments
// name the files; for each it prints how many of its cases hold, and the first that doesn't.
#![tactic(auto)]

ghost use Rattle.std.specs.Prelude.{◌≤◌, IfOk};

use arrayvec::ArrayVec;
use std::env::{Env, FillError};
use std::fs::File;
use std::io::{Print, Read};
use std::{io, str};
use test_calls::case;
use test_memory::failure::Outcome;
use test_memory::memory::Memory;

// ---- reading

// The file ends early or goes on behind its last case, or a length in it is more than there may be.
#[derive(Clone, Copy, Debug)]
struct Damaged;

fn read(input: &mut File, out: &mut [u8]) -> Result<(), Damaged> {
    input.read_exact(out).map_err(|_| Damaged)
}

fn read_number(input: &mut File) -> Result<u32, Damaged> {
    let mut number = [0u8; 4];
    read(input, &mut number)?;
    Ok(u32::from_le_bytes(number))
}

fn read_length(input: &mut File, most: usize) -> Result<usize, Damaged>
    ensures { IfOk result (λ n. n ≤ most) }
{
    let n = read_number(input)? as usize;
    if n <= most { Ok(n) } else { Err(Damaged) }
}

fn read_end(input: &mut File) -> Result<(), Damaged> {
    let mut next = [0u8; 1];
    match read(input, &mut next) {
        Ok(()) => Err(Damaged),
        Err(Damaged) => Ok(()),
    }
}

// ---- a case

// It has 256 bytes at most.
type Name = ArrayVec<u8, 256>;

fn read_name(input: &mut File) -> Result<Name, Damaged> {
    let mut name = Name::from([0u8; 256]);
    name.truncate(read_length(input, 256)?);
    read(input, name.as_mut_slice())?;
    Ok(name)
}

// Records have 262,144 bytes at most, for which there is room, as there is no heap.
fn read_case(input: &mut File, memory: &mut Memory) -> Result<Outcome, Damaged> {
    let mut buffer = [0u8; 262144];
    let n = read_length(input, 262144)?;
    let records = &mut buffer[..n];
    read(input, records)?;
    Ok(case(records, memory))
}

// ---- a file

// How many cases hold, and the first that doesn't.
#[derive(Drop)]
struct Tally {
    agreed: u32,
    first_that_differs: Option<Name>,
}

impl Tally {
    fn new() -> Tally {
        Tally {
            agreed: 0,
            first_that_differs: None,
        }
    }

    fn add(&mut self, name: Name, outcome: Outcome) {
        match outcome {
            Ok(()) => self.agreed = self.agreed.saturating_add(1),
            Err(_) => {
                self.first_that_differs.get_or_insert(name);
            }
        }
    }
}

fn read_cases(input: &mut File, count: u32, tally: &mut Tally) -> Result<(), Damaged> {
    // It is zero when a file begins.
    let mut memory = Memory::new();
    for _ in 0..count {
        let name = read_name(input)?;
        let outcome = read_case(input, &mut memory)?;
        tally.add(name, outcome);
    }
    read_end(input)
}

fn print_tally(
    rt: &HostRuntime,
    count: u32,
    tally: Tally,
    read: Result<(), Damaged>,
) -> io::Result<()> {
    let agreed = tally.agreed;
    print!(rt; "{agreed} of {count}")?;
    if let Some(name) = tally.first_that_differs {
        print!(rt; ", the first that differs: ")?;
        rt.write_all(name.as_slice())?;
    }
    if read.is_err() {
        print!(rt; ", file damaged")?;
    }
    print!(rt; "\n")
}

// A path is text.
fn open(rt: &HostRuntime, name: &[u8]) -> Option<File> {
    File::open(rt, str::from_utf8(name).ok()?).ok()
}

fn file(rt: &HostRuntime, name: &[u8]) -> io::Result<()> {
    rt.write_all(name)?;
    print!(rt; ": ")?;
    let Some(mut input) = open(rt, name) else {
        return print!(rt; "no file\n");
    };
    // Where the file ends before its count, that is taken to be the largest.
    let count = read_number(&mut input).unwrap_or(u32::MAX);
    let mut tally = Tally::new();
    let read = read_cases(&mut input, count, &mut tally);
    print_tally(rt, count, tally, read)
}

// What is longer than a path can be names no file. The arguments are asked for one by one: an iterator over them would
// take memory from the heap.
fn main(rt: HostRuntime) -> io::Result<()> {
    let mut name = [0u8; 4096];
    for i in 1..usize::MAX {
        match rt.arg(i, &mut name) {
            Ok(n) => file(&rt, &name[..n])?,
            Err(FillError::TooLong) => file(&rt, &[])?,
            Err(FillError::NotPresent) => return Ok(()),
        }
    }
    Ok(())
}
