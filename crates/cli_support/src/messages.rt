// Lines on standard error. Each begins with the program's name, and most then name a file. What standard error doesn't
// take is left out.
use crate::desk::Desk;
use std::fmt::Display;
use std::io::{Cursor, Write};
use std::{io, str};

// Something wasn't carried out, and a line has said why.
#[derive(Clone, Copy)]
pub struct Told;

fn say(desk: &impl Desk, text: &[u8]) {
    let _ = desk.write_error(text);
}

// What is named is bytes, which need not be text.
fn tell(desk: &impl Desk, what: &[u8], reason: impl Display + Drop) -> Told {
    say(desk, b"mlkem: ");
    say(desk, what);
    let _ = eprintln!(desk; ": {reason}");
    Told
}

// An error's text without its number.
fn without_number(text: &str) -> &str {
    match text.split_once(" (os error ") {
        Some((words, _)) => words,
        None => text,
    }
}

// A call on what is named failed with this error.
pub fn failed(desk: &impl Desk, what: &[u8], error: io::Error) -> Told {
    // Room for an error's text, as there is no heap.
    let mut room = [0u8; 256];
    let mut out = Cursor::new(&mut room[..]);
    let _ = write!(out, "{error}");
    let n = (out.position() as usize).min(256);
    let text = str::from_utf8(&room[..n]).unwrap_or("");
    tell(desk, what, without_number(text))
}

pub fn longer(desk: &impl Desk, path: &[u8], most: usize) -> Told {
    tell(desk, path, format_args!("longer than {most} bytes"))
}

pub fn shorter(desk: &impl Desk, path: &[u8], has: usize, needs: usize) -> Told {
    tell(desk, path, format_args!("{has} bytes, not {needs}"))
}

pub fn no_number(desk: &impl Desk, word: &[u8], most: u64) -> Told {
    tell(desk, word, format_args!("not a number from 0 to {most}"))
}

pub fn same_name(desk: &impl Desk, path: &[u8]) -> Told {
    tell(desk, path, "named for two outputs")
}

pub fn bad_argument(desk: &impl Desk, i: usize) -> Told {
    let _ = eprintln!(desk; "mlkem: argument {i} is empty or too long");
    Told
}

// A call was refused.
pub fn refused(desk: &impl Desk, number: u64, condition: &str) -> Told {
    let _ = eprintln!(desk; "refused {number}: {condition}");
    Told
}

pub fn unknown(desk: &impl Desk, word: &[u8]) -> Told {
    say(
        desk,
        b"usage: mlkem help lists the commands; there is no command ",
    );
    say(desk, word);
    say(desk, b"\n");
    Told
}
