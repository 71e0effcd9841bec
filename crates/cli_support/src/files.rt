// Files by their paths, which are bytes. One whose path isn't text can't be reached.
use crate::desk::Desk;
use std::fs::OpenOptions;
use std::io::ErrorKind;
use std::os::unix::fs::OpenOptionsExt;
use std::{fs, io, str};

// The system's error for bytes that are no text.
const ILLEGAL_BYTES: i32 = 84;

fn text_of(path: &[u8]) -> io::Result<&str> {
    str::from_utf8(path).map_err(|_| io::Error::from_raw_os_error(ILLEGAL_BYTES))
}

pub fn open_read<D: Desk>(desk: &D, path: &[u8]) -> io::Result<D::File> {
    fs::open(desk, text_of(path)?)
}

// For writing at its end; an error where there is none.
pub fn open_append<D: Desk>(desk: &D, path: &[u8]) -> io::Result<D::File> {
    let mut options = OpenOptions::new();
    options.append(true);
    options.open(desk, text_of(path)?)
}

// For writing. It is emptied, or made where there is none.
pub fn open_overwrite<D: Desk>(desk: &D, path: &[u8]) -> io::Result<D::File> {
    fs::create(desk, text_of(path)?)
}

pub fn unlink(desk: &impl Desk, path: &[u8]) -> io::Result<()> {
    fs::remove_file(desk, text_of(path)?)
}

pub fn rename(desk: &impl Desk, from: &[u8], to: &[u8]) -> io::Result<()> {
    fs::rename(desk, text_of(from)?, text_of(to)?)
}

// ---- a new file under a name that is free

const LETTERS: [u8; 62] = *b"abcdefghijklmnopqrstuvwxyzABCDEFGHIJKLMNOPQRSTUVWXYZ0123456789";

// How many names are tried.
const TRIES: u32 = 238328;

// The file's owner may read and write it, and nobody else.
fn open_new<D: Desk>(desk: &D, name: &[u8]) -> io::Result<D::File> {
    let mut options = OpenOptions::new();
    options.read(true);
    options.write(true);
    options.create_new(true);
    options.mode(0o600);
    options.open(desk, text_of(name)?)
}

fn draw_letters(desk: &impl Desk, ending: &mut [u8]) -> io::Result<()> {
    desk.fill_bytes(ending)?;
    for letter in ending.iter_mut() {
        *letter = LETTERS[(*letter % 62) as usize];
    }
    Ok(())
}

fn open_drawn<D: Desk>(desk: &D, name: &mut [u8]) -> io::Result<D::File> {
    let Some(start) = name.len().checked_sub(6) else {
        return Err(io::Error::from(ErrorKind::InvalidInput));
    };
    for _ in 0..TRIES {
        draw_letters(desk, &mut name[start..])?;
        match open_new(desk, name) {
            Err(e) if e.kind() == ErrorKind::AlreadyExists => {}
            opened => return opened,
        }
    }
    Err(io::Error::from(ErrorKind::AlreadyExists))
}

// The name ends in XXXXXX, for which letters are put that make it free. After an error it is as it was.
pub fn create_temp<D: Desk>(desk: &D, name: &mut [u8]) -> io::Result<D::File> {
    let opened = open_drawn(desk, name);
    if opened.is_err() {
        let start = name.len().saturating_sub(6);
        name[start..].fill(b'X');
    }
    opened
}
