// Files, written whole. A file is named by the number of its argument. Where writing fails a line says why.
//
// Both of two outputs are opened before one is emptied: where one can't be opened the other stays as it was.
// A new file of secrets is its owner's alone.
use crate::arguments::{Path, path_at};
use crate::desk::Desk;
use crate::files::{open_append, open_overwrite, unlink};
use crate::messages;
use crate::messages::Told;
use std::fs::{OpenFile, Permissions};
use std::io;
use std::io::{ErrorKind, Write};
use std::os::unix::fs::PermissionsExt;

// A file that is open, and whether it was made.
#[derive(Drop)]
pub struct Output<'a, F> {
    path: &'a [u8],
    file: F,
    made: bool,
}

fn open_or_make<'a, D: Desk>(desk: &D, path: &'a [u8]) -> io::Result<Output<'a, D::File>> {
    match open_append(desk, path) {
        Ok(file) => Ok(Output {
            path,
            file,
            made: false,
        }),
        Err(e) if e.kind() == ErrorKind::NotFound => Ok(Output {
            path,
            file: open_overwrite(desk, path)?,
            made: true,
        }),
        Err(e) => Err(e),
    }
}

fn open<'a, D: Desk>(desk: &D, path: &'a [u8]) -> Result<Output<'a, D::File>, Told> {
    open_or_make(desk, path).map_err(|e| messages::failed(desk, path, e))
}

// A file of secrets. It may be opened before it is known whether it will be written.
pub fn open_secret<'a, D: Desk>(desk: &D, path: &'a Path) -> Result<Output<'a, D::File>, Told> {
    let output = open(desk, path.bytes())?;
    if output.made {
        let _ = output.file.set_permissions(Permissions::from_mode(0o600));
    }
    Ok(output)
}

// Closes what nothing was written to; a file that was made is removed.
pub fn give_up<D: Desk>(desk: &D, output: Output<'_, D::File>) {
    let Output { path, file, made } = output;
    drop(file);
    if made {
        let _ = unlink(desk, path);
    }
}

// Only a regular file can be emptied; of any other the call answers that its input is invalid.
fn empty(file: &impl OpenFile) -> io::Result<()> {
    match file.set_len(0) {
        Err(e) if e.kind() == ErrorKind::InvalidInput => Ok(()),
        emptied => emptied,
    }
}

// A file is closed where it is let go, which says nothing of what fails then: so it is brought onto the device before.
// What can't be, such as a pipe, answers that its input is invalid or that it can't be written.
fn sync(file: &impl OpenFile) -> io::Result<()> {
    match file.sync_all() {
        Err(e) if e.kind() == ErrorKind::InvalidInput => Ok(()),
        Err(e) if e.kind() == ErrorKind::ReadOnlyFilesystem => Ok(()),
        synced => synced,
    }
}

fn fill(mut file: impl Write + OpenFile + Drop, bytes: &[u8]) -> io::Result<()> {
    empty(&file)?;
    file.write_all(bytes)?;
    sync(&file)
}

pub fn put<D: Desk>(desk: &D, output: Output<'_, D::File>, bytes: &[u8]) -> Result<(), Told> {
    let path = output.path;
    fill(output.file, bytes).map_err(|e| messages::failed(desk, path, e))
}

pub fn write_public(desk: &impl Desk, i: usize, bytes: &[u8]) -> Result<(), Told> {
    let path = path_at(desk, i)?;
    put(desk, open(desk, path.bytes())?, bytes)
}

pub fn write_secret(desk: &impl Desk, i: usize, bytes: &[u8]) -> Result<(), Told> {
    let path = path_at(desk, i)?;
    put(desk, open_secret(desk, &path)?, bytes)
}

// Two outputs don't have one name.
fn differ(desk: &impl Desk, p: &Path, q: &Path) -> Result<(), Told> {
    if p.bytes() == q.bytes() {
        return Err(messages::same_name(desk, p.bytes()));
    }
    Ok(())
}

// Nor do those that arguments i and j name.
pub fn differ_at(desk: &impl Desk, i: usize, j: usize) -> Result<(), Told> {
    differ(desk, &Path::at(desk, i), &Path::at(desk, j))
}

fn write_paths(
    desk: &impl Desk,
    p: &Path,
    public: &[u8],
    q: &Path,
    secret: &[u8],
) -> Result<(), Told> {
    differ(desk, p, q)?;
    let first = open(desk, p.bytes())?;
    let second = match open_secret(desk, q) {
        Ok(output) => output,
        Err(told) => {
            give_up(desk, first);
            return Err(told);
        }
    };
    if let Err(told) = put(desk, first, public) {
        give_up(desk, second);
        return Err(told);
    }
    put(desk, second, secret)
}

pub fn write_pair(
    desk: &impl Desk,
    i: usize,
    public: &[u8],
    j: usize,
    secret: &[u8],
) -> Result<(), Told> {
    let p = path_at(desk, i)?;
    let q = path_at(desk, j)?;
    write_paths(desk, &p, public, &q, secret)
}
