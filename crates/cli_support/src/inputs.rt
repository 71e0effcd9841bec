// Files, read whole. A file is named by the number of its argument. Where reading fails a line says why.
ghost use Rattle.std.specs.Prelude.{◌≤◌, IfOk, length};

use crate::arguments::path_at;
use crate::desk::Desk;
use crate::files::open_read;
use crate::messages;
use crate::messages::Told;
use std::io::Read;

// Until out is full, the file ends or reading fails. How many bytes were read: a read gives as many as it likes.
fn read_full(file: &mut impl Read, out: &mut [u8]) -> usize
    ensures { result ≤ length out.new }
{
    let mut done: usize = 0;
    while done < out.len() {
        match file.read(&mut out[done..]) {
            Ok(0) => break,
            Ok(n) => done += n,
            Err(_) => break,
        }
    }
    done
}

fn read_path(desk: &impl Desk, path: &[u8], out: &mut [u8]) -> Result<usize, Told>
    ensures { IfOk result (λ n. n ≤ length out.new) }
{
    let mut file = open_read(desk, path).map_err(|e| messages::failed(desk, path, e))?;
    let count = read_full(&mut file, out);
    let mut next = [0u8; 1];
    match file.read(&mut next) {
        Ok(0) => Ok(count),
        Ok(_) => Err(messages::longer(desk, path, out.len())),
        Err(e) => Err(messages::failed(desk, path, e)),
    }
}

// A file of at most out's length, into its start. How many bytes it has.
pub fn read_up_to(desk: &impl Desk, i: usize, out: &mut [u8]) -> Result<usize, Told>
    ensures { IfOk result (λ n. n ≤ length out.new) }
{
    let path = path_at(desk, i)?;
    read_path(desk, path.bytes(), out)
}

// A file of exactly out's length.
pub fn read_exact(desk: &impl Desk, i: usize, out: &mut [u8]) -> Result<(), Told> {
    let path = path_at(desk, i)?;
    let count = read_path(desk, path.bytes(), out)?;
    if count != out.len() {
        return Err(messages::shorter(desk, path.bytes(), count, out.len()));
    }
    Ok(())
}
