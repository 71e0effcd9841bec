// A file of secrets, replaced by a new one, which is written beside it, its owner's alone, and then takes its name: at
// any time one of the two is there whole. Where something fails a line says why, and the old file is as it was. A link
// is replaced itself, and what it names stays.
ghost use Rattle.std.specs.Prelude.{◌≡◌, ◌+◌, length};

use crate::arguments::path_at;
use crate::desk::Desk;
use crate::files::{create_temp, rename, unlink};
use crate::messages;
use crate::messages::Told;
use std::fs::OpenFile;
use std::io;
use std::io::Write;

// The path, and what create_temp makes a name of that is free.
fn name_beside(path: &[u8], name: &mut [u8])
    requires { length name.old ≡ length path.now + 7 }
{
    let (start, ending) = name.split_at_mut(path.len());
    start.copy_from_slice(path);
    ending.copy_from_slice(b".XXXXXX");
}

// On the device, not only on the way to it. What is stored is closed with no error.
fn store(mut file: impl Write + OpenFile + Drop, bytes: &[u8]) -> io::Result<()> {
    file.write_all(bytes)?;
    file.sync_all()
}

fn replace_by<D: Desk>(
    desk: &D,
    file: D::File,
    path: &[u8],
    name: &[u8],
    bytes: &[u8],
) -> Result<(), Told> {
    store(file, bytes).map_err(|e| messages::failed(desk, name, e))?;
    rename(desk, name, path).map_err(|e| messages::failed(desk, path, e))
}

fn replace(desk: &impl Desk, path: &[u8], name: &mut [u8], bytes: &[u8]) -> Result<(), Told> {
    let file = create_temp(desk, name).map_err(|e| messages::failed(desk, name, e))?;
    let replaced = replace_by(desk, file, path, name, bytes);
    if replaced.is_err() {
        let _ = unlink(desk, name);
    }
    replaced
}

// The file that argument i names.
pub fn replace_secret(desk: &impl Desk, i: usize, bytes: &[u8]) -> Result<(), Told> {
    let path = path_at(desk, i)?;
    let path = path.bytes();
    // Room for the longest path and the ending, as there is no heap.
    let mut room = [0u8; 4103];
    let n = path.len() + 7;
    let name: &mut [u8] = &mut room[..n];
    name_beside(path, name);
    replace(desk, path, name, bytes)
}
