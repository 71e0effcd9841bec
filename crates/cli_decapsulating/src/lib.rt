// Masked decapsulation and its trace on files, commands of the program mlkem.
#![tactic(auto)]

use crate::reading::Inputs;
use cli_support::arguments;
use cli_support::arguments::{Path, path_at};
use cli_support::desk::Desk;
use cli_support::messages::{Told, failed};
use cli_support::outputs::{differ_at, give_up, open_secret, put};
use cli_support::sets::Sizes;
use cli_support::split_file::SplitKey;
use cli_support::split_packing::pack_words;
use cli_support::strip_file::Strip;

pub mod calls; // the calls, on a split key
mod reading; // what they are given, from files

// The shares of K as bytes. The split key is replaced by one with the raised count.
fn counted_shares(
    desk: &impl Desk,
    key: &mut SplitKey,
    ct: &[u8],
    strip: &Strip,
) -> Result<[u8; 64], Told> {
    let shares = calls::decaps(desk, key, ct, strip)?;
    key.replace(desk, 3)?;
    let mut bytes = [0u8; 64];
    pack_words(&shares.k0, &shares.k1, &mut bytes);
    Ok(bytes)
}

// The file of the shares is opened first and written last: a split key is used only where they can be handed out, and
// they are handed out only where its use is counted.
fn write_shares(
    desk: &impl Desk,
    path: &Path,
    key: &mut SplitKey,
    ct: &[u8],
    strip: &Strip,
) -> Result<(), Told> {
    let output = open_secret(desk, path)?;
    match counted_shares(desk, key, ct, strip) {
        Ok(shares) => put(desk, output, &shares),
        Err(told) => {
            give_up(desk, output);
            Err(told)
        }
    }
}

// mlkem decaps SET SPLIT CT STRIP SHARES
#[inline(never)] // so that its rooms are on no other command's stack
pub fn decaps(desk: &impl Desk, set: Sizes) -> Result<(), Told> {
    differ_at(desk, 3, 6)?;
    let mut strip = Strip::zeros(set);
    let Inputs { mut key, ct } = Inputs::read(desk, set, &mut strip)?;
    let path = path_at(desk, 6)?;
    write_shares(desk, &path, &mut key, &ct[..set.ct], &strip)
}

// mlkem trace SET SPLIT CT STRIP STEP
#[inline(never)] // as decaps
pub fn trace(desk: &impl Desk, set: Sizes) -> Result<(), Told> {
    let step = arguments::number(desk, 6, u64::MAX)?;
    let mut strip = Strip::zeros(set);
    let Inputs { key, ct } = Inputs::read(desk, set, &mut strip)?;
    let value = calls::trace(desk, &key, &ct[..set.ct], &strip, step)?;
    let _ = desk.print(value);
    desk.write_all(b"\n")
        .map_err(|e| failed(desk, b"standard output", e))
}
