// Import and refreshing on files, commands of the program mlkem.
#![tactic(auto)]

use cli_support::arguments;
use cli_support::desk::Desk;
use cli_support::inputs::read_exact;
use cli_support::mask_file::Masks;
use cli_support::messages::Told;
use cli_support::sets::Sizes;
use cli_support::split_file::SplitKey;

pub mod calls; // the calls, on a split key

// mlkem import SET DK MASKS LIMIT SPLIT
pub fn import(desk: &impl Desk, set: Sizes) -> Result<(), Told> {
    let limit = arguments::number(desk, 5, u32::MAX as u64)? as u32;
    // Room for the largest set, as there is no heap.
    let mut dk = [0u8; 3168];
    let dk: &mut [u8] = &mut dk[..set.dk];
    let mut masks = Masks::zeros(set);
    read_exact(desk, 3, dk)?;
    masks.read(desk, 4)?;
    let key = calls::import(desk, set, dk, &masks, limit)?;
    key.write(desk, 6)
}

// mlkem refresh SET MASKS SPLIT
pub fn refresh(desk: &impl Desk, set: Sizes) -> Result<(), Told> {
    let mut masks = Masks::zeros(set);
    masks.read(desk, 3)?;
    let key = SplitKey::read(desk, 4, set)?;
    let key = calls::refresh(desk, key, &masks)?;
    key.replace(desk, 4)
}
