// What decapsulation and trace are given, from files.
use cli_support::desk::Desk;
use cli_support::inputs::read_exact;
use cli_support::messages::Told;
use cli_support::sets::Sizes;
use cli_support::split_file::SplitKey;
use cli_support::strip_file::Strip;

// The ciphertext is in room for the largest set's. The strip, far larger than both, is read where it lies.
#[derive(Drop)]
pub struct Inputs {
    pub key: SplitKey,
    pub ct: [u8; 1568],
}

impl Inputs {
    // The files of arguments 3 and 4, and that of argument 5 into the strip.
    pub fn read(desk: &impl Desk, set: Sizes, strip: &mut Strip) -> Result<Self, Told> {
        let key = SplitKey::read(desk, 3, set)?;
        // Room for the largest set, as there is no heap.
        let mut ct = [0u8; 1568];
        read_exact(desk, 4, &mut ct[..set.ct])?;
        strip.read(desk, 5)?;
        Ok(Inputs { key, ct })
    }
}
