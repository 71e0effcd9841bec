// Sampling on files.
use buffers::little_endian::put_coefficients;
use cli_support::answers::told;
use cli_support::desk::Desk;
use cli_support::inputs::read_exact;
use cli_support::messages::Told;
use cli_support::outputs::write_public;

// mlkem sample STREAM OUT
pub fn sample(desk: &impl Desk) -> Result<(), Told> {
    let mut stream = [0u8; 840];
    let mut f = [0u16; 256];
    let mut bytes = [0u8; 512];
    read_exact(desk, 2, &mut stream)?;
    told(desk, mlkem::sample(&stream, &mut f))?;
    put_coefficients(&f, &mut bytes);
    write_public(desk, 3, &bytes)
}
