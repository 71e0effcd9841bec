// Key making and encapsulation on files.
use cli_support::answers::told;
use cli_support::desk::Desk;
use cli_support::inputs::read_exact;
use cli_support::messages::Told;
use cli_support::outputs::write_pair;
use cli_support::sets::Sizes;

// mlkem keygen SET D Z EK DK
pub fn keygen(desk: &impl Desk, set: Sizes) -> Result<(), Told> {
    let mut d = [0u8; 32];
    let mut z = [0u8; 32];
    read_exact(desk, 3, &mut d)?;
    read_exact(desk, 4, &mut z)?;
    // Rooms for the largest set, as there is no heap.
    let mut ek = [0u8; 1568];
    let mut dk = [0u8; 3168];
    let ek: &mut [u8] = &mut ek[..set.ek];
    let dk: &mut [u8] = &mut dk[..set.dk];
    let answer = mlkem_keygen::keygen(set.edition, set.rank(), &d, &z, ek, dk);
    told(desk, answer)?;
    write_pair(desk, 5, ek, 6, dk)
}

// mlkem encaps SET EK M CT K
pub fn encaps(desk: &impl Desk, set: Sizes) -> Result<(), Told> {
    // Room for the largest set, as there is no heap.
    let mut ek = [0u8; 1568];
    let mut m = [0u8; 32];
    let ek: &mut [u8] = &mut ek[..set.ek];
    read_exact(desk, 3, ek)?;
    read_exact(desk, 4, &mut m)?;
    // Room for the largest set, as there is no heap.
    let mut ct = [0u8; 1568];
    let mut k = [0u8; 32];
    let ct: &mut [u8] = &mut ct[..set.ct];
    let answer = mlkem_encaps::encaps(set.edition, set.rank(), ek, &m, ct, &mut k);
    told(desk, answer)?;
    write_pair(desk, 5, ct, 6, &k)
}
