// Keys are made, a secret is encapsulated, and the decapsulation key is split.
ghost use Rattle.std.specs.Prelude.{◌≡◌, ◌≤◌, length};

use crate::drawing::Drawn;
use crate::splits::run_split;
use cli_demo_uses::lines::{print_bytes, print_start};
use cli_support::answers::told;
use cli_support::desk::Desk;
use cli_support::messages::Told;
use cli_support::sets::Sizes;

fn print_encapsulated(desk: &impl Desk, ek: &[u8], dk: &[u8], ct: &[u8], secret: &[u8])
    requires { (16 ≤ length ek.now) × (16 ≤ length dk.now) × (16 ≤ length ct.now) }
{
    print_start(desk, b"public key", ek);
    print_start(desk, b"decapsulation key", dk);
    print_start(desk, b"ciphertext", ct);
    print_bytes(desk, b"encapsulation's K: ", secret);
}

// The secret. The seeds are d, z and m.
fn encapsulate(
    desk: &impl Desk,
    set: Sizes,
    seeds: &[u8; 96],
    dk: &mut [u8],
    ct: &mut [u8],
) -> Result<[u8; 32], Told>
    requires { (length dk.old ≡ set.dk) × (length ct.old ≡ set.ct) }
{
    let e = set.edition;
    // Room for the largest set, as there is no heap.
    let mut ek = [0u8; 1568];
    let mut secret = [0u8; 32];
    let ek: &mut [u8] = &mut ek[..set.ek];
    let made = mlkem_keygen::keygen(e, set.rank(), &seeds[..32], &seeds[32..64], ek, dk);
    told(desk, made)?;
    let encapsulated = mlkem_encaps::encaps(e, set.rank(), ek, &seeds[64..], ct, &mut secret);
    told(desk, encapsulated)?;
    print_encapsulated(desk, ek, dk, ct, &secret);
    Ok(secret)
}

pub fn run_key(desk: &impl Desk, set: Sizes, drawn: &Drawn) -> Result<(), Told> {
    // Rooms for the largest set, as there is no heap.
    let mut dk = [0u8; 3168];
    let mut ct = [0u8; 1568];
    let dk: &mut [u8] = &mut dk[..set.dk];
    let ct: &mut [u8] = &mut ct[..set.ct];
    let secret = encapsulate(desk, set, &drawn.seeds, dk, ct)?;
    run_split(desk, set, drawn, dk, ct, &secret)
}
