// A run of the calls on fixed values: a key is made, split and used, with a right ciphertext and a wrong one, and used
// again when its shares are refreshed.
#![tactic(auto)]

ghost use Rattle.std.specs.Prelude.{◌≡◌, length};
ghost use Rattle.cli_demo.specs.Lent.{drawn};

use crate::drawing::Drawn;
use crate::keys::run_key;
use cli_support::desk::Desk;
use cli_support::messages::{Told, failed};
use cli_support::sets::Sizes;
use text::print;

mod drawing; // what the calls are lent
mod keys; // keys and encapsulation
mod splits; // import and refreshing

fn show(desk: &impl Desk, set: Sizes, draws: &mut [u8]) -> Result<(), Told>
    requires { length draws.old ≡ drawn set }
{
    fips202::shake256(b"mlkem demo", draws);
    print(
        desk,
        b"Seeds and masks are SHAKE256 of 'mlkem demo', known to all: ",
    );
    print(desk, b"for demonstration, not for use.\n");
    if let Err(told) = run_key(desk, set, &Drawn::of_bytes(set, draws)) {
        print(desk, b"not done: a call was refused\n");
        return Err(told);
    }
    desk.write_all(b"done\n")
        .map_err(|e| failed(desk, b"standard output", e))
}

// Of the largest set.
fn room() -> [u8; 144736]
    ensures { 144736 ≡ length result }
{
    [0; 144736]
}

// mlkem demo SET
#[inline(never)] // so that its rooms are on no other command's stack
pub fn demo(desk: &impl Desk, set: Sizes) -> Result<(), Told> {
    let mut draws = room();
    let n = 1024 * set.k + 160 + (8 * set.words + 2 * set.coeffs);
    show(desk, set, &mut draws[..n])
}
