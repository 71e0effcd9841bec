// A split key is made and used, and used again with fresh shares.
ghost use Rattle.std.specs.Prelude.{◌<◌, length};

use crate::drawing::Drawn;
use cli_demo_uses::lines::print_uses;
use cli_demo_uses::uses::{decapsulate, run_ciphertexts};
use cli_splitting::calls;
use cli_support::desk::Desk;
use cli_support::messages::Told;
use cli_support::sets::Sizes;
use cli_support::split_file::SplitKey;
use text::print;

// The use limit.
const LIMIT: u32 = 3;

// Decapsulation of the ciphertext with fresh shares.
fn run_refreshed(
    desk: &impl Desk,
    key: SplitKey,
    drawn: &Drawn,
    ct: &[u8],
    secret: &[u8],
) -> Result<(), Told> {
    print_uses(desk, key.count, key.limit);
    let mut key = calls::refresh(desk, key, &drawn.fresh)?;
    print(desk, b"refreshed\n");
    print_uses(desk, key.count, key.limit);
    print(desk, b"decapsulation, with the fresh shares\n");
    decapsulate(desk, &mut key, ct, &drawn.strip, secret)
}

// First with the shares that import makes, then with fresh ones, though a call before was refused.
pub fn run_split(
    desk: &impl Desk,
    set: Sizes,
    drawn: &Drawn,
    dk: &[u8],
    ct: &mut [u8],
    secret: &[u8],
) -> Result<(), Told>
    requires { 0 < length ct.old }
{
    let mut key = calls::import(desk, set, dk, &drawn.masks, LIMIT)?;
    let first = run_ciphertexts(desk, &mut key, ct, &drawn.strip, secret);
    let fresh = run_refreshed(desk, key, drawn, ct, secret);
    first.and(fresh)
}
