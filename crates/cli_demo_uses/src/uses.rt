// Calls on a split key: decapsulation of a ciphertext and of a damaged one, and traces. A call is made though one
// before it was refused.
ghost use Rattle.std.specs.Prelude.{◌<◌, length};

use crate::lines::{print_bytes, print_step};
use buffers::little_endian::put_words;
use buffers::values::xor_words;
use cli_decapsulating::calls;
use cli_decapsulating::calls::Shares;
use cli_support::desk::Desk;
use cli_support::messages::Told;
use cli_support::split_file::SplitKey;
use cli_support::strip_file::Strip;
use text::print;

// The shares of K, what they join to, and whether that is the secret of encapsulation.
fn print_secret(desk: &impl Desk, shares: &Shares, secret: &[u8]) {
    let mut k = [0u64; 4];
    let mut bytes = [0u8; 32];
    put_words(&shares.k0, &mut bytes);
    print_bytes(desk, b"  share 0 of K: ", &bytes);
    put_words(&shares.k1, &mut bytes);
    print_bytes(desk, b"  share 1 of K: ", &bytes);
    xor_words(&shares.k0, &shares.k1, &mut k);
    put_words(&k, &mut bytes);
    print_bytes(desk, b"  their xor:    ", &bytes);
    if bytes.as_slice() == secret {
        print(desk, b"  equal to encapsulation's K\n");
    } else {
        print(desk, b"  not equal to encapsulation's K\n");
    }
}

pub fn decapsulate(
    desk: &impl Desk,
    key: &mut SplitKey,
    ct: &[u8],
    strip: &Strip,
    secret: &[u8],
) -> Result<(), Told> {
    let shares = calls::decaps(desk, key, ct, strip)?;
    print_secret(desk, &shares, secret);
    Ok(())
}

// The ciphertext's first bit is changed, and changed back.
fn decapsulate_damaged(
    desk: &impl Desk,
    key: &mut SplitKey,
    ct: &mut [u8],
    strip: &Strip,
    secret: &[u8],
) -> Result<(), Told>
    requires { 0 < length ct.old }
{
    ct[0] ^= 1;
    let done = decapsulate(desk, key, ct, strip, secret);
    ct[0] ^= 1;
    done
}

fn trace(
    desk: &impl Desk,
    key: &SplitKey,
    ct: &[u8],
    strip: &Strip,
    step: u64,
) -> Result<(), Told> {
    let value = calls::trace(desk, key, ct, strip, step)?;
    print_step(desk, step, value);
    Ok(())
}

// Three steps of the decapsulation of the ciphertext.
fn run_traces(desk: &impl Desk, key: &SplitKey, ct: &[u8], strip: &Strip) -> Result<(), Told> {
    print(desk, b"trace of the first decapsulation\n");
    let first = trace(desk, key, ct, strip, 0);
    let second = trace(desk, key, ct, strip, 256);
    let last = trace(desk, key, ct, strip, key.set.steps - 1);
    first.and(second).and(last)
}

// The ciphertext and a damaged one.
fn decapsulate_both(
    desk: &impl Desk,
    key: &mut SplitKey,
    ct: &mut [u8],
    strip: &Strip,
    secret: &[u8],
) -> Result<(), Told>
    requires { 0 < length ct.old }
{
    print(desk, b"decapsulation\n");
    let own = decapsulate(desk, key, ct, strip, secret);
    print(desk, b"decapsulation, the ciphertext's first bit changed\n");
    let other = decapsulate_damaged(desk, key, ct, strip, secret);
    own.and(other)
}

// Both, and steps of the first.
pub fn run_ciphertexts(
    desk: &impl Desk,
    key: &mut SplitKey,
    ct: &mut [u8],
    strip: &Strip,
    secret: &[u8],
) -> Result<(), Told>
    requires { 0 < length ct.old }
{
    let both = decapsulate_both(desk, key, ct, strip, secret);
    let traced = run_traces(desk, key, ct, strip);
    both.and(traced)
}
