// Key making: ML-KEM.KeyGen_internal (FIPS 203, algorithm 16), or Kyber's CCAKEM.KeyGen (algorithm 7).
#![tactic(auto)]

ghost use Rattle.std.specs.Prelude.{◌++◌, ◌≡◌, ◌+◌, length};
ghost use Rattle.fips202.specs.Sponge.{sha3_256};
ghost use Rattle.parameters.specs.Fits.{Fits};
ghost use Rattle.mlkem.specs.Calls.{KeysMade, KeysMadeBy};
ghost use Rattle.mlkem.specs.Sized.{KeyGenSized};
ghost use Rattle.mlkem_keygen.specs.Written.{KeyGenInput, KeysInput, KeysWritten};
ghost use Rattle.refusals.specs.Refusals.{number};

use hash_functions::hash_h;
use kpke::matrix::expand;
use mlkem::seeds;
use parameters::{Edition, Parameters, dk_bytes, ek_bytes, vector_bytes};
use refusals::{Answer, Refusal, exact};
use slices::copy_bytes;

// Algorithm 16, line 3, what follows K-PKE's key: ek || H(ek) || z.
fn write_rest(ek: &[u8], z: &[u8], rest: &mut [u8])
    requires { (length z.now ≡ 32) × (length rest.old ≡ length ek.now + 64) }
    ensures { rest.new ≡ ek.now ++ (sha3_256 ek.now ++ z.now) }
{
    let h = ek.len();
    let e = h + 32;
    copy_bytes(ek, &mut rest[0..h]);
    hash_h(ek, &mut rest[h..e]);
    copy_bytes(z, &mut rest[e..]);
}

// Algorithm 16, lines 1 to 3, for the matrix A-hat in a and the seeds rho || sigma in g that K-PKE's keys come from.
fn write_keys(p: Parameters, a: &[u16], g: &[u8], z: &[u8], ek: &mut [u8], dk: &mut [u8])
    requires { KeysInput p a.now g.now z.now ek.old dk.old }
    ensures { KeysWritten p g.now z.now ek.new dk.new }
{
    let n = vector_bytes(p);
    kpke::key_making::write_keys(p, a, &g[0..32], &g[32..], ek, &mut dk[0..n]);
    write_rest(ek, z, &mut dk[n..]);
}

// Row 1 passed; a becomes the matrix A-hat.
fn keygen_in(
    e: Edition,
    p: Parameters,
    d: &[u8],
    z: &[u8],
    a: &mut [u16],
    ek: &mut [u8],
    dk: &mut [u8],
) -> Answer
    requires { KeyGenInput p d.now z.now a.old ek.old dk.old }
    ensures { KeysMade
        e
        p
        d.now
        z.now
        ek.old
        dk.old
        (number result)
        ek.new
        dk.new }
{
    let mut g = [0u8; 64];
    seeds(e, p, d, &mut g);
    expand(&g[0..32], p.k, a)?;
    write_keys(p, a, &g, z, ek, dk);
    Ok(())
}

// Row 1 passed. Encapsulation's encaps_sized makes the same room, for another call with other contracts.
fn keygen_sized(
    e: Edition,
    p: Parameters,
    d: &[u8],
    z: &[u8],
    ek: &mut [u8],
    dk: &mut [u8],
) -> Answer
    requires { Fits p × KeyGenSized p d.now z.now ek.old dk.old }
    ensures { KeysMade
        e
        p
        d.now
        z.now
        ek.old
        dk.old
        (number result)
        ek.new
        dk.new }
{
    // Room for the highest rank, as there is no heap.
    let mut a = [0u16; 4096];
    let n = 256 * p.k * p.k;
    keygen_in(e, p, d, z, &mut a[0..n], ek, dk)
}

// For a parameter set.
fn keygen_at(e: Edition, p: Parameters, d: &[u8], z: &[u8], ek: &mut [u8], dk: &mut [u8]) -> Answer
    requires { Fits p }
    ensures { KeysMade
        e
        p
        d.now
        z.now
        ek.old
        dk.old
        (number result)
        ek.new
        dk.new }
{
    let has = [d.len(), z.len(), ek.len(), dk.len()];
    let wants = [32, 32, ek_bytes(p), dk_bytes(p)];
    if !exact(&has, &wants) {
        return Err(Refusal::WrongLength);
    }
    keygen_sized(e, p, d, z, ek, dk)
}

// For the parameter set of a rank.
pub fn keygen(e: Edition, rank: u32, d: &[u8], z: &[u8], ek: &mut [u8], dk: &mut [u8]) -> Answer
    ensures { KeysMadeBy
        e
        rank
        d.now
        z.now
        ek.old
        dk.old
        (number result)
        ek.new
        dk.new }
{
    keygen_at(e, Parameters::try_from(rank)?, d, z, ek, dk)
}
