// Encapsulation: ML-KEM.Encaps_internal (FIPS 203, algorithm 17), or Kyber's CCAKEM.Enc (algorithm 8).
#![tactic(auto)]

ghost use Rattle.std.specs.Prelude.{◌≡◌, ◌*◌, ◌≤◌, length};
ghost use Rattle.parameters.specs.declared.Edition.TheVariants.{MlKem, Kyber};
ghost use Rattle.parameters.specs.Fits.{Fits};
ghost use Rattle.vectors.specs.Vector.{coefficients};
ghost use Rattle.mlkem.specs.Calls.{Encapsulated, EncapsulatedBy};
ghost use Rattle.mlkem.specs.Sized.{EncapsSized};
ghost use Rattle.mlkem_encaps.specs.Written.{EncapsInput, SecretInput, SecretWritten};
ghost use Rattle.refusals.specs.Reduced.{reduced as reduced_of};
ghost use Rattle.refusals.specs.Refusals.{number};

use hash_functions::{hash_g, hash_h, hash_kdf};
use kpke::encrypt::encrypt;
use kpke::matrix::expand;
use parameters::{Edition, Parameters, ct_bytes, ek_bytes, vector_bytes};
use refusals::conditions::reduced;
use refusals::{Answer, Refusal, exact};
use vectors::decode_all;

// FIPS 203, section 7.2, the modulus check: each coefficient of an encoded vector is below q. They go to t,
// which is room: the answer is the test's, and says nothing of whether t was written.
fn vector_reduced_in(b: &[u8], k: usize, t: &mut [u16]) -> bool
    requires { (length b.now ≡ 384 * k) × (length t.old ≡ 256 * k) }
    ensures { result ≡ reduced_of (coefficients k b.now) }
{
    decode_all(b, k, t);
    reduced(t)
}

// The same, for a rank of at most 4.
fn vector_reduced(b: &[u8], k: usize) -> bool
    requires { (k ≤ 4) × (length b.now ≡ 384 * k) }
    ensures { result ≡ reduced_of (coefficients k b.now) }
{
    // Room for the highest rank, as there is no heap.
    let mut t = [0u16; 1024];
    let n = 256 * k;
    vector_reduced_in(b, k, &mut t[0..n])
}

// FIPS 203, algorithm 17, lines 1 and 2, for the matrix A-hat in a: K and the coins r are the halves of g.
fn write_mlkem(p: Parameters, a: &[u16], ek: &[u8], m: &[u8], ct: &mut [u8], k: &mut [u8])
    requires { SecretInput p a.now ek.now m.now ct.old k.old }
    ensures { SecretWritten p MlKem ek.now m.now ct.new k.new }
{
    let mut h = [0u8; 32];
    let mut g = [0u8; 64];
    hash_h(ek, &mut h);
    hash_g(m, &h, &mut g);
    k.copy_from_slice(&g[0..32]);
    encrypt(p, a, ek, m, &g[32..], ct);
}

// Kyber, algorithm 8, lines 2 to 5: FIPS 203's lines for the hashed m, whose K is hashed with the ciphertext's hash.
fn write_kyber(p: Parameters, a: &[u16], ek: &[u8], m: &[u8], ct: &mut [u8], k: &mut [u8])
    requires { SecretInput p a.now ek.now m.now ct.old k.old }
    ensures { SecretWritten p Kyber ek.now m.now ct.new k.new }
{
    let mut hashed = [0u8; 32];
    let mut first = [0u8; 32];
    hash_h(m, &mut hashed);
    write_mlkem(p, a, ek, &hashed, ct, &mut first);
    hash_kdf(&first, ct, k);
}

// By the edition.
fn write_secret(
    e: Edition,
    p: Parameters,
    a: &[u16],
    ek: &[u8],
    m: &[u8],
    ct: &mut [u8],
    k: &mut [u8],
)
    requires { SecretInput p a.now ek.now m.now ct.old k.old }
    ensures { SecretWritten p e ek.now m.now ct.new k.new }
{
    match e {
        Edition::MlKem => write_mlkem(p, a, ek, m, ct, k),
        Edition::Kyber => write_kyber(p, a, ek, m, ct, k),
    }
}

// Row 1 passed; a becomes the matrix A-hat.
fn encaps_in(
    e: Edition,
    p: Parameters,
    ek: &[u8],
    m: &[u8],
    a: &mut [u16],
    ct: &mut [u8],
    k: &mut [u8],
) -> Answer
    requires { EncapsInput p ek.now m.now a.old ct.old k.old }
    ensures { Encapsulated
        e
        p
        ek.now
        m.now
        ct.old
        k.old
        (number result)
        ct.new
        k.new }
{
    let n = vector_bytes(p);
    if !vector_reduced(&ek[0..n], p.k) {
        return Err(Refusal::PublicKeyRange);
    }
    expand(&ek[n..], p.k, a)?;
    write_secret(e, p, a, ek, m, ct, k);
    Ok(())
}

// Row 1 passed. Key making's keygen_sized makes the same room, for another call with other contracts. Not inlined, so
// that a call that is refused before doesn't have the room.
#[inline(never)]
fn encaps_sized(
    e: Edition,
    p: Parameters,
    ek: &[u8],
    m: &[u8],
    ct: &mut [u8],
    k: &mut [u8],
) -> Answer
    requires { Fits p × EncapsSized p ek.now m.now ct.old k.old }
    ensures { Encapsulated
        e
        p
        ek.now
        m.now
        ct.old
        k.old
        (number result)
        ct.new
        k.new }
{
    // Room for the highest rank, as there is no heap.
    let mut a = [0u16; 4096];
    let n = 256 * p.k * p.k;
    encaps_in(e, p, ek, m, &mut a[0..n], ct, k)
}

// For a parameter set, with the modulus check of FIPS 203's section 7.2.
fn encaps_at(e: Edition, p: Parameters, ek: &[u8], m: &[u8], ct: &mut [u8], k: &mut [u8]) -> Answer
    requires { Fits p }
    ensures { Encapsulated
        e
        p
        ek.now
        m.now
        ct.old
        k.old
        (number result)
        ct.new
        k.new }
{
    let has = [ek.len(), m.len(), ct.len(), k.len()];
    let wants = [ek_bytes(p), 32, ct_bytes(p), 32];
    if !exact(&has, &wants) {
        return Err(Refusal::WrongLength);
    }
    encaps_sized(e, p, ek, m, ct, k)
}

// For the parameter set of a rank.
pub fn encaps(e: Edition, rank: u32, ek: &[u8], m: &[u8], ct: &mut [u8], k: &mut [u8]) -> Answer
    ensures { EncapsulatedBy
        e
        rank
        ek.now
        m.now
        ct.old
        k.old
        (number result)
        ct.new
        k.new }
{
    encaps_at(e, Parameters::try_from(rank)?, ek, m, ct, k)
}
