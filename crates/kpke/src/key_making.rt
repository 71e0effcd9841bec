// K-PKE.KeyGen (FIPS 203, algorithm 13).
ghost use Rattle.std.specs.Prelude.{◌++◌, ◌≡◌, ◌+◌, ◌*◌, ◌<◌, length};
ghost use Rattle.codec.specs.Bytes.{byte_encode};
ghost use Rattle.transform.specs.Transform.{ntt as ntt_of};
ghost use Rattle.vectors.specs.Vector.{parts, concat};
ghost use Rattle.kpke.specs.KPke.{noise as noise_of, public_polynomial};
ghost use Rattle.kpke.specs.KeyMaking.{PkeKeysInput, PkeKeysRoom, PkeKeysWritten};
ghost use Rattle.kpke.specs.Expanded.{places_of};
ghost use Rattle.kpke.specs.Lent.{RowInput, EkInput};

use crate::noise::{noise, transformed_noise};
use parameters::Parameters;
use ring::add_to;
use slices::write_parts;
use transform::ntt;
use vectors::{dot, encode_all};

// Line 18 at row i, t-hat[i], for the matrix A-hat in a and the secret s-hat in s; e is row i of e-hat. A sum of
// transforms, where encryption's first_part transforms the product back: so their vectors are two definitions.
fn public_polynomial(
    a: &[u16],
    s: &[u16],
    sigma: &[u8],
    eta: u32,
    k: usize,
    i: usize,
    f: &mut [u16],
)
    requires { RowInput a.now s.now sigma.now eta k × (i < k) × (length f.old ≡ 256) }
    ensures { f.new
        ≡ public_polynomial
        k
        (places_of k a.now)
        (parts 256 s.now)
        (λ j. ntt_of (noise_of eta sigma.now (k + j)))
        i }
{
    let mut e = [0u16; 256];
    dot(a, k * i, 1, s, k, f);
    noise(sigma, eta, k + i, &mut e);
    ntt(&mut e);
    add_to(f, &e);
}

// Line 18, t-hat.
fn public_vector(a: &[u16], s: &[u16], sigma: &[u8], eta: u32, k: usize, t: &mut [u16])
    requires { RowInput a.now s.now sigma.now eta k × (length t.old ≡ 256 * k) }
    ensures { t.new
        ≡ concat
        k
        (public_polynomial
        k
        (places_of k a.now)
        (parts 256 s.now)
        (λ j. ntt_of (noise_of eta sigma.now (k + j)))) }
{
    write_parts(
        t,
        256,
        k,
        |i, f| public_polynomial(a, s, sigma, eta, k, i, f),
    );
}

// Line 19, ek: t-hat encoded, then rho.
fn write_ek(t: &[u16], rho: &[u8], k: usize, ek: &mut [u8])
    requires { EkInput t.now rho.now k ek.old }
    ensures { ek.new ≡ concat k (λ i. byte_encode 12 (parts 256 t.now i)) ++ rho.now }
{
    let n = 384 * k;
    encode_all(t, 12, k, &mut ek[0..n]);
    ek[n..].copy_from_slice(rho);
}

// Lines 8 to 20, for the matrix A-hat in a and line 1's rho and sigma; s becomes s-hat, t t-hat.
fn write_keys_in(
    p: Parameters,
    a: &[u16],
    rho: &[u8],
    sigma: &[u8],
    s: &mut [u16],
    t: &mut [u16],
    ek: &mut [u8],
    dk: &mut [u8],
)
    requires { PkeKeysInput p a.now rho.now sigma.now ek.old dk.old × PkeKeysRoom p s.old t.old }
    ensures { PkeKeysWritten p rho.now sigma.now ek.new dk.new }
{
    transformed_noise(sigma, p.eta1, p.k, s);
    public_vector(a, s, sigma, p.eta1, p.k, t);
    write_ek(t, rho, p.k, ek);
    encode_all(s, 12, p.k, dk);
}

// Lines 8 to 20, for the matrix A-hat in a and line 1's rho and sigma.
pub fn write_keys(p: Parameters, a: &[u16], rho: &[u8], sigma: &[u8], ek: &mut [u8], dk: &mut [u8])
    requires { PkeKeysInput p a.now rho.now sigma.now ek.old dk.old }
    ensures { PkeKeysWritten p rho.now sigma.now ek.new dk.new }
{
    // Rooms for the highest rank, as there is no heap.
    let mut s = [0u16; 1024];
    let mut t = [0u16; 1024];
    let n = 256 * p.k;
    write_keys_in(p, a, rho, sigma, &mut s[0..n], &mut t[0..n], ek, dk);
}
