// K-PKE.Encrypt (FIPS 203, algorithm 14): u is the vector of the first parts, v the second part.
ghost use Rattle.std.specs.Prelude.{◌++◌, map, ◌≡◌, ◌+◌, ◌*◌, ◌<◌, length};
ghost use Rattle.codec.specs.Bytes.{byte_encode, byte_decode};
ghost use Rattle.codec.specs.Compress.{compress, decompress};
ghost use Rattle.vectors.specs.Vector.{parts, concat};
ghost use Rattle.kpke.specs.KPke.{first_part, second_part, encrypt as encrypt_of};
ghost use Rattle.kpke.specs.Expanded.{places_of};
ghost use Rattle.kpke.specs.Lent.{RowInput, SecondInput, CiphertextInput, EncryptInput, EncryptRoom};

use crate::noise::{noise, transformed_noise};
use codec::{byte_decode, byte_encode, compress_all, decompress_all};
use parameters::{Parameters, vector_bytes};
use ring::add_to;
use slices::write_parts;
use transform::inverse_ntt;
use vectors::{decode12_all, dot, encode_all};

// Line 19 at row i, u[i], for the matrix A-hat in a, the vector y-hat in y and the coins r.
fn first_part(a: &[u16], y: &[u16], r: &[u8], eta: u32, k: usize, i: usize, f: &mut [u16])
    requires { RowInput a.now y.now r.now eta k × (i < k) × (length f.old ≡ 256) }
    ensures { f.new
        ≡ first_part k eta (places_of k a.now) (parts 256 y.now) r.now i }
{
    let mut e1 = [0u16; 256];
    dot(a, i, k, y, k, f);
    inverse_ntt(f);
    noise(r, eta, k + i, &mut e1);
    add_to(f, &e1);
}

// Line 19, u.
fn first_parts(a: &[u16], y: &[u16], r: &[u8], eta: u32, k: usize, u: &mut [u16])
    requires { RowInput a.now y.now r.now eta k × (length u.old ≡ 256 * k) }
    ensures { u.new
        ≡ concat k (first_part k eta (places_of k a.now) (parts 256 y.now) r.now) }
{
    write_parts(u, 256, k, |i, f| first_part(a, y, r, eta, k, i, f));
}

// Line 20, the polynomial mu of the message m.
fn message(m: &[u8], f: &mut [u16])
    requires { (length m.now ≡ 32) × (length f.old ≡ 256) }
    ensures { f.new ≡ map (decompress 1) (byte_decode 1 m.now) }
{
    byte_decode(m, 1, f);
    decompress_all(f, 1);
}

// Lines 17, 20 and 21, v, for the public vector t-hat in t.
fn second_part(t: &[u16], y: &[u16], m: &[u8], r: &[u8], eta: u32, k: usize, v: &mut [u16])
    requires { SecondInput t.now y.now m.now r.now eta k × (length v.old ≡ 256) }
    ensures { v.new
        ≡ second_part
        k
        eta
        (parts 256 t.now)
        (parts 256 y.now)
        m.now
        r.now }
{
    let mut e2 = [0u16; 256];
    let mut mu = [0u16; 256];
    dot(t, 0, 1, y, k, v);
    inverse_ntt(v);
    noise(r, eta, 2 * k, &mut e2);
    add_to(v, &e2);
    message(m, &mut mu);
    add_to(v, &mu);
}

// Lines 22 to 24, the ciphertext c1 || c2.
fn encode_parts(u: &mut [u16], v: &mut [u16], du: u32, dv: u32, k: usize, ct: &mut [u8])
    requires { CiphertextInput u.old v.old du dv k × (length ct.old ≡ 32 * du * k + 32 * dv) }
    ensures { ct.new
        ≡ concat k (λ i. byte_encode du (map (compress du) (parts 256 u.old i)))
        ++ byte_encode dv (map (compress dv) v.old) }
{
    let n = 32 * (du as usize) * k;
    compress_all(u, du);
    encode_all(u, du, k, &mut ct[0..n]);
    compress_all(v, dv);
    byte_encode(v, dv, &mut ct[n..]);
}

// Algorithm 14, for the matrix A-hat in a; t becomes t-hat, y y-hat.
fn encrypt_in(
    p: Parameters,
    a: &[u16],
    ek: &[u8],
    m: &[u8],
    r: &[u8],
    t: &mut [u16],
    y: &mut [u16],
    u: &mut [u16],
    ct: &mut [u8],
)
    requires { EncryptInput p a.now ek.now m.now r.now ct.old × EncryptRoom p t.old y.old u.old }
    ensures { ct.new ≡ encrypt_of p ek.now m.now r.now }
{
    let mut v = [0u16; 256];
    let n = vector_bytes(p);
    decode12_all(&ek[0..n], p.k, t);
    transformed_noise(r, p.eta1, p.k, y);
    first_parts(a, y, r, p.eta2, p.k, u);
    second_part(t, y, m, r, p.eta2, p.k, &mut v);
    encode_parts(u, &mut v, p.du, p.dv, p.k, ct);
}

// Algorithm 14, for the matrix A-hat in a.
pub fn encrypt(p: Parameters, a: &[u16], ek: &[u8], m: &[u8], r: &[u8], ct: &mut [u8])
    requires { EncryptInput p a.now ek.now m.now r.now ct.old }
    ensures { ct.new ≡ encrypt_of p ek.now m.now r.now }
{
    // Rooms for the highest rank, as there is no heap.
    let mut t = [0u16; 1024];
    let mut y = [0u16; 1024];
    let mut u = [0u16; 1024];
    let n = 256 * p.k;
    encrypt_in(p, a, ek, m, r, &mut t[0..n], &mut y[0..n], &mut u[0..n], ct);
}
