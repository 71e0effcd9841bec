// Vectors of k polynomials (FIPS 203, section 2.4.6): the k parts of 256 coefficients of one slice.
#![tactic(auto)]

ghost use Rattle.std.specs.Prelude.{◌≡◌, ◌+◌, ◌*◌, ◌≤◌, length, replicate};
ghost use Rattle.codec.specs.Bytes.{byte_encode, byte_decode12};
ghost use Rattle.codec.specs.Lent.{EncodeInput};
ghost use Rattle.transform.specs.Transform.{ntt as ntt_of};
ghost use Rattle.vectors.specs.Vector.{parts, concat, dot as dot_of, coefficients};
ghost use Rattle.vectors.specs.Lent.{DotInput, EncodeAllInput};

use codec::{byte_decode, byte_decode12, byte_encode};
use slices::{part, write_parts};
use transform::{multiply_add, ntt};

// NTT (algorithm 9) of each polynomial.
pub fn ntt_all(v: &mut [u16], k: usize)
    requires { length v.old ≡ 256 * k }
    ensures { v.new ≡ concat k (λ i. ntt_of (parts 256 v.old i)) }
{
    write_parts(v, 256, k, |_, f| ntt(f));
}

// The polynomial 0, from which dot's sum starts (2.4.7). A line over std's fill: docs/shares.md names it.
pub fn clear(f: &mut [u16])
    ensures { f.new ≡ replicate (length f.old) 0 }
{
    f.fill(0);
}

// The sum of MultiplyNTTs (algorithm 11) of a's parts start, start + step, .. with b's parts (2.4.7). By part, since
// those of a are a stride apart.
pub fn dot(a: &[u16], start: usize, step: usize, b: &[u16], k: usize, out: &mut [u16])
    requires { DotInput a.now start step b.now k out.old }
    ensures { out.new ≡ dot_of k (λ j. parts 256 a.now (start + step * j)) (parts 256 b.now) }
{
    clear(out);
    for j in 0..k {
        let x = 256 * (start + step * j);
        multiply_add(out, &a[x..x + 256], &b[256 * j..256 * j + 256]);
    }
}

// ByteEncode_d (algorithm 5) of each polynomial, one after the other.
pub fn encode_all(v: &[u16], d: u32, k: usize, out: &mut [u8])
    requires { EncodeAllInput v.now d k out.old }
    ensures { out.new ≡ concat k (λ i. byte_encode d (parts 256 v.now i)) }
{
    let n = 32 * (d as usize);
    write_parts(
        out,
        n,
        k,
        |i, b|
            requires { (256 * i + 256 ≤ length v.now) × EncodeInput (parts 256 v.now i) d b.old }
        { byte_encode(part(v, 256, i), d, b) },
    );
}

// ByteDecode_12 (algorithm 6) of each 384 bytes, before the reduction modulo q: the coefficients as they stand.
pub fn decode_all(b: &[u8], k: usize, v: &mut [u16])
    requires { (length b.now ≡ 384 * k) × (length v.old ≡ 256 * k) }
    ensures { v.new ≡ coefficients k b.now }
{
    write_parts(v, 256, k, |i, f| byte_decode(part(b, 384, i), 12, f));
}

// ByteDecode_12 (algorithm 6) of each 384 bytes: the coefficients modulo q.
pub fn decode12_all(b: &[u8], k: usize, v: &mut [u16])
    requires { (length b.now ≡ 384 * k) × (length v.old ≡ 256 * k) }
    ensures { v.new ≡ concat k (λ i. byte_decode12 (parts 384 b.now i)) }
{
    write_parts(v, 256, k, |i, f| byte_decode12(part(b, 384, i), f));
}
