// The number-theoretic transform and its inverse (FIPS 203, section 4.3), in place.
ghost use Rattle.std.specs.Prelude.{◌≡◌, ℕ, List, ◌+◌, ◌-◌, ◌*◌, ◌%◌, ◌^◌, ◌<◌, ◌≤◌, length, get_or};
ghost use Rattle.words.specs.Residue.{q};
ghost use Rattle.words.specs.Iterate.{iterate};
ghost use Rattle.words.specs.Tab.{tab};
ghost use Rattle.ring.specs.Lent.{Factor};
ghost use Rattle.transform.specs.Lent.{LayerInput};
ghost use Rattle.transform.specs.Passes.{pairs, blocks};
ghost use Rattle.transform.specs.Transform.{zeta, butterfly, ntt, inverse_butterfly, inverse_layer, inverse_ntt};

use crate::tables::ZETAS;
use ring::{multiple, reduced_difference, reduced_sum, remainder, shoup_quotient};

// What Algorithms 9 and 10 differ in: what becomes of a pair of coefficients, and which root a block takes.
trait Direction {
    // the pair at j and j + len, with the root z
    ghost pair: { ℕ → ℕ → ℕ → List ℕ → List ℕ };

    // block b of k, by its number in the roots' table
    ghost entry: { ℕ → ℕ → ℕ };

    // lines 8 to 10; w is z's quotient for `multiple`
    fn butterfly(f: &mut [u16], z: u16, w: u16, len: usize, j: usize)
        requires { (j + len < length f.old) × Factor z w }
        ensures { f.new ≡ pair z len j f.old };

    fn root(k: usize, b: usize) -> usize
        requires { (b < k) × (k ≤ 64) }
        ensures { (result ≡ entry k b) × (result < 128) };
}

// Algorithm 9
struct Forward;

impl Direction for Forward {
    ghost pair = { butterfly };

    ghost entry = { λ k b. k + b };

    fn butterfly(f: &mut [u16], z: u16, w: u16, len: usize, j: usize) {
        let a = remainder(f[j]);
        let t = multiple(z, w, f[j + len]);
        f[j + len] = reduced_difference(a, t);
        f[j] = reduced_sum(a, t);
    }

    fn root(k: usize, b: usize) -> usize {
        k + b
    }
}

// Algorithm 10
struct Inverse;

impl Direction for Inverse {
    ghost pair = { inverse_butterfly };

    ghost entry = { λ k b. 2 * k - 1 - b };

    fn butterfly(f: &mut [u16], z: u16, w: u16, len: usize, j: usize) {
        let a = remainder(f[j]);
        let b = remainder(f[j + len]);
        f[j] = reduced_sum(a, b);
        f[j + len] = multiple(z, w, b + 3329 - a);
    }

    fn root(k: usize, b: usize) -> usize {
        2 * k - 1 - b
    }
}

// lines 7 to 11: the len pairs from start on. By place: what is written through two halves zipped isn't known to a
// proof in the end.
fn block_at<D: Direction>(f: &mut [u16], z: u16, len: usize, start: usize)
    requires { (start + 2 * len ≤ length f.old) × (z < q) }
    ensures { f.new ≡ pairs D.pair z len start f.old }
{
    let w = shoup_quotient(z);
    for j in 0..len {
        D::butterfly(f, z, w, len, start + j);
    }
}

// lines 4 to 12: k blocks of 2 len coefficients. By number: roots in either order beside the blocks say it no plainer.
fn layer_at<D: Direction>(f: &mut [u16], zetas: &[u16], k: usize, len: usize)
    requires { LayerInput f.old zetas.now k len }
    ensures { f.new ≡ blocks D.pair D.entry k len f.old }
{
    for b in 0..k {
        block_at::<D>(f, zetas[D::root(k, b)], len, b * (2 * len));
    }
}

// lines 3 to 13: seven layers
fn layers(f: &mut [u16], zetas: &[u16])
    requires { (length f.old ≡ 256) × (zetas.now ≡ tab 128 zeta) }
    ensures { f.new ≡ ntt f.old }
{
    layer_at::<Forward>(f, zetas, 1, 128);
    layer_at::<Forward>(f, zetas, 2, 64);
    layer_at::<Forward>(f, zetas, 4, 32);
    layer_at::<Forward>(f, zetas, 8, 16);
    layer_at::<Forward>(f, zetas, 16, 8);
    layer_at::<Forward>(f, zetas, 32, 4);
    layer_at::<Forward>(f, zetas, 64, 2);
}

// Algorithm 9, NTT
pub fn ntt(f: &mut [u16])
    requires { length f.old ≡ 256 }
    ensures { f.new ≡ ntt f.old }
{
    let zetas = ZETAS;
    layers(f, &zetas);
}

// lines 3 to 13: seven layers
fn inverse_layers(f: &mut [u16], zetas: &[u16])
    requires { (length f.old ≡ 256) × (zetas.now ≡ tab 128 zeta) }
    ensures { f.new ≡ iterate 7 (λ l. inverse_layer (2 ^ (6 - l)) (2 ^ (l + 1))) f.old }
{
    layer_at::<Inverse>(f, zetas, 64, 2);
    layer_at::<Inverse>(f, zetas, 32, 4);
    layer_at::<Inverse>(f, zetas, 16, 8);
    layer_at::<Inverse>(f, zetas, 8, 16);
    layer_at::<Inverse>(f, zetas, 4, 32);
    layer_at::<Inverse>(f, zetas, 2, 64);
    layer_at::<Inverse>(f, zetas, 1, 128);
}

// line 14: every coefficient times z
fn scale(f: &mut [u16], z: u16)
    requires { (length f.old ≡ 256) × (z < q) }
    ensures { f.new ≡ tab 256 (λ i. get_or f.old i 0 * z % q) }
{
    let w = shoup_quotient(z);
    for x in f.iter_mut() {
        *x = multiple(z, w, *x);
    }
}

// Algorithm 10, the inverse NTT; 3303 is 1 / 128 modulo q
pub fn inverse_ntt(f: &mut [u16])
    requires { length f.old ≡ 256 }
    ensures { f.new ≡ inverse_ntt f.old }
{
    let zetas = ZETAS;
    inverse_layers(f, &zetas);
    scale(f, 3303);
}
