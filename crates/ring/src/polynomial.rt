// Sums and differences of polynomials (FIPS 203, section 2.4.5) and maps of their coefficients, in place.
ghost use Rattle.std.specs.Prelude.{◌≡◌, ◌<◌, ℕ, map, length, slice_index};
ghost use Rattle.ring.specs.Polynomial.{add, sub};

use crate::residue::{difference, remainder, sum};

// f becomes f + g.
pub fn add_to(f: &mut [u16], g: &[u16])
    requires { length f.old ≡ length g.now }
    ensures { f.new ≡ add f.old g.now }
{
    for (i, x) in f.iter_mut().enumerate() {
        *x = sum(*x, g[i]);
    }
}

// f becomes f - g.
pub fn sub_from(f: &mut [u16], g: &[u16])
    requires { length f.old ≡ length g.now }
    ensures { f.new ≡ sub f.old g.now }
{
    for (i, x) in f.iter_mut().enumerate() {
        *x = difference(*x, remainder(g[i]));
    }
}

// Each coefficient x of f becomes g(x): where that is v(x), f becomes its map under v.
pub fn map_coefficients<G: Fn(u16) -> u16>(f: &mut [u16], g: G)
    requires { (k : ℕ) → k < length f.old → G.pre g (slice_index f.old k) }
    ensures { (v : ℕ → ℕ)
        → ((k y : ℕ) → k < length f.old → G.post g (slice_index f.old k) y → y ≡ v (slice_index f.old k))
        → f.new ≡ map v f.old }
{
    for x in f.iter_mut() {
        *x = g(*x);
    }
}
