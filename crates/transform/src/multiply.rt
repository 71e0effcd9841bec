// Products of polynomials in the transformed domain (FIPS 203, section 4.3.1).
ghost use Rattle.std.specs.Prelude.{◌≡◌, ◌+◌, ◌*◌, ◌%◌};
ghost use Rattle.words.specs.Residue.{q};
ghost use Rattle.ring.specs.Polynomial.{add};
ghost use Rattle.words.specs.Tab.{tab};
ghost use Rattle.transform.specs.Transform.{gamma, multiply_ntts};
ghost use Rattle.transform.specs.Lent.{GammaInput, PairInput, ProductInput};
ghost use Rattle.transform.specs.MultiplyLaws.{add_pair};

use crate::tables::ZETAS;
use ring::{product, reduce};

// s + u x + v y modulo q
fn combination(s: u16, u: u16, x: u16, v: u16, y: u16) -> u16
    ensures { result ≡ (s + (u * x + v * y) % q) % q }
{
    reduce((s as u32) + (product(u, x) as u32) + (v as u32) * (y as u32))
}

// Algorithm 12, BaseCaseMultiply: c0 and c1 of pair i of f g are added to s.
fn base_case_multiply(s: &mut [u16], f: &[u16], g: &[u16], i: usize, z: u16)
    requires { PairInput s.old f.now g.now i z }
    ensures { s.new ≡ add_pair f.now g.now i s.old }
{
    let a0 = f[2 * i];
    let a1 = f[2 * i + 1];
    let b0 = g[2 * i];
    let b1 = g[2 * i + 1];
    let s0 = s[2 * i];
    let s1 = s[2 * i + 1];
    s[2 * i] = combination(s0, a0, b0, a1, product(b1, z));
    s[2 * i + 1] = combination(s1, a0, b1, a1, b0);
}

// The constants of Algorithm 11, zeta^(2 BitRev7(i) + 1): pair 2 j has entry 64 + j of the roots' table, pair 2 j + 1
// its negative.
fn gammas_of(zetas: &[u16], gammas: &mut [u16])
    requires { GammaInput zetas.now gammas.old }
    ensures { gammas.new ≡ tab 128 gamma }
{
    for (j, z) in zetas[64..].iter().enumerate() {
        gammas[2 * j] = *z;
        gammas[2 * j + 1] = 3329 - *z;
    }
}

// Algorithm 11, MultiplyNTTs, added up: s becomes s + f g.
pub fn multiply_add(s: &mut [u16], f: &[u16], g: &[u16])
    requires { ProductInput s.old f.now g.now }
    ensures { s.new ≡ add s.old (multiply_ntts f.now g.now) }
{
    let zetas = ZETAS;
    let mut gammas = [0u16; 128];
    gammas_of(&zetas, &mut gammas);
    for (i, z) in gammas.iter().enumerate() {
        base_case_multiply(s, f, g, i, *z);
    }
}
