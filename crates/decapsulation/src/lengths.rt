// Row 1: the lengths of what is lent to decapsulation and to trace.
ghost use Rattle.std.specs.Prelude.{List, [], ◌∷◌, ◌≡◌, ℕ, length};
ghost use Rattle.parameters.specs.Fits.{Fits};
ghost use Rattle.refusals.specs.Refusals.{lent, sized};
ghost use Rattle.decapsulation_run.specs.Lent.{input_of};
ghost use Rattle.decapsulation.specs.Calls.{lengths};

use decapsulation_run::Input;
use parameters::{Edition, Parameters, ct_bytes, ek_bytes};
use refusals::exact;
use stages::mask_counts::{strip_coeffs, strip_words};

// What is read: a split key, a ciphertext and a strip.
pub fn exact_input(e: Edition, p: Parameters, input: &Input) -> bool
    requires { Fits p }
    ensures { result ≡ sized (lengths e p (input_of input.now)) }
{
    let n = 256 * p.k;
    let h = ek_bytes(p) + 32;
    let w = strip_words(e, p);
    let has = [
        input.key.s0.len(),
        input.key.s1.len(),
        input.key.z0.len(),
        input.key.z1.len(),
        input.key.public.len(),
        input.ct.len(),
        input.words.len(),
        input.coeffs.len(),
    ];
    let wants = [n, n, 4, 4, h, ct_bytes(p), w, strip_coeffs(p)];
    exact(&has, &wants)
}

// Where the shares of K go, which have n0 and n1 words.
pub fn exact_shares(n0: usize, n1: usize) -> bool
    ensures { (k0 k1 : List ℕ) → length k0 ≡ n0 → length k1 ≡ n1 → result ≡ sized (lent k0 4 ∷ lent k1 4 ∷ []) }
{
    exact(&[n0, n1], &[4, 4])
}
