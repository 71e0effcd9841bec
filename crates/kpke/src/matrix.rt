// The matrix A-hat (FIPS 203, algorithm 13, lines 3 to 7, and algorithm 14, lines 4 to 8), its rows one after the other
// in one slice.
ghost use Rattle.std.specs.Prelude.{◌≡◌, Bool, List, ℕ, ◌*◌, ◌<◌, length};
ghost use Rattle.words.specs.Table.{every};
ghost use Rattle.sampling.specs.Sample.{full};
ghost use Rattle.sampling.specs.Results.{Sampling};
ghost use Rattle.hash_functions.specs.Functions.{XOF};
ghost use Rattle.vectors.specs.Vector.{concat};
ghost use Rattle.kpke.specs.KPke.{matrix, matrix_full};
ghost use Rattle.kpke.specs.Lent.{ExpandInput};

use hash_functions::xof;
use refusals::Answer;
use sampling::fill_ntt;

// SampleNTT (algorithm 7) at place (i, j): f then holds its coefficients, unless its stream is too short.
fn sample_place(rho: &[u8], i: u8, j: u8, f: &mut [u16]) -> Answer
    requires { (length rho.now ≡ 32) × (length f.old ≡ 256) }
    ensures { Sampling (full (XOF rho.now i j)) (matrix rho.now i j) result f.new }
{
    let mut s = [0u8; 840];
    xof(rho, i, j, &mut s);
    fill_ntt(&s, f)
}

// Each of the k parts of n elements of a is sampled by f, which is told its number, up to the first that is refused:
// where f makes part i v(i) if enough(i), a becomes v(0) || v(1) || .. if there is enough for all. By number, as
// `write_parts`, which can't stop.
fn sample_parts<F: Fn(usize, &mut [u16]) -> Answer>(
    a: &mut [u16],
    n: usize,
    k: usize,
    f: F,
) -> Answer
    requires long { length a.old ≡ n * k }
    requires takes { (i : ℕ) (part : _) → i < k → length part.now ≡ n → F.pre f i part }
    ensures { (enough : ℕ → Bool) (v : ℕ → List ℕ)
        → ((i : ℕ) (part left : _) (r : _) → i < k → length part.now ≡ n → F.post f i part r left
        → Sampling (enough i) (v i) r left.now)
        → Sampling (every k enough) (concat k v) result a.new }
{
    for i in 0..k {
        f(i, &mut a[n * i..n * i + n])?;
    }
    Ok(())
}

// Row i of A-hat.
fn expand_row(rho: &[u8], k: usize, i: usize, a: &mut [u16]) -> Answer
    requires { ExpandInput rho.now k (256 * k) a.old × (i < 256) }
    ensures { Sampling
        (every k (λ j. full (XOF rho.now i j)))
        (concat k (matrix rho.now i))
        result
        a.new }
{
    sample_parts(a, 256, k, |j, f| sample_place(rho, i as u8, j as u8, f))
}

// A-hat: a then holds the matrix, unless a stream yields fewer than 256 coefficients.
pub fn expand(rho: &[u8], k: usize, a: &mut [u16]) -> Answer
    requires { ExpandInput rho.now k (256 * k * k) a.old }
    ensures { Sampling
        (matrix_full k rho.now)
        (concat k (λ i. concat k (matrix rho.now i)))
        result
        a.new }
{
    sample_parts(a, 256 * k, k, |i, row| expand_row(rho, k, i, row))
}
