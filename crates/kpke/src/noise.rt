// Noise: PRF and SamplePolyCBD (FIPS 203, algorithm 13, lines 8 to 15, and algorithm 14, lines 9 to 17).
ghost use Rattle.std.specs.Prelude.{◌≡◌, ◌+◌, ◌*◌, ◌≤◌, length};
ghost use Rattle.transform.specs.Transform.{ntt};
ghost use Rattle.vectors.specs.Vector.{concat};
ghost use Rattle.kpke.specs.KPke.{noise as noise_of};
ghost use Rattle.kpke.specs.Lent.{NoiseSeed, NoiseInput};

use hash_functions::prf;
use sampling::sample_poly_cbd;
use slices::write_parts;
use vectors::ntt_all;

// SamplePolyCBD_eta of PRF_eta(seed, n); b is where the bytes go.
fn noise_by(seed: &[u8], eta: u32, n: usize, b: &mut [u8], f: &mut [u16])
    requires { NoiseInput seed.now eta n f.old × (length b.old ≡ 64 * eta) }
    ensures { f.new ≡ noise_of eta seed.now n }
{
    prf(seed, n as u8, b);
    sample_poly_cbd(b, eta, f);
}

// SamplePolyCBD_eta of PRF_eta(seed, n).
pub fn noise(seed: &[u8], eta: u32, n: usize, f: &mut [u16])
    requires { NoiseInput seed.now eta n f.old }
    ensures { f.new ≡ noise_of eta seed.now n }
{
    // Room for the largest eta, as there is no heap.
    let mut b = [0u8; 192];
    let e = 64 * (eta as usize);
    noise_by(seed, eta, n, &mut b[0..e], f);
}

// Noise n, n + 1, .., n + k - 1: a vector.
pub fn noise_all(seed: &[u8], eta: u32, n: usize, k: usize, v: &mut [u16])
    requires { NoiseSeed seed.now eta × (n + k ≤ 256) × (length v.old ≡ 256 * k) }
    ensures { v.new ≡ concat k (λ i. noise_of eta seed.now (n + i)) }
{
    write_parts(v, 256, k, |i, f| noise(seed, eta, n + i, f));
}

// The transforms of noise 0, 1, .., k - 1: s-hat of algorithm 13, line 16, and y-hat of algorithm 14, line 18.
pub fn transformed_noise(seed: &[u8], eta: u32, k: usize, v: &mut [u16])
    requires { NoiseSeed seed.now eta × (k ≤ 256) × (length v.old ≡ 256 * k) }
    ensures { v.new ≡ concat k (λ i. ntt (noise_of eta seed.now i)) }
{
    noise_all(seed, eta, 0, k, v);
    ntt_all(v, k);
}
