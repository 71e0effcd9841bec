// What a vector's polynomials and the others of a stage come to.
ghost use Rattle.std.specs.Prelude.{◌≡◌, ◌+◌, ◌*◌, ◌≤◌};

// Stage 5: k polynomials of y, then k + 1 of e1 and e2.
pub(crate) fn noise_sum(k: usize, y: usize, e: usize) -> usize
    requires { (k ≤ 4) × (y ≤ 24386) × (e ≤ 24386) }
    ensures value { result ≡ k * y + (k + 1) * e }
    ensures upper_bound { result ≤ 219474 }
{
    k * y + (k + 1) * e
}

// Stages 7 and 8: k polynomials of u, then v.
pub(crate) fn ciphertext_sum(k: usize, u: usize, v: usize) -> usize
    requires { (k ≤ 4) × (u ≤ 2184) × (v ≤ 2184) }
    ensures value { result ≡ k * u + v }
    ensures upper_bound { result ≤ 10920 }
{
    k * u + v
}
