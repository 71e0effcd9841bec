// Bit planes of 64 numbers: plane j holds bit j of each. The numbers, of which the lower 32 bits are taken, are packed
// two to a word, and five steps transpose the 32 words.
#![tactic(auto)]

ghost use Rattle.std.specs.Prelude.{◌≡◌, ◌<◌, ◌≤◌, get_or, length};
ghost use Rattle.words.specs.Fill.{Filled};
ghost use Rattle.words.specs.Plane.{plane};
ghost use Rattle.words.specs.Tab.{tab};
ghost use Rattle.planes.specs.Transposition.{packed, lower, upper, stepped};
ghost use Rattle.planes.specs.Lent.{StepLent, PlanesLent};

fn pack(v: &[u64], w: &mut [u64])
    requires { (length v.now ≡ 64) × (length w.old ≡ 32) }
    ensures { w.new ≡ tab 32 (packed (λ i. get_or v.now i 0)) }
{
    for (i, x) in w.iter_mut().enumerate() {
        *x = (v[i] & 0xffff_ffff) ^ (v[i + 32] << 32);
    }
}

// Where m has a 1, the bit of y and the bit s places higher of x change places.
fn exchange(x: u64, y: u64, s: usize, m: u64) -> (u64, u64)
    requires { s < 64 }
    ensures { (result.0 ≡ lower s m x y) × (result.1 ≡ upper s m x y) }
{
    let t = ((x >> s) ^ y) & m;
    (x ^ (t << s), y ^ t)
}

// Rows i and i + 16 become rows 2 i and 2 i + 1; by place, since halves zipped with pairs would say it no plainer.
fn step(w: &[u64], s: usize, m: u64, o: &mut [u64])
    requires { StepLent s w.now o.old }
    ensures { o.new ≡ tab 32 (stepped s m (λ i. get_or w.now i 0)) }
{
    for i in 0..16 {
        let (low, high) = exchange(w[i], w[i + 16], s, m);
        o[2 * i] = low;
        o[2 * i + 1] = high;
    }
}

// 32 planes.
fn transpose(v: &[u64], p: &mut [u64])
    requires { (length v.now ≡ 64) × (length p.old ≡ 32) }
    ensures { p.new ≡ tab 32 (plane 64 (λ i. get_or v.now i 0)) }
{
    let mut a = [0u64; 32];
    let mut b = [0u64; 32];
    pack(v, &mut b);
    step(&b, 16, 0x0000_ffff_0000_ffff, &mut a);
    step(&a, 8, 0x00ff_00ff_00ff_00ff, &mut b);
    step(&b, 4, 0x0f0f_0f0f_0f0f_0f0f, &mut a);
    step(&a, 2, 0x3333_3333_3333_3333, &mut b);
    step(&b, 1, 0x5555_5555_5555_5555, p);
}

// The n lowest planes.
pub fn bit_planes(v: &[u64], n: usize) -> [u64; 24]
    requires { (length v.now ≡ 64) × (n ≤ 24) }
    ensures { Filled 24 (plane 64 (λ i. get_or v.now i 0)) n result }
{
    let mut w = [0u64; 32];
    transpose(v, &mut w);
    let mut p = [0u64; 24];
    p[..n].copy_from_slice(&w[..n]);
    p
}

fn widened(f: &[u16]) -> [u64; 64]
    requires { length f.now ≡ 64 }
    ensures { result ≡ tab 64 (λ i. get_or f.now i 0) }
{
    let mut v = [0u64; 64];
    for (i, x) in f.iter().enumerate() {
        v[i] = u64::from(*x);
    }
    v
}

// The d lowest planes of 64 coefficients.
pub fn coefficient_planes(f: &[u16], d: usize, out: &mut [u64])
    requires { PlanesLent f.now d out.old }
    ensures { out.new ≡ tab d (plane 64 (λ i. get_or f.now i 0)) }
{
    let v = widened(f);
    let p = bit_planes(&v, d);
    out.copy_from_slice(&p[..d]);
}
