// Copies from slices to a slice of the same length, FIPS 203's a || b (section 2.3), and slices made place by place or
// part by part.
#![tactic(auto)]

ghost use Rattle.std.specs.Prelude.{List, ◌++◌, ◌≡◌, ◌+◌, ◌*◌, ◌<◌, ◌≤◌, ℕ, length};
ghost use Rattle.words.specs.Tab.{tab};
ghost use Rattle.slices.specs.Parts.{parts, concat};

// A loop, as the next: std's copy_from_slice is a memmove where the compiler can't tell source and target apart, and
// the library for C is to need no more than memcpy and memset from outside. docs/shares.md names both.
pub fn copy_bytes(s: &[u8], out: &mut [u8])
    requires { length s.now ≡ length out.old }
    ensures { out.new ≡ s.now }
{
    for (i, x) in out.iter_mut().enumerate() {
        *x = s[i];
    }
}

pub fn copy_coefficients(s: &[u16], out: &mut [u16])
    requires { length s.now ≡ length out.old }
    ensures { out.new ≡ s.now }
{
    for (i, x) in out.iter_mut().enumerate() {
        *x = s[i];
    }
}

// s || t.
pub fn concat_bytes(s: &[u8], t: &[u8], out: &mut [u8])
    requires { length s.now + length t.now ≡ length out.old }
    ensures { out.new ≡ s.now ++ t.now }
{
    let (front, back) = out.split_at_mut(s.len());
    front.copy_from_slice(s);
    back.copy_from_slice(t);
}

// Place i of out becomes f(i): where that is v(i), out becomes the list v(0), v(1), ..
pub fn tabulate<T: Copy, F: Fn(usize) -> T>(out: &mut [T], f: F)
    requires { (i : ℕ) → i < length out.old → F.pre f i }
    ensures { (v : ℕ → T)
        → ((i : ℕ) (y : T) → i < length out.old → F.post f i y → y ≡ v i)
        → out.new ≡ tab (length out.old) v }
{
    for (i, x) in out.iter_mut().enumerate() {
        *x = f(i);
    }
}

// Part i, of n elements.
pub fn part<T: Copy>(s: &[T], n: usize, i: usize) -> &[T]
    requires { n * i + n ≤ length s.now }
    ensures value { result.now ≡ parts n s.now i }
    ensures long { length result.now ≡ n }
{
    &s[n * i..n * i + n]
}

// Each of the k parts of n elements of out is written by f, which is told its number: where f turns part i into v(i),
// out becomes v(0) || v(1) || ..  By number: what is written through `chunks_exact_mut` isn't known to a proof in the
// end.
pub fn write_parts<T: Copy, F: Fn(usize, &mut [T])>(out: &mut [T], n: usize, k: usize, f: F)
    requires long { length out.old ≡ n * k }
    requires takes { (i : ℕ) (part : _) → i < k → length part.now ≡ n → F.pre f i part }
    ensures { (v : ℕ → List T)
        → ((i : ℕ) (part left : _) → i < k → part.now ≡ parts n out.old i → F.post f i part tt left → left.now ≡ v i)
        → out.new ≡ concat k v }
{
    for i in 0..k {
        f(i, &mut out[n * i..n * i + n]);
    }
}
