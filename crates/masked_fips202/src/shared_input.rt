// A hash's input in two shares: words, and a public string in share 0.
ghost use Rattle.std.specs.Prelude.{◌++◌, ◌≡◌, ◌+◌, ◌*◌, length, replicate};
ghost use Rattle.words.specs.LittleEndian.{words_to_bytes};

use fips202::bytes::store;
use slices::copy_bytes;

// The bytes of words, the lowest first.
pub fn words_to_bytes(w: &[u64], out: &mut [u8])
    requires { length out.old ≡ 8 * length w.now }
    ensures { out.new ≡ words_to_bytes 8 w.now }
{
    for (i, word) in w.iter().enumerate() {
        store(*word, &mut out[8 * i..8 * i + 8]);
    }
}

// A line over std's fill: docs/shares.md names it.
pub fn zero_bytes(out: &mut [u8])
    ensures { out.new ≡ replicate (length out.old) 0 }
{
    out.fill(0);
}

// Share 0 of the input: words, then the public string.
pub fn with_public(w: &[u64], public: &[u8], b: &mut [u8])
    requires { length b.old ≡ 8 * length w.now + length public.now }
    ensures { b.new ≡ words_to_bytes 8 w.now ++ public.now }
{
    let n = 8 * w.len();
    words_to_bytes(w, &mut b[0..n]);
    copy_bytes(public, &mut b[n..]);
}

// Share 1 of the input: words, then n zeros.
pub fn with_zeros(w: &[u64], n: usize, b: &mut [u8])
    requires { length b.old ≡ 8 * length w.now + n }
    ensures { b.new ≡ words_to_bytes 8 w.now ++ replicate n 0 }
{
    let k = 8 * w.len();
    words_to_bytes(w, &mut b[0..k]);
    zero_bytes(&mut b[k..]);
}
