// Giving output out (Algorithm 8, steps 7 to 10).
ghost use Rattle.std.specs.Prelude.{◌≡◌, ◌<◌, ◌≤◌, length};
ghost use Rattle.words.specs.Tab.{tab};
ghost use Rattle.fips202.specs.Sponge.{byte_of, squeezed};

use crate::bytes;
use keccak::state::State;

// The first bytes of the state, whole lanes first, each to its place alone. By place: what is written through
// `chunks_mut` isn't known to a proof in the end.
pub fn extract(s: State, out: &mut [u8])
    requires { length out.old ≤ 200 }
    ensures { out.new ≡ tab (length out.old) (byte_of s.lanes) }
{
    let n = out.len();
    let whole = n / 8;
    for j in 0..whole {
        bytes::store(s.lanes[j], &mut out[8 * j..8 * j + 8]);
    }
    for i in 8 * whole..n {
        out[i] = bytes::byte(s.lanes[i / 8], i % 8);
    }
}

// Steps 7 to 10: a block of output, and a permutation while more than a block is wanted. By place: what is written
// through `chunks_mut` isn't known to a proof in the end.
pub(crate) fn squeeze(s: State, rate: usize, out: &mut [u8])
    requires { (0 < rate) × (rate ≤ 200) }
    ensures { out.new ≡ squeezed rate s.lanes (length out.old) }
{
    let mut t = s;
    let blocks = out.len().saturating_sub(1) / rate;
    for i in 0..blocks {
        let a = i * rate;
        extract(t, &mut out[a..a + rate]);
        t = keccak::permute(t);
    }
    extract(t, &mut out[blocks * rate..]);
}
