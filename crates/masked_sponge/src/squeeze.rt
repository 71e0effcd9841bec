// Giving output out on two shares (document 01, The gadgets: Hash).
ghost use Rattle.std.specs.Prelude.{List, ◌≡◌, ℕ, ◌-◌, ◌*◌, ◌/◌, ◌<◌, ◌≤◌, length};
ghost use Rattle.words.specs.Tab.{tab};
ghost use Rattle.worksheet.specs.declared.Shared.{Shared as SharedOf};
ghost use Rattle.worksheet.specs.Prog.{Prog, word};
ghost use Rattle.worksheet.specs.Ran.{Draws};
ghost use Rattle.worksheet.specs.SharedList.{SharedList};
ghost use Rattle.fips202.specs.Sponge.{byte_of};
ghost use Rattle.masked_keccak.specs.MaskedKeccak.{keccak_p_words};
ghost use Rattle.masked_keccak.specs.SharedRows.{shared_state};
ghost use Rattle.masked_sponge.specs.Lent.{WholeLanes, BlockFits, OutputLent, PartLent};
ghost use Rattle.masked_sponge.specs.MaskedSponge.{further_blocks, masked_squeeze};
ghost use Rattle.masked_sponge.specs.MaskedSteps.{squeeze_bytes, lane, given};
ghost use Rattle.masked_sponge.specs.GivenOut.{GivesOut, bytes_given_out, words_given_out};

use fips202::squeeze::extract;
use keccak::state::State;
use worksheet::{Entered, Recorder, Shared};

// The permutations after the first block of an output of n, words or bytes, of which a block has so many.
pub fn further(n: usize, per: usize) -> usize
    requires { 0 < per }
    ensures { result ≡ further_blocks per n }
{
    n.saturating_sub(1) / per
}

// What a sponge's output is made of: bytes, or words.
pub trait Output: Copy {
    // What a state gives at a place.
    ghost read: { List ℕ → ℕ → Self };

    // How many of them a state has.
    ghost most: { ℕ };

    // How many make a lane.
    ghost in_lane: { ℕ };

    // How many a block of so many bytes has.
    ghost block: { ℕ → ℕ };

    // The definition's output, in blocks of so many of them.
    ghost squeezed: { ℕ → ℕ → SharedList → Prog (SharedOf (List Self)) };

    fn block(rate: usize) -> usize
        requires { WholeLanes rate }
        ensures { (result ≡ block rate) × BlockFits most in_lane result };

    // The first of a state.
    fn extract(s: State, out: &mut [Self])
        requires { length out.old ≤ most }
        ensures { out.new ≡ tab (length out.old) (read s.lanes) };

    ghost gives_out: { GivesOut in_lane read squeezed };
}

impl Output for u8 {
    ghost read = { byte_of };

    ghost most = { 200 };

    ghost in_lane = { 8 };

    ghost block = { λ rate. rate };

    ghost squeezed = { λ per n s. squeeze_bytes (per / 8) n s };

    fn block(rate: usize) -> usize {
        rate
    }

    fn extract(s: State, out: &mut [u8]) {
        extract(s, out);
    }

    ghost gives_out = { bytes_given_out };
}

impl Output for u64 {
    ghost read = { lane };

    ghost most = { 25 };

    ghost in_lane = { 1 };

    ghost block = { λ rate. rate / 8 };

    ghost squeezed = { masked_squeeze };

    fn block(rate: usize) -> usize {
        rate / 8
    }

    fn extract(s: State, out: &mut [u64]) {
        let n = out.len();
        out.copy_from_slice(&s.lanes[..n]);
    }

    ghost gives_out = { words_given_out };
}

// The state's first elements, to the places from a to e.
fn give<T: Output>(s: State, a: usize, e: usize, out: &mut [T])
    requires { PartLent T.most a e out.old }
    ensures { out.new ≡ given T.read s.lanes a e out.old }
{
    T::extract(s, &mut out[a..e]);
}

// The outputs are filled from the shares of the state, in blocks of so many elements, with 600 masks for each further
// permutation.
pub fn masked_squeeze<T: Output>(
    rec: Recorder,
    s: Shared<State>,
    per: usize,
    ws: &[u64],
    out0: &mut [T],
    out1: &mut [T],
) -> Recorder
    requires { OutputLent T.most T.in_lane per ws.now out0.old out1.old }
    ensures { Draws word (keccak_p_words * further_blocks per (length out0.old))
        (T.squeezed per (length out0.old) (shared_state s.s0 s.s1))
        rec ws.now (record { s0 = out0.new; s1 = out1.new }) result }
{
    let n = out0.len();
    let m = further(n, per);
    let mut o = Entered { value: s, rec };
    // By place, as the definition's turns are: both outputs and the masks are walked side by side, and no permutation
    // follows the last block.
    for i in 0..m {
        let a = i * per;
        let e = a + per;
        let k = 600 * i;
        give(o.value.s0, a, e, out0);
        give(o.value.s1, a, e, out1);
        o = masked_keccak::permute(o.rec, o.value, &ws[k..]);
    }
    let a = m * per;
    give(o.value.s0, a, n, out0);
    give(o.value.s1, a, n, out1);
    o.rec
}
