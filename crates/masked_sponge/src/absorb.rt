// Taking a message in on two shares (document 01, The gadgets: Hash).
ghost use Rattle.std.specs.Prelude.{◌+◌, ◌*◌, ◌/◌, ◌<◌, ◌≤◌, length, take};
ghost use Rattle.worksheet.specs.declared.Recorder.{Recorder as AnyRecorder};
ghost use Rattle.worksheet.specs.Prog.{word, loop};
ghost use Rattle.worksheet.specs.Ran.{Makes, Draws};
ghost use Rattle.masked_keccak.specs.MaskedKeccak.{keccak_p_words};
ghost use Rattle.masked_keccak.specs.SharedRows.{shared_state};
ghost use Rattle.masked_sponge.specs.Lent.{BlockLent, InputLent, AbsorbLent};
ghost use Rattle.masked_sponge.specs.MaskedSponge.{start as start_of, mix_lanes, shared_block, masked_absorb};
ghost use Rattle.masked_sponge.specs.MaskedSponge.{input_blocks, hash_mask_words};
ghost use Rattle.masked_sponge.specs.MaskedSteps.{shared_lane, take_in};

use fips202::absorb::{last_block, zero_filled};
use fips202::bytes;
use keccak::state::State;
use worksheet::{Entered, Recorder, Shared, Shares, masked_xor};

// Either share of the zero state, under 25 masks.
fn start(ws: &[u64]) -> State
    requires { 25 ≤ length ws.now }
    ensures { (r : AnyRecorder) → Draws word 25 start_of r ws.now (shared_state result result) r }
{
    let mut s = State { lanes: [0u64; 25] };
    s.lanes.copy_from_slice(&ws[..25]);
    s
}

// The first rate bytes of p0 and p1 are added to the shares of the state.
fn mix_lanes(
    rec: Recorder,
    s: Shared<State>,
    p0: &[u8],
    p1: &[u8],
    rate: usize,
) -> Entered<Shared<State>>
    requires { BlockLent rate p0.now p1.now }
    ensures { Makes
        (mix_lanes (rate / 8) (shared_lane (take rate p0.now) (take rate p1.now)) (shared_state s.s0 s.s1))
        rec (shared_state result.value.s0 result.value.s1) result.rec }
{
    let mut rec = rec;
    let mut value = s;
    // By place, as the definition's turns are: two states and two blocks are walked side by side.
    for j in 0..rate / 8 {
        let a = 8 * j;
        let e = a + 8;
        let u = Shares {
            s0: value.s0.lanes[j],
            s1: value.s1.lanes[j],
        };
        let v = Shares {
            s0: bytes::load(&p0[a..e]),
            s1: bytes::load(&p1[a..e]),
        };
        let o = masked_xor(rec, u, v);
        value.s0.lanes[j] = o.value.s0;
        value.s1.lanes[j] = o.value.s1;
        rec = o.rec;
    }
    Entered { value, rec }
}

// A block, the first rate bytes of p0 and p1, and the permutation, with 600 masks.
fn take_in(
    rec: Recorder,
    s: Shared<State>,
    p0: &[u8],
    p1: &[u8],
    rate: usize,
    ws: &[u64],
) -> Entered<Shared<State>>
    requires { BlockLent rate p0.now p1.now × (keccak_p_words ≤ length ws.now) }
    ensures { Draws word keccak_p_words
        (take_in (rate / 8) (shared_lane (take rate p0.now) (take rate p1.now)) (shared_state s.s0 s.s1))
        rec ws.now (shared_state result.value.s0 result.value.s1) result.rec }
{
    let m = mix_lanes(rec, s, p0, p1, rate);
    masked_keccak::permute(m.rec, m.value, ws)
}

// The blocks that in0 and in1 fill, with 600 masks for each.
fn whole_blocks(
    rec: Recorder,
    s: Shared<State>,
    in0: &[u8],
    in1: &[u8],
    rate: usize,
    ws: &[u64],
) -> Entered<Shared<State>>
    requires { InputLent rate in0.now in1.now ws.now }
    ensures { Draws word (keccak_p_words * (length in0.now / rate))
        (loop (length in0.now / rate)
        (λ i. take_in (rate / 8) (shared_block rate in0.now in1.now i)) (shared_state s.s0 s.s1))
        rec ws.now (shared_state result.value.s0 result.value.s1) result.rec }
{
    let mut o = Entered { value: s, rec };
    // By place, as the definition's turns are: two inputs and the masks are walked side by side.
    for i in 0..in0.len() / rate {
        let a = i * rate;
        let k = 600 * i;
        o = take_in(o.rec, o.value, &in0[a..], &in1[a..], rate, &ws[k..]);
    }
    o
}

// The padded message, of which in0 and in1 are the shares, with 25 masks and 600 for each block. Its calls are borders
// of stages in bench/stages.py.
#[inline(never)]
pub fn masked_absorb(
    rec: Recorder,
    in0: &[u8],
    in1: &[u8],
    rate: usize,
    suffix: u8,
    ws: &[u64],
) -> Entered<Shared<State>>
    requires { AbsorbLent rate suffix in0.now in1.now ws.now }
    ensures { Draws word (hash_mask_words (input_blocks rate (length in0.now)))
        (masked_absorb rate suffix in0.now in1.now)
        rec ws.now (shared_state result.value.s0 result.value.s1) result.rec }
{
    let s = start(ws);
    let n = in0.len() / rate;
    let a = n * rate;
    let k = 25 + 600 * n;
    let o = whole_blocks(rec, Shared { s0: s, s1: s }, in0, in1, rate, &ws[25..]);
    let b0 = last_block(&in0[a..], rate, suffix);
    let b1 = zero_filled(&in1[a..]);
    take_in(o.rec, o.value, &b0, &b1, rate, &ws[k..])
}
