// What the benchmarks time and the interface doesn't have.
#![tactic(auto)]

ghost use Rattle.std.specs.Prelude.{◌≡◌, [], ◌≤◌, length};
ghost use Rattle.keccak.specs.KeccakP.{keccak_p};
ghost use Rattle.worksheet.specs.Run.{run};
ghost use Rattle.worksheet.specs.SharedList.{shared_list};
ghost use Rattle.masked_keccak.specs.MaskedKeccak.{masked_keccak_p, keccak_p_words};

use keccak::state::State;
use worksheet::{Recorder, Shared};

pub mod gadget_calls;

#[unsafe(no_mangle)]
pub extern "C" fn bench_keccak_p(s: &mut [u64; 25])
    ensures { s.new ≡ keccak_p s.old }
{
    let lanes = *s;
    let t = keccak::permute(State { lanes });
    let after = t.lanes;
    *s = after;
}

// The permutation on two shares; hands back the entry that is `left` entries ahead, or 0 where that is 0.
#[unsafe(no_mangle)]
pub extern "C" fn bench_masked_keccak_p(
    s: &mut [u64; 25],
    t: &mut [u64; 25],
    masks: &[u64],
    left: u64,
) -> u64
    ensures { keccak_p_words ≤ length masks.now
        → shared_list s.new t.new
        ≡ (run (masked_keccak_p (shared_list s.old t.old)) masks.now []).value }
{
    if masks.len() < 600 {
        return 0;
    }
    let a = *s;
    let b = *t;
    let shared = Shared {
        s0: State { lanes: a },
        s1: State { lanes: b },
    };
    let o = masked_keccak::permute(Recorder { left, value: 0 }, shared, masks);
    let c = o.value.s0.lanes;
    let d = o.value.s1.lanes;
    *s = c;
    *t = d;
    o.rec.value
}
