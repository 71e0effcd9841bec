// Keccak-p[1600, 24] on two shares of a state (document 01, The gadgets: Hash).
#![tactic(auto)]

ghost use Rattle.std.specs.Prelude.{◌≤◌, length};
ghost use Rattle.worksheet.specs.Prog.{word};
ghost use Rattle.worksheet.specs.Ran.{Draws};
ghost use Rattle.masked_keccak.specs.MaskedKeccak.{masked_round, masked_keccak_p, round_words, keccak_p_words};
ghost use Rattle.masked_keccak.specs.Lent.{RoundLent};
ghost use Rattle.masked_keccak.specs.SharedRows.{shared_state};

use crate::chi::chi;
use crate::pass::{enter_lanes, pass};
use keccak::state::State;
use keccak_constants::round_constants;
use worksheet::{Entered, Recorder, Shared, enter_xor};

pub mod chi; // chi on two shares
pub mod pass; // theta, rho and pi on one share

// Round i, with the table of constants and 25 masks.
fn round(
    rec: Recorder,
    s: Shared<State>,
    constants: &[u64; 24],
    i: usize,
    ws: &[u64],
) -> Entered<Shared<State>>
    requires { RoundLent constants.now i ws.now }
    ensures { Draws word round_words (masked_round i (shared_state s.s0 s.s1)) rec ws.now
        (shared_state result.value.s0 result.value.s1) result.rec }
{
    let p0 = pass(s.s0);
    let p1 = pass(s.s1);
    let rec0 = enter_lanes(rec, p0);
    let rec1 = enter_lanes(rec0, p1);
    let o = chi(rec1, Shared { s0: p0, s1: p1 }, ws);
    let mut value = o.value;
    let e = enter_xor(o.rec, value.s0.lanes[0], constants[i]);
    value.s0.lanes[0] = e.value;
    Entered { value, rec: e.rec }
}

// The permutation, with 600 masks.
pub fn permute(rec: Recorder, s: Shared<State>, ws: &[u64]) -> Entered<Shared<State>>
    requires { keccak_p_words ≤ length ws.now }
    ensures { Draws word keccak_p_words (masked_keccak_p (shared_state s.s0 s.s1)) rec ws.now
        (shared_state result.value.s0 result.value.s1) result.rec }
{
    let mut o = Entered { value: s, rec };
    let constants = round_constants();
    // By place, as the definition's turns are: round i takes constant i and the masks from 25 i on.
    for i in 0..24 {
        o = round(o.rec, o.value, &constants, i, &ws[25 * i..]);
    }
    o
}
