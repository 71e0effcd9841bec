// Theta, rho and pi on one share alone, and the entries of their outcome.
ghost use Rattle.std.specs.Prelude.{◌≡◌, get_or};
ghost use Rattle.keccak.specs.KeccakP.{theta as theta_of, rho as rho_of, pi as pi_of};
ghost use Rattle.worksheet.specs.Prog.{entry, times};
ghost use Rattle.worksheet.specs.Ran.{Makes};

use keccak::state::State;
use worksheet::{Recorder, enter};

pub(crate) fn pass(s: State) -> State
    ensures { result.lanes ≡ pi_of (rho_of (theta_of s.lanes)) }
{
    s.theta().rho().pi()
}

// The lanes in order.
pub(crate) fn enter_lanes(rec: Recorder, s: State) -> Recorder
    ensures { Makes (times 25 (λ i. entry (get_or s.lanes i 0))) rec s.lanes result }
{
    let mut rec = rec;
    for lane in &s.lanes {
        rec = enter(rec, *lane);
    }
    rec
}
