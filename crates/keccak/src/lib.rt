// Keccak-p[1600, 24] (FIPS 202, section 3).
#![tactic(auto)]

ghost use Rattle.std.specs.Prelude.{◌≡◌, ℕ};
ghost use Rattle.keccak_constants.specs.RoundConstants.{constant as constant_of};
ghost use Rattle.keccak.specs.KeccakP.{keccak_p, round as round_of};

use crate::state::State;
use keccak_constants::round_constants;

pub mod row; // five lanes of a state
pub mod state; // the 25 lanes
pub mod steps; // the step mappings

// Algorithm 7, step 2: a round with its constant k.
fn round(s: State, k: u64) -> State
    ensures { (i : ℕ) → k ≡ constant_of i → result.lanes ≡ round_of i s.lanes }
{
    s.theta().rho().pi().chi().iota(k)
}

// Algorithm 7: the permutation.
pub fn permute(s: State) -> State
    ensures { result.lanes ≡ keccak_p s.lanes }
{
    let mut t = s;
    for k in round_constants() {
        t = round(t, k);
    }
    t
}
