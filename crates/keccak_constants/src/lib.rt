// The round constants of Keccak-p[1600, 24] (FIPS 202, algorithms 5 and 6), in a table.
#![tactic(auto)]

ghost use Rattle.std.specs.Prelude.{◌≡◌};
ghost use Rattle.words.specs.Tab.{tab};
ghost use Rattle.keccak_constants.specs.RoundConstants.{constant};

// Algorithm 6, steps 2 and 3: RC of the rounds 0 to 23.
const ROUND_CONSTANTS: [u64; 24] = [
    0x0000_0000_0000_0001,
    0x0000_0000_0000_8082,
    0x8000_0000_0000_808a,
    0x8000_0000_8000_8000,
    0x0000_0000_0000_808b,
    0x0000_0000_8000_0001,
    0x8000_0000_8000_8081,
    0x8000_0000_0000_8009,
    0x0000_0000_0000_008a,
    0x0000_0000_0000_0088,
    0x0000_0000_8000_8009,
    0x0000_0000_8000_000a,
    0x0000_0000_8000_808b,
    0x8000_0000_0000_008b,
    0x8000_0000_0000_8089,
    0x8000_0000_0000_8003,
    0x8000_0000_0000_8002,
    0x8000_0000_0000_0080,
    0x0000_0000_0000_800a,
    0x8000_0000_8000_000a,
    0x8000_0000_8000_8081,
    0x8000_0000_0000_8080,
    0x0000_0000_8000_0001,
    0x8000_0000_8000_8008,
];

// The table. A permutation takes it once, before its rounds: a constant array that is indexed by a variable in the
// round would be built on the stack in each round.
pub fn round_constants() -> [u64; 24]
    ensures { result ≡ tab 24 constant }
{
    ROUND_CONSTANTS
}
