// What a call on keys is told: the edition, and the parameter set (FIPS 203, section 8) by its rank; and the lengths in
// bytes that follow from a set.
#![tactic(auto)]

ghost use Rattle.std.specs.Prelude.{◌≡◌};
ghost use Rattle.parameters.specs.Ranks.{is_rank, of_rank};
ghost use Rattle.parameters.specs.RankSet.{set_of};
ghost use Rattle.parameters.specs.Lengths.{vector_bytes, ek_bytes, dk_bytes, ct_bytes};
ghost use Rattle.parameters.specs.Fits.{Fits};

use refusals::Refusal;

// FIPS 203's ML-KEM, or Kyber as submitted to the third round (version 3.02). Both have the same parameter sets.
#[derive(Clone, Copy)]
pub enum Edition {
    MlKem,
    Kyber,
}

// Table 2: the rank, the noise's two widths, the depths of the ciphertext's two parts.
#[derive(Clone, Copy)]
pub struct Parameters {
    pub k: usize,
    pub eta1: u32,
    pub eta2: u32,
    pub du: u32,
    pub dv: u32,
}

// The ranks that are accepted; any other number is refusal 9.
pub fn is_rank(rank: u32) -> bool
    ensures { result ≡ is_rank rank }
{
    matches!(rank, 2..=4)
}

// ML-KEM-512, ML-KEM-768 or ML-KEM-1024, by the rank; for any other number the last.
pub fn of_rank(rank: u32) -> Parameters
    ensures value { result ≡ of_rank rank }
    ensures fits { Fits result }
{
    match rank {
        2 => Parameters {
            k: 2,
            eta1: 3,
            eta2: 2,
            du: 10,
            dv: 4,
        },
        3 => Parameters {
            k: 3,
            eta1: 2,
            eta2: 2,
            du: 10,
            dv: 4,
        },
        _ => Parameters {
            k: 4,
            eta1: 2,
            eta2: 2,
            du: 11,
            dv: 5,
        },
    }
}

// The set of an accepted rank.
impl TryFrom<u32> for Parameters {
    type Error = Refusal;

    ghost try_from_gives = { λ rank r. r ≡ set_of rank };

    fn try_from(rank: u32) -> Result<Parameters, Refusal> {
        if is_rank(rank) {
            Ok(of_rank(rank))
        } else {
            Err(Refusal::NoSuchRank)
        }
    }
}

// An encoded vector.
pub fn vector_bytes(p: Parameters) -> usize
    requires { Fits p }
    ensures { result ≡ vector_bytes p }
{
    384 * p.k
}

// Table 3: the public key.
pub fn ek_bytes(p: Parameters) -> usize
    requires { Fits p }
    ensures { result ≡ ek_bytes p }
{
    vector_bytes(p) + 32
}

// The decapsulation key.
pub fn dk_bytes(p: Parameters) -> usize
    requires { Fits p }
    ensures { result ≡ dk_bytes p }
{
    vector_bytes(p) + ek_bytes(p) + 64
}

// The ciphertext.
pub fn ct_bytes(p: Parameters) -> usize
    requires { Fits p }
    ensures { result ≡ ct_bytes p }
{
    32 * ((p.du as usize) * p.k + (p.dv as usize))
}
