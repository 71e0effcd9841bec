// The parameter sets of each edition: their names on the command line, and the sizes of what their calls are lent.
ghost use Rattle.std.specs.Prelude.{◌≡◌, ◌+◌, ◌*◌};
ghost use Rattle.parameters.specs.Fits.{Fits};
ghost use Rattle.cli_support.specs.Bounded.{Between, SetBounded};

use crate::arguments::Word;
use crate::desk::Desk;
use parameters::{Edition, Parameters, ct_bytes, dk_bytes, ek_bytes, of_rank};
use stages::entry_counts::steps;
use stages::mask_counts::{strip_coeffs, strip_words};

#[derive(Clone, Copy)]
pub struct Sizes {
    pub edition: Edition,
    pub k: usize, // the rank
    pub coefficients: usize, // of a share
    pub ek: usize, // bytes
    pub dk: usize,
    pub ct: usize,
    pub public: usize, // the public key and h
    pub words: usize, // masks of a strip
    pub coeffs: usize,
    pub steps: u64,
    pub ghost between: { Between k ek dk ct words coeffs steps },
    pub ghost share: { coefficients ≡ 256 * k },
    pub ghost public_key: { public ≡ 384 * k + 64 },
}

impl Sizes {
    pub fn rank(self) -> u32 {
        self.k as u32
    }
}

fn measured(e: Edition, p: Parameters) -> Sizes
    requires { Fits p × SetBounded e p }
{
    Sizes {
        edition: e,
        k: p.k,
        coefficients: 256 * p.k,
        ek: ek_bytes(p),
        dk: dk_bytes(p),
        ct: ct_bytes(p),
        public: ek_bytes(p) + 32,
        words: strip_words(e, p),
        coeffs: strip_coeffs(p),
        steps: steps(e, p) as u64,
    }
}

fn sizes_of(e: Edition, rank: u32) -> Sizes {
    measured(e, of_rank(rank))
}

// Of the set that a word names.
fn sizes_named(word: &[u8]) -> Option<Sizes> {
    match word {
        b"ml-kem-512" => Some(sizes_of(Edition::MlKem, 2)),
        b"ml-kem-768" => Some(sizes_of(Edition::MlKem, 3)),
        b"ml-kem-1024" => Some(sizes_of(Edition::MlKem, 4)),
        b"kyber512" => Some(sizes_of(Edition::Kyber, 2)),
        b"kyber768" => Some(sizes_of(Edition::Kyber, 3)),
        b"kyber1024" => Some(sizes_of(Edition::Kyber, 4)),
        _ => None,
    }
}

// Of the set that argument i names.
pub fn sizes_at(desk: &impl Desk, i: usize) -> Option<Sizes> {
    sizes_named(Word::<16>::at(desk, i).bytes())
}
