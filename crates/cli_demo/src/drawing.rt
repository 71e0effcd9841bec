// What the demonstration's calls are lent, beside what they make.
ghost use Rattle.std.specs.Prelude.{◌≡◌, ◌≤◌, length};
ghost use Rattle.cli_demo.specs.Lent.{drawn as drawn_bytes};

use cli_support::mask_file::Masks;
use cli_support::sets::Sizes;
use cli_support::strip_file::Strip;

fn seeds_of(draws: &[u8]) -> [u8; 96]
    requires { 96 ≤ length draws.now }
{
    let mut seeds = [0u8; 96];
    seeds.copy_from_slice(&draws[..96]);
    seeds
}

#[derive(Drop)]
pub struct Drawn {
    pub seeds: [u8; 96], // d, z and m
    pub masks: Masks, // import's
    pub strip: Strip,
    pub fresh: Masks, // refreshing's
}

impl Drawn {
    // In this order; coefficients are reduced.
    pub fn of_bytes(set: Sizes, draws: &[u8]) -> Self
        requires { length draws.now ≡ drawn_bytes set }
    {
        let strip_at = 512 * set.k + 128;
        let fresh_at = strip_at + 8 * set.words + 2 * set.coeffs;
        // Made before they are filled, so that none is moved.
        let mut drawn = Drawn {
            seeds: seeds_of(draws),
            masks: Masks::zeros(set),
            strip: Strip::zeros(set),
            fresh: Masks::zeros(set),
        };
        drawn.masks.unpack(&draws[96..strip_at]);
        drawn.masks.reduce();
        drawn.strip.unpack(&draws[strip_at..fresh_at]);
        drawn.strip.reduce();
        drawn.fresh.unpack(&draws[fresh_at..]);
        drawn.fresh.reduce();
        drawn
    }
}
