// Calls that use a split key. A refused one's line is written.
use cli_support::answers::told;
use cli_support::desk::Desk;
use cli_support::messages::Told;
use cli_support::split_file::SplitKey;
use cli_support::strip_file::Strip;
use decapsulation::Input;
use refusals::Answer;

// The shares of K.
#[derive(Clone, Copy)]
pub struct Shares {
    pub k0: [u64; 4],
    pub k1: [u64; 4],
}

fn input<'a>(key: &'a SplitKey, ct: &'a [u8], strip: &'a Strip) -> Input<'a> {
    Input {
        key: key.lent(),
        ct,
        words: strip.words(),
        coeffs: strip.coeffs(),
    }
}

fn decapsulate(
    key: &SplitKey,
    ct: &[u8],
    strip: &Strip,
    count: &mut u32,
    shares: &mut Shares,
) -> Answer {
    decapsulation::decaps(
        key.set.edition,
        key.set.rank(),
        &input(key, ct, strip),
        key.limit,
        count,
        &mut shares.k0,
        &mut shares.k1,
    )
}

// The key's count is raised.
pub fn decaps(
    desk: &impl Desk,
    key: &mut SplitKey,
    ct: &[u8],
    strip: &Strip,
) -> Result<Shares, Told> {
    let mut shares = Shares {
        k0: [0; 4],
        k1: [0; 4],
    };
    let mut count = key.count;
    told(desk, decapsulate(key, ct, strip, &mut count, &mut shares))?;
    key.count = count;
    Ok(shares)
}

// The value of a step.
pub fn trace(
    desk: &impl Desk,
    key: &SplitKey,
    ct: &[u8],
    strip: &Strip,
    step: u64,
) -> Result<u64, Told> {
    let mut value: u64 = 0;
    let answer = decapsulation::trace(
        key.set.edition,
        key.set.rank(),
        &input(key, ct, strip),
        step,
        &mut value,
    );
    told(desk, answer)?;
    Ok(value)
}
