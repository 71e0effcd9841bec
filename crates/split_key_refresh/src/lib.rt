// Refreshing (document 02, ask 5): lent masks are added to the first shares and taken from the second, in place and one
// share at a time, and the count of uses becomes 0.
#![tactic(auto)]

ghost use Rattle.std.specs.Prelude.{◌&&◌, ◌≡◌, length};
ghost use Rattle.parameters.specs.Fits.{Fits};
ghost use Rattle.refusals.specs.Reduced.{reduced as reduced_of};
ghost use Rattle.refusals.specs.Refusals.{number};
ghost use Rattle.split_key.specs.Refresh.{xor_words, fresh_coeffs, fresh_words, Refreshed, RefreshedBy};
ghost use Rattle.split_key.specs.LentToWrite.{s_lent, z_lent, SharesStayLent};
ghost use Rattle.split_key.specs.Sized.{RefreshSized};

use parameters::Parameters;
use refusals::conditions::{both_reduced, reduced};
use refusals::{Answer, Refusal, exact};
use ring::{add_to, sub_from};
use split_key::{Masks, SharesMut};

// z becomes z xor the masks.
fn xor_words(z: &mut [u64], masks: &[u64])
    requires { length z.old ≡ length masks.now }
    ensures { z.new ≡ xor_words z.old masks.now }
{
    for (i, word) in z.iter_mut().enumerate() {
        *word ^= masks[i];
    }
}

fn move_shares(masks: &Masks, shares: &mut SharesMut)
    requires { RefreshSized (length masks.now.coeffs.now) masks.now.coeffs.now masks.now.words.now
        (s_lent shares.old) (z_lent shares.old) }
    ensures kept { SharesStayLent shares.old shares.new }
    ensures s1_after { s_lent shares.new ≡ fresh_coeffs (s_lent shares.old) masks.now.coeffs.now }
    ensures z1_after { z_lent shares.new ≡ fresh_words (z_lent shares.old) masks.now.words.now }
{
    add_to(shares.s0, masks.coeffs);
    sub_from(shares.s1, masks.coeffs);
    xor_words(shares.z0, masks.words);
    xor_words(shares.z1, masks.words);
}

// The coefficients of both shares are below q.
fn are_reduced(shares: &SharesMut) -> bool
    ensures { result ≡ (reduced_of (s_lent shares.now).s0 && reduced_of (s_lent shares.now).s1) }
{
    both_reduced(shares.s0, shares.s1)
}

// Refreshing for a parameter set.
fn refresh_at(p: Parameters, masks: &Masks, shares: &mut SharesMut, count: &mut u32) -> Answer
    requires { Fits p }
    ensures kept { SharesStayLent shares.old shares.new }
    ensures refreshed { Refreshed p masks.now.coeffs.now masks.now.words.now
        (s_lent shares.old) (z_lent shares.old) count.old (number result)
        (s_lent shares.new) (z_lent shares.new) count.new }
{
    let n = 256 * p.k;
    let has = [
        masks.coeffs.len(),
        masks.words.len(),
        shares.s0.len(),
        shares.s1.len(),
        shares.z0.len(),
        shares.z1.len(),
    ];
    let wants = [n, 4, n, n, 4, 4];
    if !exact(&has, &wants) {
        return Err(Refusal::WrongLength);
    }
    if !reduced(masks.coeffs) {
        return Err(Refusal::MaskRange);
    }
    if !are_reduced(shares) {
        return Err(Refusal::ShareRange);
    }
    move_shares(masks, shares);
    *count = 0;
    Ok(())
}

// Refreshing for the parameter set of a rank.
pub fn refresh(rank: u32, masks: &Masks, shares: &mut SharesMut, count: &mut u32) -> Answer
    ensures kept { SharesStayLent shares.old shares.new }
    ensures refreshed { RefreshedBy rank masks.now.coeffs.now masks.now.words.now
        (s_lent shares.old) (z_lent shares.old) count.old (number result)
        (s_lent shares.new) (z_lent shares.new) count.new }
{
    refresh_at(Parameters::try_from(rank)?, masks, shares, count)
}
