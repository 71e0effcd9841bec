// Import: a decapsulation key (FIPS 203, algorithm 16) is tested, by section 7.3's checks of its length and its hash,
// and split.
#![tactic(auto)]

ghost use Rattle.std.specs.Prelude.{◌≡◌, length};
ghost use Rattle.parameters.specs.Lengths.{dk_bytes};
ghost use Rattle.parameters.specs.Fits.{Fits};
ghost use Rattle.hash_functions.specs.Functions.{H as hash_of};
ghost use Rattle.mlkem.specs.MlKem.{public_part, hash_part};
ghost use Rattle.split_key.specs.Import.{imported_state, Imported, ImportedBy};
ghost use Rattle.split_key.specs.LentToWrite.{key_lent, state_lent, StateStaysLent};
ghost use Rattle.split_key.specs.Sized.{ImportSized};
ghost use Rattle.refusals.specs.Refusals.{number};
ghost use Rattle.refusals.specs.Same.{same as same_of};

use hash_functions::hash_h;
use parameters::{Parameters, dk_bytes, ek_bytes, vector_bytes};
use refusals::conditions::{reduced, same};
use refusals::{Answer, Refusal, exact};
use split_key::splitting::{copy_public, split_coefficients, split_words};
use split_key::{KeyStateMut, Masks, is_limit};

// Section 7.3, the hash check: h is the public key's hash.
fn hash_matches(p: Parameters, dk: &[u8]) -> bool
    requires { Fits p × (length dk.now ≡ dk_bytes p) }
    ensures { result ≡ same_of (hash_part p dk.now) (hash_of (public_part p dk.now)) }
{
    let mut t = [0u8; 32];
    let n = vector_bytes(p);
    let h = n + ek_bytes(p);
    let e = h + 32;
    hash_h(&dk[n..h], &mut t);
    same(&dk[h..e], &t)
}

// The split key, not yet used.
fn write_split(p: Parameters, dk: &[u8], masks: &Masks, limit: u32, state: &mut KeyStateMut)
    requires { Fits p
        × ImportSized p dk.now masks.now.coeffs.now masks.now.words.now (key_lent state.old) }
    ensures kept { StateStaysLent state.old state.new }
    ensures imported { state_lent state.new ≡ imported_state p dk.now masks.now.coeffs.now masks.now.words.now limit }
{
    let n = vector_bytes(p);
    let z = n + ek_bytes(p) + 32;
    let e = z + 32;
    split_coefficients(&dk[0..n], p.k, masks.coeffs, state.s0, state.s1);
    split_words(&dk[z..e], masks.words, state.z0, state.z1);
    copy_public(dk, n, z, state.public);
    *state.limit = limit;
    *state.count = 0;
}

// Import, row 1 passed.
fn import_sized(
    p: Parameters,
    dk: &[u8],
    masks: &Masks,
    limit: u32,
    state: &mut KeyStateMut,
) -> Answer
    requires { Fits p
        × ImportSized p dk.now masks.now.coeffs.now masks.now.words.now (key_lent state.old) }
    ensures kept { StateStaysLent state.old state.new }
    ensures imported { Imported p dk.now masks.now.coeffs.now masks.now.words.now limit
        (state_lent state.old) (number result) (state_lent state.new) }
{
    if !hash_matches(p, dk) {
        return Err(Refusal::WrongHash);
    }
    if !is_limit(limit) {
        return Err(Refusal::LimitRange);
    }
    if !reduced(masks.coeffs) {
        return Err(Refusal::MaskRange);
    }
    write_split(p, dk, masks, limit, state);
    Ok(())
}

// Import for a parameter set.
fn import_at(p: Parameters, dk: &[u8], masks: &Masks, limit: u32, state: &mut KeyStateMut) -> Answer
    requires { Fits p }
    ensures kept { StateStaysLent state.old state.new }
    ensures imported { Imported p dk.now masks.now.coeffs.now masks.now.words.now limit
        (state_lent state.old) (number result) (state_lent state.new) }
{
    let n = 256 * p.k;
    let m = ek_bytes(p) + 32;
    let has = [
        dk.len(),
        masks.coeffs.len(),
        masks.words.len(),
        state.s0.len(),
        state.s1.len(),
        state.z0.len(),
        state.z1.len(),
        state.public.len(),
    ];
    let wants = [dk_bytes(p), n, 4, n, n, 4, 4, m];
    if !exact(&has, &wants) {
        return Err(Refusal::WrongLength);
    }
    import_sized(p, dk, masks, limit, state)
}

// Import for the parameter set of a rank.
pub fn import(rank: u32, dk: &[u8], masks: &Masks, limit: u32, state: &mut KeyStateMut) -> Answer
    ensures kept { StateStaysLent state.old state.new }
    ensures imported { ImportedBy rank dk.now masks.now.coeffs.now masks.now.words.now limit
        (state_lent state.old) (number result) (state_lent state.new) }
{
    import_at(Parameters::try_from(rank)?, dk, masks, limit, state)
}
