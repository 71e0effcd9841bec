// Calls that make a split key or change its shares. A refused one's line is written.
use cli_support::answers::told;
use cli_support::desk::Desk;
use cli_support::mask_file::Masks;
use cli_support::messages::Told;
use cli_support::sets::Sizes;
use cli_support::split_file::SplitKey;
use split_key::{KeyStateMut, SharesMut};

// The split key of a decapsulation key.
pub fn import(
    desk: &impl Desk,
    set: Sizes,
    dk: &[u8],
    masks: &Masks,
    limit: u32,
) -> Result<SplitKey, Told> {
    let mut key = SplitKey::zeros(set);
    let answer = split_key_import::import(
        set.rank(),
        dk,
        &masks.lent(),
        limit,
        &mut KeyStateMut {
            s0: &mut key.s0[..set.coefficients],
            s1: &mut key.s1[..set.coefficients],
            z0: &mut key.z0,
            z1: &mut key.z1,
            public: &mut key.public[..set.public],
            limit: &mut key.limit,
            count: &mut key.count,
        },
    );
    told(desk, answer)?;
    Ok(key)
}

// The split key with fresh shares.
pub fn refresh(desk: &impl Desk, mut key: SplitKey, masks: &Masks) -> Result<SplitKey, Told> {
    let set = key.set;
    let answer = split_key_refresh::refresh(
        set.rank(),
        &masks.lent(),
        &mut SharesMut {
            s0: &mut key.s0[..set.coefficients],
            s1: &mut key.s1[..set.coefficients],
            z0: &mut key.z0,
            z1: &mut key.z1,
        },
        &mut key.count,
    );
    told(desk, answer)?;
    Ok(key)
}
