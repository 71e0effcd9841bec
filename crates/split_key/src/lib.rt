// A split key: what it is, what import and refreshing answer and leave, and laws about these, in specs/; the split key
// and the masks as they are lent, the use limits that are accepted, and the parts of a split key made of a key's.
// split_key_import and split_key_refresh have the calls.
#![tactic(auto)]

ghost use Rattle.std.specs.Prelude.{◌≡◌};
ghost use Rattle.split_key.specs.KeyState.{is_limit};

mod lent_to_write; // a split key's buffers, with its limit and its count
pub mod splitting; // the parts of a split key

pub use lent_to_write::{KeyStateMut, SharesMut};

// A split key as it is lent to be read: the secret's shares, z's shares, and the public key followed by h.
#[derive(Clone, Copy)]
pub struct SplitKey<'a> {
    pub s0: &'a [u16],
    pub s1: &'a [u16],
    pub z0: &'a [u64],
    pub z1: &'a [u64],
    pub public: &'a [u8],
}

// Masks as they are lent to import and to refreshing: for the secret's coefficients, and for the words of z.
#[derive(Clone, Copy)]
pub struct Masks<'a> {
    pub coeffs: &'a [u16],
    pub words: &'a [u64],
}

// Document 02, ask 5: the use limits that are accepted.
pub fn is_limit(limit: u32) -> bool
    ensures { result ≡ is_limit limit }
{
    (1..=1_000_000).contains(&limit)
}
