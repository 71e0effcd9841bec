// A split key of rank k with its use limit and the count of its uses, as a string of bytes.
ghost use Rattle.std.specs.Prelude.{◌≡◌, ◌≤◌, length};
ghost use Rattle.split_key.specs.KeyState.{key_state};
ghost use Rattle.split_key.specs.Lent.{split_key_of};
ghost use Rattle.split_key.specs.LentToWrite.{key_lent, state_lent, StateStaysLent};
ghost use Rattle.cli_support.specs.Split.{Sized};
ghost use Rattle.cli_support.specs.State.{state_length, uses_bytes, state_bytes, StateUnpacked};

use crate::split_packing::{pack, split_bytes, unpack};
use buffers::little_endian::{get_number, put_number};
use split_key::{KeyStateMut, SplitKey};

// Its length.
pub fn state_bytes(k: usize) -> usize
    requires { k ≤ 4 }
    ensures { result ≡ state_length k }
{
    split_bytes(k) + 8
}

fn pack_uses(limit: u32, count: u32, out: &mut [u8])
    requires { length out.old ≡ 8 }
    ensures { out.new ≡ uses_bytes limit count }
{
    put_number(limit, &mut out[0..4]);
    put_number(count, &mut out[4..]);
}

// The split key, then limit and count.
pub fn pack_state(k: usize, key: &SplitKey, limit: u32, count: u32, out: &mut [u8])
    requires { Sized k (split_key_of key.now) × (length out.old ≡ state_length k) × (k ≤ 4) }
    ensures { out.new ≡ state_bytes (key_state (split_key_of key.now) limit count) }
{
    let n = split_bytes(k);
    pack(k, key, &mut out[0..n]);
    pack_uses(limit, count, &mut out[n..]);
}

pub fn unpack_state(k: usize, b: &[u8], state: &mut KeyStateMut)
    requires { (length b.now ≡ state_length k) × Sized k (key_lent state.old) × (k ≤ 4) }
    ensures kept { StateStaysLent state.old state.new }
    ensures unpacked { StateUnpacked k b.now (state_lent state.new) }
{
    let n = split_bytes(k);
    let m = n + 4;
    unpack(k, &b[0..n], state);
    *state.limit = get_number(&b[n..m]);
    *state.count = get_number(&b[m..]);
}
