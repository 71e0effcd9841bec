// A split key of rank k as a string of bytes.
ghost use Rattle.std.specs.Prelude.{◌++◌, ◌≡◌, ◌*◌, ◌≤◌, length};
ghost use Rattle.words.specs.LittleEndian.{words_to_bytes};
ghost use Rattle.split_key.specs.Lent.{split_key_of};
ghost use Rattle.split_key.specs.LentToWrite.{key_lent, StateStaysLent};
ghost use Rattle.cli_support.specs.Split.{Sized, RestSized, split_length, rest_bytes, split_bytes, Unpacked};

use buffers::little_endian::{get_coefficients, get_words, put_coefficients, put_words};
use split_key::{KeyStateMut, SplitKey};

// Its length.
pub fn split_bytes(k: usize) -> usize
    requires { k ≤ 4 }
    ensures { result ≡ split_length k }
{
    1408 * k + 128
}

fn pack_coefficients(k: usize, s0: &[u16], s1: &[u16], out: &mut [u8])
    requires { (length s0.now ≡ 256 * k) × (length s1.now ≡ 256 * k) × (length out.old ≡ 1024 * k) }
    ensures { out.new ≡ words_to_bytes 2 s0.now ++ words_to_bytes 2 s1.now }
{
    let n = 512 * k;
    put_coefficients(s0, &mut out[0..n]);
    put_coefficients(s1, &mut out[n..]);
}

pub fn pack_words(z0: &[u64], z1: &[u64], out: &mut [u8])
    requires { (length z0.now ≡ 4) × (length z1.now ≡ 4) × (length out.old ≡ 64) }
    ensures { out.new ≡ words_to_bytes 8 z0.now ++ words_to_bytes 8 z1.now }
{
    put_words(z0, &mut out[0..32]);
    put_words(z1, &mut out[32..]);
}

fn pack_rest(key: &SplitKey, out: &mut [u8])
    requires { RestSized (split_key_of key.now) out.old }
    ensures { out.new ≡ rest_bytes (split_key_of key.now) }
{
    pack_words(key.z0, key.z1, &mut out[0..64]);
    out[64..].copy_from_slice(key.public);
}

// The shares of the secret, those of z, the public key and its hash.
pub fn pack(k: usize, key: &SplitKey, out: &mut [u8])
    requires { Sized k (split_key_of key.now) × (length out.old ≡ split_length k) }
    ensures { out.new ≡ split_bytes (split_key_of key.now) }
{
    let n = 1024 * k;
    pack_coefficients(k, key.s0, key.s1, &mut out[0..n]);
    pack_rest(key, &mut out[n..]);
}

// Limit and count stay.
pub fn unpack(k: usize, b: &[u8], state: &mut KeyStateMut)
    requires { (length b.now ≡ split_length k) × Sized k (key_lent state.old) }
    ensures kept { StateStaysLent state.old state.new }
    ensures unpacked { Unpacked k b.now (key_lent state.new) }
    ensures uses { (state.new.limit.now ≡ state.old.limit.now) × (state.new.count.now ≡ state.old.count.now) }
{
    let half = 512 * k;
    let words = 1024 * k;
    let second = words + 32;
    let rest = words + 64;
    get_coefficients(&b[0..half], state.s0);
    get_coefficients(&b[half..words], state.s1);
    get_words(&b[words..second], state.z0);
    get_words(&b[second..rest], state.z1);
    state.public.copy_from_slice(&b[rest..]);
}
