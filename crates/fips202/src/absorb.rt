// Taking a message in (Algorithm 8, steps 1 to 6).
ghost use Rattle.std.specs.Prelude.{◌++◌, ◌≡◌, ◌-◌, ◌%◌, ◌<◌, ◌≤◌, length, take, replicate};
ghost use Rattle.fips202.specs.Lent.{SpongeFits};
ghost use Rattle.fips202.specs.Sponge.{padding, padded, mixed, absorbed};

use crate::bytes;
use keccak::state::State;

// Step 6: a block is added to the state.
fn mix_block(s: State, block: &[u8]) -> State
    requires { (length block.now ≤ 200) × (length block.now % 8 ≡ 0) }
    ensures { result.lanes ≡ mixed block.now s.lanes }
{
    let mut t = s;
    for (j, lane) in block.chunks_exact(8).enumerate() {
        t.lanes[j] ^= bytes::load(lane);
    }
    t
}

// At most 200 bytes, and zeros.
pub fn zero_filled(p: &[u8]) -> [u8; 200]
    requires { length p.now ≤ 200 }
    ensures { result ≡ p.now ++ replicate (200 - length p.now) 0 }
{
    let mut b = [0u8; 200];
    b[..p.len()].copy_from_slice(p);
    b
}

// The message's rest p, which is shorter than a block, and its padding.
pub fn last_block(p: &[u8], rate: usize, suffix: u8) -> [u8; 200]
    requires { (length p.now < rate) × (rate ≤ 200) × (suffix < 128) }
    ensures { take rate result ≡ p.now ++ padding suffix (rate - 1 - length p.now) }
{
    let mut b = zero_filled(p);
    b[p.len()] = suffix;
    b[rate - 1] ^= 0x80;
    b
}

// Steps 1 to 6, for the padded message.
pub(crate) fn absorb(m: &[u8], rate: usize, suffix: u8) -> State
    requires { SpongeFits rate suffix }
    ensures { result.lanes ≡ absorbed rate (padded rate suffix m.now) }
{
    let mut t = State { lanes: [0; 25] };
    let blocks = m.chunks_exact(rate);
    let rest = blocks.remainder();
    for block in blocks {
        t = keccak::permute(mix_block(t, block));
    }
    let last = last_block(rest, rate, suffix);
    keccak::permute(mix_block(t, &last[..rate]))
}
