// SHA3-256, SHA3-512, SHAKE128 and SHAKE256 (FIPS 202, sections 4 to 6).
#![tactic(auto)]

ghost use Rattle.std.specs.Prelude.{◌≡◌, ◌-◌, ◌*◌, ◌%◌, ◌<◌, length};
ghost use Rattle.refusals.specs.Refusals.{number};
ghost use Rattle.fips202.specs.Calls.{sized_answer, Hashed, sha3_256_call, sha3_512_call};
ghost use Rattle.fips202.specs.Lent.{SpongeFits};
ghost use Rattle.fips202.specs.Sponge.{sponge as sponge_of, shake128 as shake128_of, shake256 as shake256_of};

use crate::absorb::absorb;
use crate::squeeze::squeeze;
use refusals::{Answer, Refusal};

pub mod absorb; // a message taken in
pub mod bytes; // a lane and its bytes
pub mod squeeze; // output given out

// Algorithm 8 with pad10*1: out is filled.
fn sponge(rate: usize, suffix: u8, m: &[u8], out: &mut [u8])
    requires { SpongeFits rate suffix }
    ensures { out.new ≡ sponge_of rate suffix m.now (length out.old) }
{
    let s = absorb(m, rate, suffix);
    squeeze(s, rate, out);
}

// Section 6.1 for a digest of n bytes, whose capacity is 2 n bytes.
fn sha3(n: usize, m: &[u8], out: &mut [u8]) -> Answer
    requires { (n < 100) × (n % 4 ≡ 0) }
    ensures { Hashed (sized_answer n out.old) (sponge_of (200 - 2 * n) 0x06 m.now n)
        out.old (number result) out.new }
{
    if out.len() != n {
        return Err(Refusal::WrongLength);
    }
    sponge(200 - 2 * n, 0x06, m, out);
    Ok(())
}

pub fn sha3_256(m: &[u8], out: &mut [u8]) -> Answer
    ensures { sha3_256_call m.now out.old (number result) out.new }
{
    sha3(32, m, out)
}

pub fn sha3_512(m: &[u8], out: &mut [u8]) -> Answer
    ensures { sha3_512_call m.now out.old (number result) out.new }
{
    sha3(64, m, out)
}

pub fn shake128(m: &[u8], out: &mut [u8])
    ensures { out.new ≡ shake128_of m.now (length out.old) }
{
    sponge(168, 0x1f, m, out);
}

pub fn shake256(m: &[u8], out: &mut [u8])
    ensures { out.new ≡ shake256_of m.now (length out.old) }
{
    sponge(136, 0x1f, m, out);
}
