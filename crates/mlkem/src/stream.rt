// SampleNTT (FIPS 203, algorithm 7) of a lent stream.
ghost use Rattle.mlkem.specs.Calls.{StreamSampled};
ghost use Rattle.refusals.specs.Refusals.{number};

use refusals::{Answer, Refusal, exact};
use sampling::sample_ntt;

pub fn sample(stream: &[u8], out: &mut [u16]) -> Answer
    ensures { StreamSampled stream.now out.old (number result) out.new }
{
    if !exact(&[stream.len(), out.len()], &[840, 256]) {
        return Err(Refusal::WrongLength);
    }
    sample_ntt(stream, out)
}
