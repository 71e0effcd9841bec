// Stage 4: the message's bits become coefficients.
ghost use Rattle.worksheet.specs.Prog.{coeff};
ghost use Rattle.worksheet.specs.Ran.{Draws};
ghost use Rattle.worksheet.specs.SharedList.{shared_list};
ghost use Rattle.stages.specs.Worksheet.{stage4 as stage4_of};
ghost use Rattle.stages.specs.Lent.{ConvertInput};

use masked_sampler::coefficient::{bit_of, bit_to_coeff};
use worksheet::{Recorder, Shares};

// mu, the message's polynomial.
pub fn stage4(
    rec: Recorder,
    m0: &[u64],
    m1: &[u64],
    cs: &[u16],
    mu0: &mut [u16],
    mu1: &mut [u16],
) -> Recorder
    requires { ConvertInput 4 256 256 (shared_list m0.now m1.now) cs.now (shared_list mu0.old mu1.old) }
    ensures { Draws coeff 256 (stage4_of (shared_list m0.now m1.now))
        rec cs.now (shared_list mu0.new mu1.new) result }
{
    let mut rec = rec;
    // By place, as the definition's turns are: bits, masks and both shares are walked side by side.
    for i in 0..256 {
        let w = Shares {
            s0: m0[i / 64],
            s1: m1[i / 64],
        };
        let o = bit_to_coeff(rec, 1665, bit_of(w, i % 64), cs[i]);
        mu0[i] = o.value.s0;
        mu1[i] = o.value.s1;
        rec = o.rec;
    }
    rec
}
