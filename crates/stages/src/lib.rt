// The worksheet: the ten stages of masked decapsulation as one program, and Kyber's ending behind stage 8; their
// counts, what they use, and how lists of shares lie in slices. The code here counts.
#![tactic(auto)]

pub mod entry_counts; // the worksheet's entries
pub mod mask_counts; // the masks that the stages draw
mod sums; // over the polynomials of a stage
