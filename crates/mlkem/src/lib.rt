// ML-KEM (FIPS 203, section 6) and Kyber, round 3: the algorithms, what the calls answer and leave, and laws about
// these, in specs/; the seeds of key making, and sampling of a lent stream. mlkem_keygen and mlkem_encaps have the
// other calls.
#![tactic(auto)]

mod key_seeds;
mod stream; // sampling of a lent stream

pub use key_seeds::seeds;
pub use stream::sample;
