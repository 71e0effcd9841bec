// What a record does that makes no call.
use crate::failure::{Failure, Outcome};
use crate::memory::Memory;
use crate::record::Record;
use crate::{changes, monte_carlo, wants};

#[derive(Clone, Copy, Debug, PartialEq, Eq)]
pub enum Kind {
    Write,
    Fill,
    Copy,
    Join,
    Set,
    Squeeze,
    LoadCoefficients,
    LoadWords,
    StoreCoefficients,
    StoreWords,
    Count,
    Want,
    WantHash,
    Same,
    Absorb,
    Chain,
}

impl TryFrom<u32> for Kind {
    type Error = Failure;

    fn try_from(number: u32) -> Result<Kind, Failure> {
        match number {
            1 => Ok(Kind::Write),
            2 => Ok(Kind::Fill),
            3 => Ok(Kind::Copy),
            4 => Ok(Kind::Join),
            5 => Ok(Kind::Set),
            6 => Ok(Kind::Squeeze),
            7 => Ok(Kind::LoadCoefficients),
            8 => Ok(Kind::LoadWords),
            9 => Ok(Kind::StoreCoefficients),
            10 => Ok(Kind::StoreWords),
            11 => Ok(Kind::Count),
            12 => Ok(Kind::Want),
            13 => Ok(Kind::WantHash),
            14 => Ok(Kind::Same),
            15 => Ok(Kind::Absorb),
            16 => Ok(Kind::Chain),
            _ => Err(Failure::NoSuchKind),
        }
    }
}

impl Kind {
    // The one place that goes by the kind.
    pub fn carry_out(self, r: Record, m: &mut Memory) -> Outcome {
        match self {
            Kind::Write => changes::write(r, m),
            Kind::Fill => changes::fill(r, m),
            Kind::Copy => changes::copy(r, m),
            Kind::Join => changes::join(r, m),
            Kind::Set => changes::set_in_string(r, m),
            Kind::Squeeze => changes::squeeze(r, m),
            Kind::LoadCoefficients => changes::load_coefficients(r, m),
            Kind::LoadWords => changes::load_words(r, m),
            Kind::StoreCoefficients => changes::store_coefficients(r, m),
            Kind::StoreWords => changes::store_words(r, m),
            Kind::Count => changes::count(r, m),
            Kind::Want => wants::want(r, m),
            Kind::WantHash => wants::want_hash(r, m),
            Kind::Same => wants::want_same(r, m),
            Kind::Absorb => changes::absorb(r, m),
            Kind::Chain => monte_carlo::chain(r, m),
        }
    }
}
