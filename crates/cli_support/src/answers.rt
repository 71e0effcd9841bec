// Refused calls.
use crate::desk::Desk;
use crate::messages::{Told, refused};
use refusals::{Answer, Refusal};

// The condition in the words of documents 01 and 02.
fn condition(refusal: Refusal) -> &'static str {
    match refusal {
        Refusal::WrongLength => "a lent buffer, in or out, hasn't its exact length",
        Refusal::PublicKeyRange => "a coefficient of the public key is 3329 or more",
        Refusal::WrongHash => "h isn't SHA3-256 of the public key part",
        Refusal::MaskRange => "a mask coefficient is 3329 or more",
        Refusal::ShareRange => "a share coefficient is 3329 or more",
        Refusal::ShortStream => "an 840-byte stream yields fewer than 256 coefficients",
        Refusal::NoSuchStep => "the step number isn't below the worksheet's count",
        Refusal::NoSuchRank => "the rank isn't 2, 3 or 4",
        Refusal::LimitRange => "the use limit isn't from 1 to 1000000",
        Refusal::LimitReached => "the count of uses has reached the limit",
    }
}

// A refusal's line is written.
pub fn told(desk: &impl Desk, answer: Answer) -> Result<(), Told> {
    match answer {
        Ok(()) => Ok(()),
        Err(refusal) => Err(refused(desk, refusal as u64, condition(refusal))),
    }
}
