// Why the program stops.
use ledger::Refusal;
use thiserror::Error;

#[derive(Debug, Drop, Error)]
pub enum Reason {
    #[error("three arguments are wanted: see 'solo --help'")]
    Arguments,
    #[error("HOUSE is a number from 0 to 15")]
    House,
    // the house turned away what it was to do
    #[error("{0}")]
    Refused(Refusal),
}

pub type Failure = program::Failure<Reason>;

// No From: neither the ledger's `Refusal` nor the generic `Failure` is of this crate.
pub fn refused(refusal: Refusal) -> Failure {
    Failure::Own(Reason::Refused(refusal))
}
