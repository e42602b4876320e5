// Why the program stops.
use thiserror::Error;

#[derive(Debug, Drop, Error)]
pub enum Reason {
    #[error("more than one argument: see 'serial --help'")]
    Arguments,
}

pub type Failure = program::Failure<Reason>;
