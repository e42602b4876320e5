// Why a house turns something away.
ghost use Rattle.std.specs.Prelude.{◌≡◌};
ghost use Rattle.ledger.specs.Refusals.{number_of, of_turns};
ghost use Rattle.ledger.specs.declared.refusal.Refusal.TheVariants.{Memory};

use std::alloc::AllocError;
use thiserror::Error;
use turns::TurnsError;

#[derive(Clone, Copy, Debug, PartialEq, Eq, Error)]
pub enum Refusal {
    // a house that does not exist, or another number of values than the order has there
    #[error("no such house, or another number of values than the order has there")]
    Mismatch,
    #[error("beyond the log that the house has")]
    Beyond,
    // told already, or nothing that the house has to be told
    #[error("told already, or nothing to be told")]
    Known,
    // it may not look or write yet, or there is nothing to look at or to write
    #[error("not yet")]
    NotYet,
    // the log has as many orders as there are places
    #[error("the log is full")]
    Full,
    #[error("out of memory")]
    Memory,
}

impl Refusal {
    // The number by which the format knows it; none for want of memory, so no From.
    pub fn number(self) -> Option<u8>
        ensures { result ≡ number_of self }
    {
        match self {
            Refusal::Mismatch => Some(2),
            Refusal::Beyond => Some(3),
            Refusal::Known => Some(4),
            Refusal::NotYet => Some(5),
            Refusal::Full => Some(7),
            Refusal::Memory => None,
        }
    }
}

// By hand, since clauses say which error it gives, and a derived one has no contract. The next one too.
impl From<AllocError> for Refusal {
    ghost from_gives = { λ _ r. r ≡ Memory };

    fn from(_e: AllocError) -> Refusal {
        Refusal::Memory
    }
}

impl From<TurnsError> for Refusal {
    ghost from_gives = { λ e r. r ≡ of_turns e };

    fn from(e: TurnsError) -> Refusal {
        match e {
            TurnsError::Full => Refusal::Full,
            TurnsError::Memory => Refusal::Memory,
        }
    }
}
