// Why no order can be taken.
ghost use Rattle.std.specs.Prelude.{◌≡◌};
ghost use Rattle.turns.specs.declared.error.TurnsError.TheVariants.{Memory};

use std::alloc::AllocError;
use thiserror::Error;

#[derive(Clone, Copy, Debug, PartialEq, Eq, Error)]
pub enum TurnsError {
    #[error("there are as many orders as there are places")]
    Full,
    #[error("out of memory")]
    Memory,
}

// By hand, since clauses say which error it gives, and a derived one has no contract.
impl From<AllocError> for TurnsError {
    ghost from_gives = { λ _ r. r ≡ Memory };

    fn from(_e: AllocError) -> TurnsError {
        TurnsError::Memory
    }
}
