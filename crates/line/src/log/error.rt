// Why the log did not take an order.
ghost use Rattle.std.specs.Prelude.{◌≡◌};
ghost use Rattle.line.specs.Errors.{number_of};
ghost use Rattle.line.specs.declared.log.error.LogError.TheVariants.{Memory};

use std::alloc::AllocError;
use thiserror::Error;

#[derive(Clone, Copy, Debug, PartialEq, Eq, Error)]
pub enum LogError {
    // more bytes than a length in front of them can say
    #[error("malformed order")]
    Oversize,
    // the log has as many orders as there are places
    #[error("the log is full")]
    Full,
    #[error("out of memory")]
    Memory,
}

impl LogError {
    // The number by which the format knows it; none for want of memory, so no From.
    pub fn number(self) -> Option<u8>
        ensures { result ≡ number_of self }
    {
        match self {
            LogError::Oversize => Some(1),
            LogError::Full => Some(7),
            LogError::Memory => None,
        }
    }
}

// By hand, since clauses say which error it gives, and a derived one has no contract.
impl From<AllocError> for LogError {
    ghost from_gives = { λ _ r. r ≡ Memory };

    fn from(_e: AllocError) -> LogError {
        LogError::Memory
    }
}
