// The log's calls.
ghost use Rattle.std.specs.Prelude.{◌≡◌, ◌+◌, ◌<◌, [], ◌∷◌, ◌++◌, length, vec_len, vec_capacity, MatchResult};
ghost use Rattle.line.specs.Errors.{Refuses};
ghost use Rattle.line.specs.Frames.{frames, framed};

use super::{Log, LogError};
use std::alloc::Global;

impl Log {
    #[tactic(auto, using(crate::proofs::Framing::whole_nil, crate::proofs::Framing::frames_short))]
    pub fn new(heap: Global) -> Log
        ensures { result.bytes.items ≡ [] }
    {
        Log {
            bytes: Vec::new(heap),
            len: 0,
        }
    }

    // One order more, well-formed or not: its place. A refusal changes nothing.
    pub fn append(&mut self, order: &[u8]) -> Result<u32, LogError>
        ensures { MatchResult result (λ p. (p ≡ length (frames self.old.bytes.items)) × (self.new.bytes.items ≡ self.old.bytes.items ++ framed order.now) × (frames self.new.bytes.items ≡ frames self.old.bytes.items ++ order.now ∷ [])) (λ e. (self.new.bytes.items ≡ self.old.bytes.items) × Refuses e (length order.now) (length (frames self.old.bytes.items)) (vec_capacity self.old.bytes < vec_len self.old.bytes + (2 + length order.now))) }
    {
        let Ok(length) = u16::try_from(order.len()) else {
            return Err(LogError::Oversize);
        };
        let place = self.len;
        if place == u32::MAX {
            return Err(LogError::Full);
        }
        self.bytes.reserve(2 + order.len())?;
        self.bytes.extend_from_slice(&length.to_be_bytes())?;
        self.bytes.extend_from_slice(order)?;
        self.len = place + 1;
        Ok(place)
    }
}
