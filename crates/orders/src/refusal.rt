// Why bytes are no order.
ghost use Rattle.std.specs.Prelude.{◌≡◌};
ghost use Rattle.orders.specs.Refusals.{number_of};

use thiserror::Error;

#[derive(Clone, Copy, Debug, PartialEq, Eq, Error)]
pub enum Refusal {
    // keys that do not rise; a register, slot, count or length out of range; an unknown kind
    #[error("malformed order")]
    Malformed,
}

impl Refusal {
    // The number by which the format knows it: a method, as that of the other errors, some of which have none.
    pub fn number(self) -> u8
        ensures { result ≡ number_of self }
    {
        match self {
            Refusal::Malformed => 1,
        }
    }
}
