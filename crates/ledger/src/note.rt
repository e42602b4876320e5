// Values that a house noted for an order, or was told.
ghost use Rattle.std.specs.Prelude.{◌≡◌, ◌<◌, [], ◌∷◌, ◌++◌, length};
ghost use Rattle.ledger.specs.Notes.{values_of};

use bounded::Bounded;

// Values of keys that the order reads, in their order: at most sixteen.
#[derive(Clone, Copy, Debug, PartialEq, Eq)]
pub struct Note {
    values: Bounded<u32, 16>,
}

impl Note {
    pub fn empty() -> Note
        ensures { values_of result ≡ [] }
    {
        Note {
            values: Bounded::new(),
        }
    }

    // One value more; nothing where there are sixteen.
    pub fn push(&mut self, value: u32)
        ensures { length (values_of self.old) < 16 → values_of self.new ≡ values_of self.old ++ value ∷ [] }
    {
        let _ = self.values.push(value);
    }

    pub fn as_slice(&self) -> &[u32]
        ensures { result.now ≡ values_of self.now }
    {
        self.values.as_slice()
    }
}
