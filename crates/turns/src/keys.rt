// The keys of a house.
ghost use Rattle.std.specs.Prelude.{◌≡◌, ◌<◌};
ghost use Rattle.turns.specs.Marks.{slot};

// A house has so many keys.
pub const KEYS: usize = 4096;

// The number of a key within its house.
pub fn slot(key: u16) -> usize
    ensures number { result ≡ slot key }
    ensures within { result < 4096 }
{
    usize::from(key) / 16
}
