// A house's part of an order: it looks, or it writes.
ghost use Rattle.std.specs.Prelude.{◌≡◌};
ghost use Rattle.shard.specs.Tasks.{live};

use ledger::Ledger;

#[derive(Clone, Copy, Debug, PartialEq, Eq)]
pub enum Task {
    // for the order at a place
    Look(u32),
    Write(u32),
}

impl Task {
    // Whether it is still to be done.
    pub fn is_live(self, ledger: &Ledger) -> bool
        ensures { result ≡ live ledger.now self }
    {
        match self {
            Task::Look(place) => !ledger.is_noted(place),
            Task::Write(place) => !ledger.is_done(place),
        }
    }
}
