// The queue of a key.
ghost use Rattle.std.specs.Prelude.{◌≡◌, ◌+◌, ◌<◌, ◌≤◌, List, [], ◌∷◌, ◌++◌, length, MatchOption, OnErr, OnOk};
ghost use Rattle.std.specs.Option.{unwrap_or};
ghost use Rattle.std.specs.VecDeque.{deque_len, deque_capacity};
ghost use Rattle.std.specs.VecDeque.Iter.{deque_iter_rest};
ghost use Rattle.std.specs.List.{remove};
ghost use Rattle.turns.specs.Entries.{entries_in};
ghost use Rattle.turns.specs.Queues.{without, without_from, clear_in};

use crate::entry::Entry;
use std::alloc::{AllocError, Global};
use std::collections::VecDeque;
use std::collections::vec_deque::Iter;

// The undone orders that touch a key, in the order of the log.
#[derive(Drop)]
pub struct Queue {
    entries: VecDeque<Entry>,
}

impl Queue {
    pub fn new(heap: Global) -> Queue
        ensures { entries_in result ≡ [] }
    {
        Queue {
            entries: VecDeque::new(heap),
        }
    }

    pub fn iter(&self) -> Iter<'_, Entry>
        ensures { deque_iter_rest result ≡ entries_in self.now }
    {
        self.entries.iter()
    }

    // Room for so many entries more.
    pub fn reserve(&mut self, count: usize) -> Result<(), AllocError>
        ensures same { entries_in self.new ≡ entries_in self.old }
        ensures room { OnOk result (deque_len self.new.entries + count ≤ deque_capacity self.new.entries) }
        ensures wanting { OnErr result (deque_capacity self.old.entries < deque_len self.old.entries + count) }
        ensures capacity { deque_capacity self.old.entries ≤ deque_capacity self.new.entries }
        ensures len { deque_len self.new.entries ≡ deque_len self.old.entries }
    {
        self.entries.reserve(count)
    }

    // One entry behind the others, in the room that was reserved.
    pub fn push(&mut self, entry: Entry)
        requires { deque_len self.old.entries < deque_capacity self.old.entries }
        ensures pushed { entries_in self.new ≡ entries_in self.old ++ entry ∷ [] }
        ensures len { deque_len self.new.entries ≡ deque_len self.old.entries + 1 }
        ensures capacity { deque_capacity self.new.entries ≡ deque_capacity self.old.entries }
    {
        self.entries.push_back_reserved(entry);
    }

    // Takes out the entries of a place: two where the order reads and writes the key. They stand at the front mostly, where no
    // entry has to move.
    pub fn remove(&mut self, place: u32)
        ensures { entries_in self.new ≡ without place (entries_in self.old) }
    {
        while let Some(entry) = self.entries.front() {
            if entry.place > place {
                return;
            }
            if entry.place < place {
                break;
            }
            self.entries.pop_front();
        }
        self.remove_behind(place);
    }

    // The same behind other entries; it goes through the queue once.
    fn remove_behind(&mut self, place: u32)
        ensures { entries_in self.new ≡ without place (entries_in self.old) }
    {
        let mut from = 0;
        while let Some(at) = self.find(place, from) {
            self.take_out(at);
            from = at;
        }
    }

    // Apart, since it is long and rare: inlined, it made `remove` three times as slow for an entry at the front.
    #[inline(never)]
    fn take_out(&mut self, at: usize)
        requires { at < length (entries_in self.old) }
        ensures { entries_in self.new ≡ remove (entries_in self.old) at }
    {
        self.entries.remove(at);
    }

    // Where the first entry of a place stands, from an index on. Places rise, so it looks no further than that.
    fn find(&self, place: u32, from: usize) -> Option<usize>
        requires { from ≤ length (entries_in self.now) }
        ensures { MatchOption result (without_from place from (entries_in self.now) ≡ entries_in self.now) (λ at. (at < length (entries_in self.now)) × (without_from place at (remove (entries_in self.now) at) ≡ without_from place from (entries_in self.now))) }
    {
        let mut rest = self.entries.range(from..);
        let at = from + rest.position(|entry| entry.place >= place)?;
        let entry = self.entries.get(at)?;
        (entry.place == place).then_some(at)
    }

    // Whether no entry before a place, but those of another place, keeps one waiting there that writes or only reads. The two places
    // are two numbers, as in `Turns::is_clear`. The ring's two parts are gone through one after the other: an iterator over both asks
    // at each entry in which of them it is, which is felt where many read a key.
    pub fn lets_pass(&self, writes: bool, place: u32, but: u32) -> bool
        ensures { result ≡ clear_in place but writes (entries_in self.now) }
    {
        let Some(first) = self.entries.front() else {
            return true;
        };
        // mostly it is the one at the front that asks
        if first.place >= place {
            return true;
        }
        let (front, back) = self.entries.as_slices();
        match verdict(front, writes, place, but) {
            Some(passes) => passes,
            None => verdict(back, writes, place, but).unwrap_or(true),
        }
    }
}

// Whether some entries let one pass, as in `lets_pass`; none where that is for the entries behind them to say. What is asked of each
// entry is no more than whether it is one to be looked at: the place but for which is asked stands there once or twice.
fn verdict(entries: &[Entry], writes: bool, place: u32, but: u32) -> Option<bool>
    ensures { (more : List Entry) → clear_in place but writes (entries.now ++ more) ≡ unwrap_or result (clear_in place but writes more) }
{
    let mut rest = entries;
    while let Some(at) = rest
        .iter()
        .position(|entry| (writes || entry.writes) || entry.place >= place)
    {
        let entry = &rest[at];
        if entry.place >= place {
            return Some(true);
        }
        if entry.place != but {
            return Some(false);
        }
        rest = &rest[at + 1..];
    }
    None
}
