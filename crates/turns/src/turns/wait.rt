// Who waits for whom.
ghost use Rattle.std.specs.Prelude.{◌≡◌, ℕ, ◌<◌, ◌≤◌, true, false, ◌&&◌, ◌||◌, [], ◌∷◌, length, IfOk, OnErr, OnOk};
ghost use Rattle.orders.specs.Transaction.{is_in};
ghost use Rattle.rows.specs.Lists.{rows_of};
ghost use Rattle.turns.specs.Marks.{put, ready, wakes};
ghost use Rattle.turns.specs.Queues.{clear_in, next_in};
ghost use Rattle.turns.specs.State.{marks_of, done_of, count_of, Wakes, Waking, queue_at};

use super::Turns;
use crate::entry::Mark;
use crate::places::Places;
use std::alloc::{AllocError, Global};

impl Turns {
    // How many orders there are.
    pub fn len(&self) -> u32
        ensures { result ≡ count_of self.now }
    {
        self.done.len() as u32
    }

    // What the order at a place touches; nothing where there is no order.
    pub fn marks(&self, place: u32) -> &[Mark]
        ensures { result.now ≡ marks_of self.now place }
    {
        self.marks.row(place as usize)
    }

    pub fn is_done(&self, place: u32) -> bool
        ensures { result ≡ done_of self.now place }
    {
        self.done.get(place as usize).is_some_and(|done| *done)
    }

    // Whether every earlier order that conflicts with the one at a place is done. Beyond the orders there is nothing to wait for.
    pub fn is_ready(&self, place: u32) -> bool
        ensures { result ≡ ready (marks_of self.now) (done_of self.now) place }
    {
        self.is_clear(place, place)
    }

    // The places whose orders wait for the one at a place and for no other, rising: they are ready once it is done.
    pub fn wakes(&self, heap: Global, place: u32) -> Result<Vec<u32>, AllocError>
        ensures woken { IfOk result (λ v. Wakes self.now place v.items) }
        ensures wanting { OnErr result (Waking self.now place) }
    {
        let mut woken = Places::new(heap);
        for mark in self.marks.row(place as usize) {
            self.wake_behind(mark, place, &mut woken)?;
        }
        Ok(woken.into_vec())
    }

    // Looks through the queue of one of its keys for whoever may go on.
    fn wake_behind(&self, mark: &Mark, place: u32, woken: &mut Places) -> Result<(), AllocError>
        ensures has { OnOk result (((j : ℕ) → is_in j woken.new.items.items ≡ ((is_in j (next_in place mark.now.writes (queue_at self.now mark.now.key)) && wakes (marks_of self.now) (done_of self.now) (count_of self.now) place j) || is_in j woken.old.items.items))) }
        ensures wanting { OnErr result (Waking self.now place) }
    {
        for entry in self.queues.at(mark.key).iter() {
            if entry.place != place {
                self.wake(entry.place, place, woken)?;
                if entry.writes || !mark.writes {
                    return Ok(());
                }
            }
        }
        Ok(())
    }

    // Notes a place whose order, not done yet, waits for the one at the other place and for no other.
    fn wake(&self, waiting: u32, place: u32, woken: &mut Places) -> Result<(), AllocError>
        requires { (waiting < count_of self.now) × (done_of self.now waiting ≡ false) }
        ensures has { OnOk result (((j : ℕ) → is_in j woken.new.items.items ≡ ((is_in j (waiting ∷ []) && wakes (marks_of self.now) (done_of self.now) (count_of self.now) place j) || is_in j woken.old.items.items))) }
        ensures wanting { OnErr result (Waking self.now place) }
    {
        if self.is_clear(waiting, waiting) || !self.is_clear(waiting, place) {
            return Ok(());
        }
        woken.insert(waiting)
    }

    // Whether every earlier order that conflicts with the one at a place is done, or is the one at the other place. These two go
    // together as two numbers, since the second is a place itself, or one whose end is tried.
    fn is_clear(&self, place: u32, but: u32) -> bool
        ensures { result ≡ ready (marks_of self.now) (put but true (done_of self.now)) place }
    {
        self.marks
            .row(place as usize)
            .iter()
            .all(|mark| self.is_clear_at(mark, place, but))
    }

    // The same of those that it meets at one of its keys.
    fn is_clear_at(&self, mark: &Mark, place: u32, but: u32) -> bool
        ensures { result ≡ clear_in place but mark.now.writes (queue_at self.now mark.now.key) }
    {
        self.queues.at(mark.key).lets_pass(mark.writes, place, but)
    }
}
