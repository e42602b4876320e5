// An order that is done.
ghost use Rattle.std.specs.Prelude.{◌≡◌, true, slice_set};

use super::Turns;

impl Turns {
    // The order at a place is done: it leaves the queues. Nothing where there is no order.
    pub fn finish(&mut self, place: u32)
        ensures done { self.new.done.items ≡ slice_set self.old.done.items place true }
        ensures marks { self.new.marks ≡ self.old.marks }
    {
        let at = place as usize;
        if at < self.done.len() {
            self.queues.leave(self.marks.row(at), place);
            self.done[at] = true;
        }
    }
}
