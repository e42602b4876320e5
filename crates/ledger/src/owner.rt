// A house as the owner of keys.
ghost use Rattle.std.specs.Prelude.{◌≡◌, ◌+◌, ◌<◌, ◌≤◌, true, false, ◌++◌, length, MatchOption};
ghost use Rattle.bounded.specs.Items.{items_of};
ghost use Rattle.orders.specs.Contents.{contents_of, keys_of};
ghost use Rattle.ledger.specs.Own.{owns, own_marks, own_count};

use bounded::Bounded;
use orders::{KeySet, Order};
use turns::Mark;

// There are houses 0 to 15.
#[derive(Clone, Copy, Debug, PartialEq, Eq)]
pub struct Owner {
    number: u8,
    ghost housed: { number < 16 },
}

impl Owner {
    // The house with a number; none where there is no such house.
    pub fn new(number: u8) -> Option<Owner>
        ensures { MatchOption result (16 ≤ number) (λ o. o.number ≡ number) }
    {
        if number >= 16 {
            return None;
        }
        Some(Owner { number })
    }

    pub fn number(self) -> u8
        ensures { result ≡ self.number }
    {
        self.number
    }

    // Whether a key belongs to the house.
    pub fn owns(self, key: u16) -> bool
        ensures { result ≡ owns self.number key }
    {
        key % 16 == u16::from(self.number)
    }

    // How many of the keys belong to the house.
    pub fn count(self, keys: &KeySet) -> usize
        ensures { result ≡ own_count self.number (keys_of keys.now) }
    {
        let own = keys.as_slice().iter().filter(|key| self.owns(**key));
        own.count()
    }

    // What an order touches of the house: the keys that it writes, then those that it reads.
    pub fn marks(self, order: &Order) -> Bounded<Mark, 32>
        ensures { items_of result ≡ own_marks true self.number (contents_of order.now).writes ++ own_marks false self.number (contents_of order.now).reads }
    {
        let mut marks = Bounded::new();
        self.mark(order.write_set(), true, &mut marks);
        self.mark(order.read_set(), false, &mut marks);
        marks
    }

    // Puts a mark for each of the keys that belong to the house behind the marks that are there already.
    fn mark(self, keys: &KeySet, writes: bool, marks: &mut Bounded<Mark, 32>)
        requires { length (items_of marks.old) ≤ 16 }
        ensures marks { items_of marks.new ≡ items_of marks.old ++ own_marks writes self.number (keys_of keys.now) }
        ensures few { length (items_of marks.new) ≤ length (items_of marks.old) + 16 }
    {
        for key in keys.as_slice() {
            if self.owns(*key) {
                let _ = marks.push(Mark { key: *key, writes });
            }
        }
    }
}
