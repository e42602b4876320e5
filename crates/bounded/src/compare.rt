// Two lists are equal where their items are, whatever lies behind these; a list shows its items.
ghost use Rattle.std.specs.Cmp.{on_equiv, on_per};
ghost use Rattle.std.specs.Cmp.Lexicographic.{pointwise, lists_per, lists_equiv};
ghost use Rattle.bounded.specs.Items.{items_of};

use crate::Bounded;
use std::fmt;

impl<T: Copy + PartialEq, const N: usize> PartialEq for Bounded<T, N> {
    ghost eq = { λ a b. pointwise T.eq (items_of a) (items_of b) };

    ghost laws = { on_per items_of (lists_per T.laws) };

    fn eq(&self, other: &Self) -> bool {
        self.as_slice() == other.as_slice()
    }
}

impl<T: Copy + Eq, const N: usize> Eq for Bounded<T, N> {
    ghost laws = { on_equiv items_of (lists_equiv T.Eq.laws) };
}

impl<T: Copy + fmt::Debug, const N: usize> fmt::Debug for Bounded<T, N> {
    fn fmt<W: fmt::Write>(&self, f: &mut fmt::Formatter<W>) -> fmt::Result {
        f.debug_list().entries(self.as_slice()).finish()
    }
}
