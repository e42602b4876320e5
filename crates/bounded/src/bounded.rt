// The list and its calls.
ghost use Rattle.std.specs.Prelude.{⊤, ◌≡◌, ◌<◌, ◌≤◌, ◌↔◌, [], ◌∷◌, ◌++◌, length, slice_set, IsSome, IfSome, OnSome, IfNone};

use std::alloc::AllocError;

// At most N items. It is Copy and is cleared by its length alone, as the kit's `ArrayVec` is not; it takes no memory from
// the heap, as a `Vec` would, so that reading one from bytes cannot run out of it.
pub struct Bounded<T, const N: usize> {
    items: [T; N],
    len: usize,
    ghost few: { len ≤ N },
}

// By hand: there is no derive for a generic struct with a ghost field.
impl<T: Copy, const N: usize> Copy for Bounded<T, N> {}

impl<T: Copy, const N: usize> Clone for Bounded<T, N> {
    ghost is_clone = { λ list copy. copy ≡ list };

    ghost is_infallible = { λ _. ⊤ };

    fn clone(&self) -> Result<Bounded<T, N>, AllocError> {
        Ok(*self)
    }
}

impl<T: Copy, const N: usize> Bounded<T, N> {
    ghost use Rattle.bounded.specs.Items.{items_of};

    // A list with no item.
    pub fn new() -> Bounded<T, N>
    where
        T: Default,
        ensures { items_of result ≡ [] }
    {
        Bounded {
            items: [T::default(); N],
            len: 0,
        }
    }

    // The list of these items; none where they are too many.
    pub fn from_slice(slice: &[T]) -> Option<Bounded<T, N>>
    where
        T: Default,
        ensures variant { IsSome result ↔ (length slice.now ≤ N) }
        ensures value { IfSome result (λ b. items_of b ≡ slice.now) }
    {
        let len = slice.len();
        if len > N {
            return None;
        }
        let mut items = [T::default(); N];
        items[..len].copy_from_slice(slice);
        Some(Bounded { items, len })
    }

    // One item more; none where it is full, and then it stays as it was.
    pub fn push(&mut self, item: T) -> Option<()>
        ensures variant { IsSome result ↔ (length (items_of self.old) < N) }
        ensures some { OnSome result (items_of self.new ≡ items_of self.old ++ item ∷ []) }
        ensures none { IfNone result (items_of self.new ≡ items_of self.old) }
    {
        let len = self.len;
        if len == N {
            return None;
        }
        self.items[len] = item;
        self.len = len + 1;
        Some(())
    }

    // An item at a place of the room, behind the items too; none where there is no such place. For who says once by `set_len`
    // how many items there are: `push` says it for each.
    pub fn write_at(&mut self, place: usize, item: T) -> Option<()>
        ensures variant { IsSome result ↔ (place < N) }
        ensures some { OnSome result (self.new.items ≡ slice_set self.old.items place item) }
        ensures none { IfNone result (self.new.items ≡ self.old.items) }
        ensures len { self.new.len ≡ self.old.len }
        ensures places { length self.old.items ≡ N }
    {
        if place >= N {
            return None;
        }
        self.items[place] = item;
        Some(())
    }

    // So many items, with what the room holds; none where it has not so many places, and then the list stays as it was.
    pub fn set_len(&mut self, count: usize) -> Option<()>
        ensures variant { IsSome result ↔ (count ≤ N) }
        ensures some { OnSome result (self.new.len ≡ count) }
        ensures none { IfNone result (self.new.len ≡ self.old.len) }
        ensures room { self.new.items ≡ self.old.items }
    {
        if count > N {
            return None;
        }
        self.len = count;
        Some(())
    }

    pub fn clear(&mut self)
        ensures { items_of self.new ≡ [] }
    {
        self.len = 0;
    }

    pub fn as_slice(&self) -> &[T]
        ensures is { result.now ≡ items_of self.now }
        ensures few { length result.now ≤ N }
    {
        &self.items[..self.len]
    }
}
