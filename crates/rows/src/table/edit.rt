// The calls of rows.
ghost use Rattle.std.specs.Prelude.{◌≡◌, ◌<◌, ◌≤◌, true, [], ◌∷◌, ◌++◌, length, is_ok, vec_len, IfNone, IfSome, MatchResult, OnErr, OnOk, slice_index, slice_index_or, slice_set};
ghost use Rattle.rows.specs.Lists.{rows_of, Room, Wanting};

use super::Rows;
use std::alloc::{AllocError, Global};

impl<T: Copy + Drop> Rows<T> {
    #[tactic(auto, unfolding(crate::specs::Ends::parted))]
    pub fn new(heap: Global) -> Rows<T>
        ensures { rows_of result ≡ [] }
    {
        Rows {
            items: Vec::new(heap),
            ends: Vec::new(heap),
        }
    }

    // How many rows there are.
    #[tactic(auto, using(crate::proofs::Block::length_rows))]
    pub fn len(&self) -> usize
        ensures { result ≡ length (rows_of self.now) }
    {
        self.ends.len()
    }

    // Room for one row more, of so many items.
    pub fn reserve(&mut self, count: usize) -> Result<(), AllocError>
        ensures same { rows_of self.new ≡ rows_of self.old }
        ensures room { OnOk result (Room self.new count) }
        ensures wanting { OnErr result (Wanting self.old count) }
    {
        self.ends.reserve(1)?;
        self.items.reserve(count)
    }

    // One row more, behind the others. For want of memory nothing changes.
    pub fn push(&mut self, row: &[T]) -> Result<(), AllocError>
        ensures pushed { MatchResult result (λ _. rows_of self.new ≡ rows_of self.old ++ row.now ∷ []) (λ _. rows_of self.new ≡ rows_of self.old) }
        ensures wanting { OnErr result (Wanting self.old (length row.now)) }
        ensures succeeds { Room self.old (length row.now) → is_ok result ≡ true }
    {
        self.ends.reserve(1)?;
        self.items.extend_from_slice(row)?;
        let end = self.items.len();
        self.ends.push_reserved(end);
        Ok(())
    }

    // The row at an index; empty where there is none.
    pub fn row(&self, index: usize) -> &[T]
        ensures { result.now ≡ slice_index_or (rows_of self.now) index [] }
    {
        let Some((start, end)) = self.bounds(index) else {
            return &[];
        };
        &self.items[start..end]
    }

    // Overwrites one item of a row; nothing where there is no such item.
    pub fn set(&mut self, index: usize, at: usize, item: T)
        ensures { rows_of self.new ≡ slice_set (rows_of self.old) index (slice_set (slice_index_or (rows_of self.old) index []) at item) }
    {
        let Some((start, end)) = self.bounds(index) else {
            return;
        };
        if at < end - start {
            self.items[start + at] = item;
        }
    }

    // Where in the block the row at an index begins and ends; none where there is no such row.
    fn bounds(&self, index: usize) -> Option<(usize, usize)>
        ensures none { IfNone result (vec_len self.now.ends ≤ index) }
        ensures is { IfSome result (λ b. (index < vec_len self.now.ends) × (b.0 ≡ slice_index (0 ∷ self.now.ends.items) index) × (b.1 ≡ slice_index self.now.ends.items index)) }
        ensures within { IfSome result (λ b. (b.0 ≤ b.1) × (b.1 ≤ vec_len self.now.items)) }
    {
        let end = *self.ends.get(index)?;
        Some((self.start(index), end))
    }

    fn start(&self, index: usize) -> usize
        requires { index ≤ vec_len self.now.ends }
        ensures { result ≡ slice_index (0 ∷ self.now.ends.items) index }
    {
        if index == 0 { 0 } else { self.ends[index - 1] }
    }
}
