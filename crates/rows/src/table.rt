// The block, and where each row ends in it.
ghost use Rattle.std.specs.Prelude.{◌≡◌, true, vec_len};
ghost use Rattle.rows.specs.Ends.{rising};

mod edit;

// One block for all rows, and not a `Vec` for each: a row costs no allocation of its own.
#[derive(Drop)]
pub struct Rows<T> {
    items: Vec<T>,
    // for each row, how many items there are up to its end
    ends: Vec<usize>,
    // the ends rise, and the last one is the end of the block
    ghost held: { rising 0 ends.items (vec_len items) ≡ true },
}
