// How an order touches a key of the house.

// One key of an order: the order reads it, or it writes it. A bool, since a reader and a writer differ in just what a queue asks:
// whether either of two writes.
#[derive(Clone, Copy, Debug, Default, PartialEq, Eq)]
pub struct Mark {
    pub key: u16,
    pub writes: bool,
}

// An undone order in the queue of a key; `writes` is a bool as in `Mark`.
#[derive(Clone, Copy, Debug, PartialEq, Eq)]
pub struct Entry {
    pub place: u32,
    pub writes: bool,
}
