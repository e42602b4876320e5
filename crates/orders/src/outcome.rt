// What an order comes to, worked out from the values that it has read. No Option: later outcomes are further cases.
#[derive(Clone, Copy, Debug, PartialEq, Eq)]
pub enum Outcome {
    // it writes no key
    Nothing,
    // it writes its write set: the value for each slot, and 0 past the last
    Writes([u32; 16]),
}
