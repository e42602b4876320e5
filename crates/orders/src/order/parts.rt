// Orders and key sets from their parts, and the parts again.
ghost use Rattle.std.specs.Prelude.{◌≡◌, ◌≤◌, true, false, [], length, MatchOption, MatchResult};
ghost use Rattle.orders.specs.Contents.{contents_of, keys_of, key_set, nothing, valid};
ghost use Rattle.orders.specs.Refusals.{number_of};
ghost use Rattle.orders.specs.Valid.{rising, three, fits, all_fit};

use super::{KeySet, Order};
use crate::instruction::Instruction;
use crate::refusal::Refusal;
use bounded::Bounded;

impl KeySet {
    // The set of these keys; none where they are too many or do not rise.
    pub fn new(list: &[u16]) -> Option<KeySet>
        ensures { MatchOption result (key_set list.now ≡ false) (λ s. keys_of s ≡ list.now) }
    {
        let keys = Bounded::from_slice(list)?;
        if !rises(list) {
            return None;
        }
        Some(KeySet { keys })
    }

    pub fn none() -> KeySet
        ensures { keys_of result ≡ [] }
    {
        KeySet {
            keys: Bounded::new(),
        }
    }

    pub fn clear(&mut self)
        ensures { keys_of self.new ≡ [] }
    {
        self.keys.clear();
    }

    pub fn as_slice(&self) -> &[u16]
        ensures is { result.now ≡ keys_of self.now }
        ensures few { length result.now ≤ 16 }
        ensures rises { rising 0 result.now ≡ true }
    {
        self.keys.as_slice()
    }
}

impl Order {
    // An order that reads, writes and does nothing.
    pub fn idle() -> Order
        ensures { contents_of result ≡ nothing }
    {
        Order {
            reads: KeySet::none(),
            writes: KeySet::none(),
            code: Bounded::new(),
        }
    }

    // The order with these keys and instructions, refused where there is no such order.
    pub fn new(reads: &[u16], writes: &[u16], code: &[Instruction]) -> Result<Order, Refusal>
        ensures { MatchResult result (λ o. ((contents_of o).reads ≡ reads.now) × ((contents_of o).writes ≡ writes.now) × ((contents_of o).code ≡ code.now)) (λ e. (number_of e ≡ 1) × (valid (record { reads = reads.now; writes = writes.now; code = code.now }) ≡ false)) }
    {
        let reads = KeySet::new(reads).ok_or(Refusal::Malformed)?;
        let writes = KeySet::new(writes).ok_or(Refusal::Malformed)?;
        // first, so that no longer list is gone through
        let instructions = Bounded::from_slice(code).ok_or(Refusal::Malformed)?;
        if !all_suit(code, writes.as_slice().len()) {
            return Err(Refusal::Malformed);
        }
        Ok(Order {
            reads,
            writes,
            code: instructions,
        })
    }

    pub fn read_set(&self) -> &KeySet
        ensures { keys_of result.now ≡ (contents_of self.now).reads }
    {
        &self.reads
    }

    pub fn write_set(&self) -> &KeySet
        ensures { keys_of result.now ≡ (contents_of self.now).writes }
    {
        &self.writes
    }

    pub fn reads(&self) -> &[u16]
        ensures is { result.now ≡ (contents_of self.now).reads }
        ensures few { length result.now ≤ 16 }
        ensures rises { rising 0 result.now ≡ true }
    {
        self.reads.as_slice()
    }

    pub fn writes(&self) -> &[u16]
        ensures is { result.now ≡ (contents_of self.now).writes }
        ensures few { length result.now ≤ 16 }
        ensures rises { rising 0 result.now ≡ true }
    {
        self.writes.as_slice()
    }

    pub fn code(&self) -> &[Instruction]
        ensures is { result.now ≡ (contents_of self.now).code }
        ensures few { length result.now ≤ 64 }
        ensures fit { all_fit (length (contents_of self.now).writes) result.now ≡ true }
    {
        self.code.as_slice()
    }
}

fn all_suit(code: &[Instruction], writes: usize) -> bool
    ensures { result ≡ all_fit writes code.now }
{
    code.iter().all(|instruction| suits(*instruction, writes))
}

pub fn rises(list: &[u16]) -> bool
    ensures { result ≡ rising 0 list.now }
{
    list.is_sorted_by(|low, high| low < high)
}

// Whether the registers of an instruction exist, and its slot in a write set of so many keys.
pub fn suits(instruction: Instruction, writes: usize) -> bool
    ensures { result ≡ fits writes instruction }
{
    match instruction {
        Instruction::Add { to, left, right }
        | Instruction::Subtract { to, left, right }
        | Instruction::Multiply { to, left, right }
        | Instruction::Divide { to, left, right } => three_exist(to, left, right),
        Instruction::Set { to, number: _ } => to < 32,
        Instruction::SkipIfBelow {
            left,
            right,
            count: _,
        } => left < 32 && right < 32,
        Instruction::Write { slot, from } => usize::from(slot) < writes && from < 32,
        Instruction::Abort => true,
    }
}

// Whether three registers exist.
fn three_exist(a: u8, b: u8, c: u8) -> bool
    ensures { result ≡ three a b c }
{
    a < 32 && b < 32 && c < 32
}
