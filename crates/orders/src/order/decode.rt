// An order from its bytes.
ghost use Rattle.std.specs.Prelude.{◌≡◌, ℕ, List, [], ◌∷◌, IfNone, MatchResult, OnErr, ◌≢◌};
ghost use Rattle.std.specs.Option.{option_map};
ghost use Rattle.std.specs.Result.{result_ok};
ghost use Rattle.bounded.specs.Items.{items_of};
ghost use Rattle.orders.specs.Contents.{contents_of, keys_of, nothing};
ghost use Rattle.orders.specs.Refusals.{number_of};
ghost use Rattle.orders.specs.Codec.{Read, encoded, decoded, list_in, keys_in, key_in, instruction_in, any_in};

use super::parts::{rises, suits};
use super::{KeySet, Order};
use crate::instruction::Instruction;
use crate::refusal::Refusal;
use bounded::Bounded;

impl Order {
    // The order that the bytes encode, refused where they encode none.
    pub fn decode(bytes: &[u8]) -> Result<Order, Refusal>
        ensures finds { decoded bytes.now ≡ option_map contents_of (result_ok result) }
        ensures encodes { MatchResult result (λ o. encoded (contents_of o) ≡ bytes.now) (λ e. (number_of e ≡ 1) × ((o : Order) → encoded (contents_of o) ≢ bytes.now)) }
    {
        let mut order = Order::idle();
        order.decode_into(bytes)?;
        Ok(order)
    }

    // The same in place, for a caller that decodes many; refused, the order is idle.
    pub fn decode_into(&mut self, bytes: &[u8]) -> Result<(), Refusal>
        ensures finds { decoded bytes.now ≡ option_map (λ _. contents_of self.new) (result_ok result) }
        ensures encodes { MatchResult result (λ _. encoded (contents_of self.new) ≡ bytes.now) (λ e. (number_of e ≡ 1) × ((o : Order) → encoded (contents_of o) ≢ bytes.now)) }
        ensures idles { OnErr result (contents_of self.new ≡ nothing) }
    {
        if self.take_in(bytes).is_none() {
            self.reads.clear();
            self.writes.clear();
            self.code.clear();
            return Err(Refusal::Malformed);
        }
        Ok(())
    }

    // Reads the order; where the bytes encode none, the order is then any one.
    fn take_in(&mut self, bytes: &[u8]) -> Option<()>
        ensures { decoded bytes.now ≡ option_map (λ _. contents_of self.new) result }
    {
        self.code.clear();
        let rest = self.reads.take_in(bytes)?;
        let rest = self.writes.take_in(rest)?;
        let instructions = Instructions {
            writes: self.writes.as_slice().len(),
        };
        let rest = read_list(&instructions, rest, &mut self.code)?;
        rest.is_empty().then_some(())
    }
}

impl KeySet {
    // Reads the keys behind their count, which it then has: the bytes that follow.
    fn take_in<'a>(&mut self, bytes: &'a [u8]) -> Option<&'a [u8]>
        ensures { option_map (λ rest. (keys_of self.new, rest.now)) result ≡ keys_in bytes.now }
    {
        let rest = read_list(&Keys, bytes, &mut self.keys)?;
        if !rises(self.keys.as_slice()) {
            self.keys.clear();
            return None;
        }
        Some(rest)
    }
}

// How one item of a list is read from the front of some bytes: the item, and the bytes that follow.
trait Reader {
    type Item;

    ghost reads: { Self → List ℕ → Read Self.Item };

    fn read<'a>(&self, bytes: &'a [u8]) -> Option<(Self::Item, &'a [u8])>
        ensures { option_map (λ p. (p.0, p.1.now)) result ≡ reads self.now bytes.now };
}

// The keys of a set.
#[derive(Drop)]
struct Keys;

impl Reader for Keys {
    type Item = u16;

    ghost reads = { λ _. key_in };

    fn read<'a>(&self, bytes: &'a [u8]) -> Option<(u16, &'a [u8])> {
        let [high, low, rest @ ..] = bytes else {
            return None;
        };
        Some((u16::from_be_bytes([*high, *low]), rest))
    }
}

// The instructions of an order whose write set has so many keys.
#[derive(Drop)]
struct Instructions {
    writes: usize,
}

impl Reader for Instructions {
    type Item = Instruction;

    ghost reads = { λ r. instruction_in r.writes };

    fn read<'a>(&self, bytes: &'a [u8]) -> Option<(Instruction, &'a [u8])> {
        let (instruction, rest) = read_any(bytes)?;
        if !suits(instruction, self.writes) {
            return None;
        }
        Some((instruction, rest))
    }
}

// Reads at most N items behind their count, which the list then has: the bytes that follow. Where there are none, the list
// is empty.
fn read_list<'a, R: Reader, const N: usize>(
    reader: &R,
    bytes: &'a [u8],
    list: &mut Bounded<R::Item, N>,
) -> Option<&'a [u8]>
where
    R::Item: Copy,
    ensures is { option_map (λ rest. (items_of list.new, rest.now)) result ≡ list_in N (R.reads reader.now) bytes.now }
    ensures none { IfNone result (items_of list.new ≡ []) }
{
    list.clear();
    let [count, rest @ ..] = bytes else {
        return None;
    };
    let rest = read_items(reader, *count, rest, list);
    if rest.is_none() {
        list.clear();
    }
    rest
}

// Reads so many items: the bytes that follow; none where there are more than N.
fn read_items<'a, R: Reader, const N: usize>(
    reader: &R,
    count: u8,
    bytes: &'a [u8],
    list: &mut Bounded<R::Item, N>,
) -> Option<&'a [u8]>
where
    R::Item: Copy,
    ensures { option_map (λ rest. (items_of list.new, rest.now)) result ≡ list_in N (R.reads reader.now) (count ∷ bytes.now) }
{
    let len = usize::from(count);
    // before any item is read: a count alone refuses an order
    if len > N {
        return None;
    }
    let mut rest = bytes;
    // not by `push`: where the length is not written for each, several keys are read at once
    for i in 0..len {
        let (item, after) = reader.read(rest)?;
        list.write_at(i, item)?;
        rest = after;
    }
    list.set_len(len)?;
    Some(rest)
}

// The instruction at the front of the bytes, whether it suits an order or not, and the bytes that follow.
fn read_any<'a>(bytes: &'a [u8]) -> Option<(Instruction, &'a [u8])>
    ensures { option_map (λ p. (p.0, p.1.now)) result ≡ any_in bytes.now }
{
    let &[kind, ref numbers @ ..] = bytes else {
        return None;
    };
    match (kind, numbers) {
        (1, &[to, left, right, ref rest @ ..]) => Some((
            Instruction::Add { to, left, right },
            rest,
        )),
        (2, &[to, left, right, ref rest @ ..]) => Some((
            Instruction::Subtract { to, left, right },
            rest,
        )),
        (3, &[to, left, right, ref rest @ ..]) => Some((
            Instruction::Multiply { to, left, right },
            rest,
        )),
        (4, &[to, left, right, ref rest @ ..]) => Some((
            Instruction::Divide { to, left, right },
            rest,
        )),
        (5, &[to, a, b, c, d, ref rest @ ..]) => {
            let number = u32::from_be_bytes([a, b, c, d]);
            Some((Instruction::Set { to, number }, rest))
        }
        (6, &[left, right, count, ref rest @ ..]) => Some((
            Instruction::SkipIfBelow { left, right, count },
            rest,
        )),
        (7, &[slot, from, ref rest @ ..]) => Some((Instruction::Write { slot, from }, rest)),
        (8, rest) => Some((Instruction::Abort, rest)),
        _ => None,
    }
}
