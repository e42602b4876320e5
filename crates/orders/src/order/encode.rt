// The bytes of an order.
ghost use Rattle.std.specs.Prelude.{◌≡◌, ℕ, ◌<◌, List, ◌++◌, length, IfOk, Some, OnOk};
ghost use Rattle.orders.specs.Codec.{two, counted, encoded, decoded, instruction_bytes};
ghost use Rattle.orders.specs.Contents.{contents_of};

use super::Order;
use crate::instruction::Instruction;
use std::alloc::{AllocError, Global};

impl Order {
    // The bytes of the order, from which it is decoded again.
    pub fn encode(&self, heap: Global) -> Result<Vec<u8>, AllocError>
        ensures { IfOk result (λ v. (v.items ≡ encoded (contents_of self.now)) × (decoded v.items ≡ Some (contents_of self.now))) }
    {
        let mut out = Vec::new(heap);
        write_list(&mut out, self.reads())?;
        write_list(&mut out, self.writes())?;
        write_list(&mut out, self.code())?;
        Ok(out)
    }
}

// How one item of a list is written.
trait Written: Copy {
    ghost bytes: { Self → List ℕ };

    fn write(self, out: &mut Vec<u8>) -> Result<(), AllocError>
        ensures { OnOk result (out.new.items ≡ out.old.items ++ bytes self) };
}

impl Written for u16 {
    ghost bytes = { two };

    fn write(self, out: &mut Vec<u8>) -> Result<(), AllocError> {
        out.extend_from_slice(&self.to_be_bytes())
    }
}

impl Written for Instruction {
    ghost bytes = { instruction_bytes };

    fn write(self, out: &mut Vec<u8>) -> Result<(), AllocError> {
        match self {
            Instruction::Add { to, left, right } => out.extend_from_slice(&[1, to, left, right]),
            Instruction::Subtract { to, left, right } => out.extend_from_slice(&[
                2, to, left, right,
            ]),
            Instruction::Multiply { to, left, right } => out.extend_from_slice(&[
                3, to, left, right,
            ]),
            Instruction::Divide { to, left, right } => out.extend_from_slice(&[4, to, left, right]),
            Instruction::Set { to, number } => {
                let [a, b, c, d] = number.to_be_bytes();
                out.extend_from_slice(&[5, to, a, b, c, d])
            }
            Instruction::SkipIfBelow { left, right, count } => out.extend_from_slice(&[
                6, left, right, count,
            ]),
            Instruction::Write { slot, from } => out.extend_from_slice(&[7, slot, from]),
            Instruction::Abort => out.extend_from_slice(&[8]),
        }
    }
}

// The items behind their count.
fn write_list<T: Written>(out: &mut Vec<u8>, items: &[T]) -> Result<(), AllocError>
    requires { length items.now < 256 }
    ensures { OnOk result (out.new.items ≡ out.old.items ++ counted T.bytes items.now) }
{
    out.push(items.len() as u8)?;
    for item in items {
        item.write(out)?;
    }
    Ok(())
}
