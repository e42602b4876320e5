// One instruction of an order, over its thirty-two registers.
#[derive(Clone, Copy, Debug, Default, PartialEq, Eq)]
pub enum Instruction {
    // register `to` becomes the sum, cut to 32 bits
    Add { to: u8, left: u8, right: u8 },
    // register `to` becomes the difference, cut to 32 bits
    Subtract { to: u8, left: u8, right: u8 },
    // register `to` becomes the product, cut to 32 bits
    Multiply { to: u8, left: u8, right: u8 },
    // register `to` becomes the quotient rounded down, and 0 where register `right` is 0
    Divide { to: u8, left: u8, right: u8 },
    // register `to` becomes the number
    Set { to: u8, number: u32 },
    // where register `left` is below register `right`, the next `count` instructions are passed over
    SkipIfBelow { left: u8, right: u8, count: u8 },
    // register `from` will be written to the key at `slot` of the write set
    Write { slot: u8, from: u8 },
    // the order writes nothing, and no further instruction is done
    #[default]
    Abort,
}
