// What an order comes to: its instructions, run on the values that it has read.
#![tactic(auto)]

ghost use Rattle.std.specs.Prelude.{◌≡◌, ℕ, ◌*◌, ◌%◌, ◌^◌, ◌≤◌, true, List, ◌∷◌, map, length};
ghost use Rattle.orders.specs.Contents.{contents_of, keys_of};
ghost use Rattle.orders.specs.Effect.{OnlyReads, OnlyWrites};
ghost use Rattle.orders.specs.Meaning.{padded, run_from, outcome_of};
ghost use Rattle.orders.specs.Transaction.{lookup};
ghost use Rattle.orders.specs.Valid.{fits, all_fit};
ghost use Rattle.orders.specs.declared.instruction.Instruction.{Instruction as Step};
ghost use Rattle.interpreter.specs.Flow.{ZerosGiven, goes_on, executed, ended_by};

use orders::{Instruction, KeySet, Order, Outcome};

// A run of an order: its registers, and what it will write to each slot unless it aborts.
#[derive(Drop)]
struct Interpreter {
    registers: [u32; 32],
    written: [u32; 16],
}

// How an order ends, where what it writes stands beside.
#[derive(Clone, Copy, Debug, PartialEq, Eq)]
pub enum Ending {
    Writes,
    Nothing,
}

// Runs the order on the values of its read set, in the order of its keys. A value that is not given is 0.
pub fn run(order: &Order, values: &[u32]) -> Outcome
    ensures { result ≡ outcome_of (contents_of order.now) values.now }
{
    let mut run = Interpreter::new(order.read_set(), order.write_set(), values);
    match run.execute(order.code()) {
        Some(()) => Outcome::Writes(run.written),
        None => Outcome::Nothing,
    }
}

// The same in place, from registers that have the values and then zeros.
pub fn run_in(order: &Order, registers: &mut [u32; 32], written: &mut [u32; 16]) -> Ending
    ensures { (vs : List ℕ) → registers.old ≡ padded 32 vs → outcome_of (contents_of order.now) vs ≡ ended_by result written.new }
{
    let mut place = Interpreter::new(order.read_set(), order.write_set(), registers);
    let came = place.execute(order.code());
    *registers = place.registers;
    *written = place.written;
    match came {
        Some(()) => Ending::Writes,
        None => Ending::Nothing,
    }
}

// Claims about every transaction, with nothing to run: it depends on its read set alone, and leaves every key outside its write set as it was.
// Of an order also that it comes to the same from registers that have the values and then zeros.
pub fn effects_are_local()
    ensures only_reads { OnlyReads }
    ensures only_writes { OnlyWrites }
    ensures zeros { ZerosGiven }
{}

impl Interpreter {
    // Where an order starts: the values read, then zeros, and each key written as it was read.
    fn new(reads: &KeySet, writes: &KeySet, values: &[u32]) -> Interpreter
        ensures registers { result.registers ≡ padded 32 values.now }
        ensures written { result.written ≡ padded 16 (map (λ k. lookup (keys_of reads.now) values.now k 0) (keys_of writes.now)) }
    {
        // in place: arrays that are handed back by value are copied
        let mut run = Interpreter {
            registers: [0; 32],
            written: [0; 16],
        };
        load(values, &mut run.registers);
        unsaid(reads, writes, values, &mut run.written);
        run
    }

    // Runs some instructions; none where one of them aborts.
    fn execute(&mut self, code: &[Instruction]) -> Option<()>
        requires { all_fit 16 code.now ≡ true }
        ensures { run_from 0 code.now self.old.registers self.old.written ≡ executed result self.new.written }
    {
        let mut rest = code;
        while let Some((instruction, after)) = rest.split_first() {
            let skipped = usize::from(self.step(instruction)?);
            rest = &after[skipped.min(after.len())..];
        }
        Some(())
    }

    // One instruction: how many behind it are passed over; none where it aborts.
    #[tactic(auto, unfolding(orders::specs::Meaning::run_from))]
    fn step(&mut self, instruction: &Instruction) -> Option<u8>
        requires { fits 16 instruction.now ≡ true }
        ensures { (rest : List Step) → run_from 0 (instruction.now ∷ rest) self.old.registers self.old.written ≡ goes_on result rest self.new.registers self.new.written }
    {
        let registers = &mut self.registers;
        match *instruction {
            Instruction::Add { to, left, right } => {
                let (left, right) = (registers[left as usize], registers[right as usize]);
                registers[to as usize] = left.wrapping_add(right);
            }
            Instruction::Subtract { to, left, right } => {
                let (left, right) = (registers[left as usize], registers[right as usize]);
                registers[to as usize] = left.wrapping_sub(right);
            }
            Instruction::Multiply { to, left, right } => {
                let (left, right) = (registers[left as usize], registers[right as usize]);
                registers[to as usize] = multiplied(left, right);
            }
            Instruction::Divide { to, left, right } => {
                let (left, right) = (registers[left as usize], registers[right as usize]);
                registers[to as usize] = left.checked_div(right).unwrap_or(0);
            }
            Instruction::Set { to, number } => registers[to as usize] = number,
            Instruction::SkipIfBelow { left, right, count } => {
                if registers[left as usize] < registers[right as usize] {
                    return Some(count);
                }
            }
            Instruction::Write { slot, from } => {
                self.written[slot as usize] = registers[from as usize];
            }
            Instruction::Abort => return None,
        }
        Some(0)
    }
}

// The product, worked out in 64 bits before it is cut to 32: a form that this project wants (docs/DECISIONS.md), so no `wrapping_mul`.
fn multiplied(left: u32, right: u32) -> u32
    ensures { result ≡ left * right % 2 ^ 32 }
{
    let product = u64::from(left) * u64::from(right);
    (product % (1 << 32)) as u32
}

// The registers at the start: the values read, then zeros.
fn load(values: &[u32], registers: &mut [u32; 32])
    ensures { registers.new ≡ padded 32 values.now }
{
    *registers = [0; 32];
    // where nothing was read there is no call either
    if !values.is_empty() {
        let len = values.len().min(32);
        registers[0..len].copy_from_slice(&values[0..len]);
    }
}

// What is written to each key before an instruction says otherwise: what was read there, and 0 where it was not read.
fn unsaid(reads: &KeySet, writes: &KeySet, values: &[u32], written: &mut [u32; 16])
    ensures { written.new ≡ padded 16 (map (λ k. lookup (keys_of reads.now) values.now k 0) (keys_of writes.now)) }
{
    *written = [0; 16];
    // where nothing was read there is nothing to look for
    if values.is_empty() {
        return;
    }
    let mut read = reads.cursor(values);
    for (i, key) in writes.as_slice().iter().enumerate() {
        written[i] = read.seek(*key).unwrap_or(0);
    }
}
