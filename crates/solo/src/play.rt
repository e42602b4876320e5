// Plays a script on a house. A line of the script gets a line of answer, but for empty ones.
ghost use Rattle.std.specs.Prelude.{◌<◌, ◌≤◌, length};

use crate::script::Command;
use ledger::{Note, Refusal};
use line::Frames;
use orders::{Order, Outcome};
use shard::{House, Task};
use std::alloc::Global;
use std::io;
use std::io::Write;
use std::iter::Peekable;

// Where the answers go, and what the house has had of the log. The house is no field: a look or a write takes it and hands it back.
#[derive(Drop)]
struct Player<'o, 'a, W> {
    out: &'o mut W,
    // the orders that are still to come
    log: Peekable<Frames<'a>>,
    // those that the house has
    given: Vec<&'a [u8]>,
}

pub fn play<W: Write>(
    out: &mut W,
    heap: Global,
    house: House,
    log: &[u8],
    script: &[u8],
) -> io::Result<()> {
    let mut player = Player {
        out,
        log: Frames::new(log).peekable(),
        given: Vec::new(heap),
    };
    let mut house = house;
    let mut number: u64 = 1;
    let mut rest = script;
    // breaks are passed over in one go: there can be as many empty lines as the script has bytes
    while let Some(start) = rest.iter().position(|byte| *byte != b'\n') {
        number += start as u64;
        let end = line_end(rest, start);
        match Command::parse(&rest[start..end]) {
            Some(command) => house = player.obey(house, command)?,
            None => writeln!(player.out, "line {number}: not understood")?,
        }
        rest = &rest[end..];
    }
    Ok(())
}

// Where the line ends that has a byte at a place.
fn line_end(text: &[u8], place: usize) -> usize
    requires { place < length text.now }
    ensures { (place < result) × (result ≤ length text.now) }
{
    let breaks = text[place + 1..].iter().position(|byte| *byte == b'\n');
    breaks.map_or(text.len(), |more| place + 1 + more)
}

impl<'o, 'a, W: Write> Player<'o, 'a, W> {
    fn obey(&mut self, mut house: House, command: Command) -> io::Result<House> {
        match command {
            Command::Look(place) => return self.look(house, place),
            Command::Write(place) => return self.write(house, place),
            Command::Order => self.order(&mut house)?,
            Command::Told {
                from,
                place,
                values,
            } => self.told(&mut house, from, place, &values)?,
            Command::Ready => self.ready(&house)?,
            Command::Go(most) => self.go(&mut house, most)?,
            Command::Show(key) => self.show(&house, key)?,
        }
        Ok(house)
    }

    fn order(&mut self, house: &mut House) -> io::Result<()> {
        let Some(order) = self.log.peek().copied() else {
            return writeln!(self.out, "refused: no more orders");
        };
        if self.given.reserve(1).is_err() {
            return self.refused(Refusal::Memory);
        }
        match house.append(order) {
            Ok(place) => {
                self.log.next();
                self.given.push(order)?;
                writeln!(self.out, "order {place}")
            }
            Err(refusal) => self.refused(refusal),
        }
    }

    fn look(&mut self, house: House, place: u32) -> io::Result<House> {
        match house.look(place) {
            Ok((house, note)) => {
                self.print_note(place, &note)?;
                Ok(house)
            }
            Err((house, refusal)) => {
                self.refused(refusal)?;
                Ok(house)
            }
        }
    }

    fn print_note(&mut self, place: u32, note: &Note) -> io::Result<()> {
        write!(self.out, "looked {place}:")?;
        for value in note.as_slice() {
            write!(self.out, " {value}")?;
        }
        writeln!(self.out, "")
    }

    fn write(&mut self, house: House, place: u32) -> io::Result<House> {
        match house.write(place) {
            Ok((house, Outcome::Nothing)) => {
                writeln!(self.out, "wrote {place}: nothing")?;
                Ok(house)
            }
            Ok((house, Outcome::Writes(_))) => {
                let order = self.order_of(place);
                self.print_written(&house, place, &order)?;
                Ok(house)
            }
            Err((house, refusal)) => {
                self.refused(refusal)?;
                Ok(house)
            }
        }
    }

    // The order at a place; one that does nothing where the house has none or it is malformed.
    fn order_of(&self, place: u32) -> Order {
        let bytes = self.given.get(place as usize).copied();
        bytes
            .and_then(|bytes| Order::decode(bytes).ok())
            .unwrap_or_else(|| Order::idle())
    }

    // The house's own among the keys that an order writes, and what stands there now.
    fn print_written(&mut self, house: &House, place: u32, order: &Order) -> io::Result<()> {
        write!(self.out, "wrote {place}:")?;
        for key in order.writes() {
            if let Some(value) = house.ledger().value(*key) {
                write!(self.out, " {key}={value}")?;
            }
        }
        writeln!(self.out, "")
    }

    fn told(&mut self, house: &mut House, from: u8, place: u32, values: &Note) -> io::Result<()> {
        match house.hear(from, place, values.as_slice()) {
            Ok(()) => writeln!(self.out, "kept"),
            Err(refusal) => self.refused(refusal),
        }
    }

    fn ready(&mut self, house: &House) -> io::Result<()> {
        match house.ready() {
            Ok(tasks) => self.print_tasks("ready:", tasks.as_slice()),
            Err(_) => self.refused(Refusal::Memory),
        }
    }

    // A want of memory on the way has a line of its own.
    fn go(&mut self, house: &mut House, most: u32) -> io::Result<()> {
        let went = house.go(most as usize);
        self.print_tasks("did:", went.done.as_slice())?;
        match went.refusal {
            None => Ok(()),
            Some(refusal) => self.refused(refusal),
        }
    }

    // The words are answers of this program, so a task has no Display.
    fn print_tasks(&mut self, name: &str, tasks: &[Task]) -> io::Result<()> {
        write!(self.out, "{name}")?;
        for task in tasks {
            match task {
                Task::Look(place) => write!(self.out, " look {place}")?,
                Task::Write(place) => write!(self.out, " write {place}")?,
            }
        }
        writeln!(self.out, "")
    }

    fn show(&mut self, house: &House, key: u16) -> io::Result<()> {
        match house.ledger().value(key) {
            Some(value) => writeln!(self.out, "{key} {value}"),
            None => writeln!(self.out, "refused: not a key of this house"),
        }
    }

    fn refused(&mut self, refusal: Refusal) -> io::Result<()> {
        match refusal.number() {
            Some(number) => writeln!(self.out, "refused {number}"),
            None => writeln!(self.out, "refused: out of memory"),
        }
    }
}
