// `solo HOUSE LINE SCRIPT`: plays a script on one house.
#![tactic(auto)]

mod bench;
mod failure;
mod play;
mod script;

use bench::{Bench, peak};
use failure::{Failure, Reason, refused};
use play::play;
use program::{end, feed, read};
use script::number;
use shard::House;
use std::io::{BufWriter, Write};
use std::process::ExitCode;
use std::{env, fs};

const HELP: &str = "solo HOUSE LINE SCRIPT
solo --bench HOUSE LINE

Plays SCRIPT on the house HOUSE, a number from 0 to 15, whose orders come from
the log LINE. A script has one command a line, each answered by a line:

  order          the next order of the log comes in
  look P         looks for the order at place P
  write P        writes for the order at place P
  told G P V..   house G tells the values V of its keys for the order at place P
  ready          which looks and writes may be done now
  go N           does the first N of them
  show K         the value of key K

With --bench it takes the whole log, 1000 orders at a time, and each time does
all that it can. Prints 'orders N looks L writes W' and 'KEY VALUE' for each of
its keys whose value is not 0, and on standard error 'memory BYTES', the most
that it had.
";

fn main(rt: HostRuntime) -> ExitCode {
    end(&rt, "solo", run(&rt))
}

fn run(rt: &HostRuntime) -> Result<(), Failure> {
    let args: Vec<String> = env::args(rt)?.skip(1).collect(rt.alloc())?;
    match args.as_slice() {
        [word] if word.as_str() == "--help" => Ok(rt.print(HELP)?),
        [word, house, line] if word.as_str() == "--bench" => {
            measure(rt, house.as_str(), line.as_str())
        }
        [house, line, script] => solo(rt, house.as_str(), line.as_str(), script.as_str()),
        _ => Err(Failure::Own(Reason::Arguments)),
    }
}

fn solo(rt: &HostRuntime, house: &str, line: &str, script: &str) -> Result<(), Failure> {
    let house = new_house(rt, house)?;
    let log = read(rt, line)?;
    let script = read(rt, script)?;
    let mut out = BufWriter::new(rt.alloc(), rt.stdout())?;
    play(
        &mut out,
        rt.alloc(),
        house,
        log.as_slice(),
        script.as_slice(),
    )?;
    out.flush()?;
    Ok(())
}

fn new_house(rt: &HostRuntime, word: &str) -> Result<House, Failure> {
    match number(word.as_bytes()).and_then(|number| u8::try_from(number).ok()) {
        Some(number) if number < 16 => House::new(rt.alloc(), number).map_err(refused),
        _ => Err(Failure::Own(Reason::House)),
    }
}

fn measure(rt: &HostRuntime, house: &str, line: &str) -> Result<(), Failure> {
    let mut bench = Bench::new(rt.alloc(), new_house(rt, house)?);
    feed(rt, line, |piece| bench.push(piece).map_err(refused))?;
    bench.finish().map_err(refused)?;
    let mut out = BufWriter::new(rt.alloc(), rt.stdout())?;
    bench.print(&mut out)?;
    out.flush()?;
    print_memory(rt)
}

fn print_memory(rt: &HostRuntime) -> Result<(), Failure> {
    if let Ok(status) = fs::read(rt, "/proc/self/status") {
        if let Some(bytes) = peak(status.as_slice()) {
            eprintln!(rt; "memory {bytes}")?;
        }
    }
    Ok(())
}
