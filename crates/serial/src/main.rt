// `serial [FILE]`: does the orders of a log one by one and prints the values that they leave.
#![tactic(auto)]

mod failure;
mod row;

use failure::{Failure, Reason};
use line::{Execution, Store};
use orders::Refusal;
use program::{end, feed};
use row::spell;
use std::env;
use std::io::{BufWriter, Write};
use std::process::ExitCode;

const HELP: &str = "serial [FILE]

Does the orders of the log in FILE, by default the file 'line' of the working
directory, one by one, from keys that are all 0. Prints 'KEY VALUE' for each key
whose value is not 0, keys rising. On standard error: a line for each malformed
order, with its place and the number of its refusal, and how many were done.
";

fn main(rt: HostRuntime) -> ExitCode {
    end(&rt, "serial", run(&rt))
}

fn run(rt: &HostRuntime) -> Result<(), Failure> {
    let args: Vec<String> = env::args(rt)?.skip(1).collect(rt.alloc())?;
    match args.as_slice() {
        [] => serial(rt, "line"),
        [word] if word.as_str() == "--help" => Ok(rt.print(HELP)?),
        [path] => serial(rt, path.as_str()),
        _ => Err(Failure::Own(Reason::Arguments)),
    }
}

fn serial(rt: &HostRuntime, path: &str) -> Result<(), Failure> {
    let mut execution = Execution::new(rt.alloc())?;
    feed(rt, path, |piece| -> Result<(), Failure> {
        Ok(execution.push(piece)?)
    })
    .map_err(|e| e.at(rt.alloc(), path))?;
    print_values(rt, execution.store())?;
    print_report(rt, &execution)
}

fn print_values(rt: &HostRuntime, store: &Store) -> Result<(), Failure> {
    let mut out = BufWriter::new(rt.alloc(), rt.stdout())?;
    let mut room = [0; 17];
    for key in 0..=u16::MAX {
        let value = store.get(key);
        if value != 0 {
            out.write_all(spell(key, value, &mut room))?;
        }
    }
    out.flush()?;
    Ok(())
}

fn print_report(rt: &HostRuntime, execution: &Execution) -> Result<(), Failure> {
    let mut out = BufWriter::new(rt.alloc(), rt.stderr())?;
    let refusal = Refusal::Malformed;
    let number = refusal.number();
    // spelled once, since there can be as many lines as there are orders
    let refused = format!(in rt.alloc(); ": refused {number}, {refusal}\n")?;
    for place in execution.malformed() {
        write!(out, "place {place}{refused}")?;
    }
    let rest = execution.rest().len();
    if rest > 0 {
        writeln!(out, "tail: {rest} bytes are no whole order, passed over")?;
    }
    let done = execution.done();
    let malformed = execution.malformed().len();
    writeln!(out, "{done} orders done, {malformed} malformed")?;
    out.flush()?;
    Ok(())
}
