// Why a program stops, and how it ends.
ghost use Rattle.std.specs.Prelude.{◌≡◌, IsOk, IsErr};
ghost use Rattle.std.specs.Process.{exit_status};
ghost use Rattle.program.specs.Failures.{Names, At, Placed};

use std::alloc::{AllocError, Global};
use std::process::ExitCode;
use std::{fmt, io};
use thiserror::Error;

// What a program alone knows of is a reason of its own. The path is kept whole, so no `anyhow::Error`, which cuts a text at 120 bytes.
#[derive(Debug, Drop, Error)]
#[error_bound(R: fmt::Display)]
pub enum Failure<R> {
    #[error("{0}")]
    Own(R),
    // a file cannot be read: its path, and why
    #[error("{path}: {error}")]
    File { path: String, error: io::Error },
    // an argument cannot be read, or what is printed cannot be written
    #[error(transparent)]
    Output(#[from] io::Error),
    #[error(transparent)]
    Memory(#[from] AllocError),
}

impl<R: Drop> Failure<R> {
    // The same, said of the file at a path where it was said of none.
    pub fn at(self, heap: Global, path: &str) -> Failure<R>
        ensures at { At path.now self result }
        ensures placed { Placed result }
    {
        match self {
            Failure::Output(error) => unread(heap, path, error),
            Failure::Memory(error) => unread(heap, path, error.into()),
            placed => placed,
        }
    }
}

// The file at a path cannot be read.
fn unread<R: Drop>(heap: Global, path: &str, error: io::Error) -> Failure<R>
    ensures { Names path.now result }
{
    match String::from_str(heap, path) {
        Ok(path) => Failure::File { path, error },
        Err(error) => Failure::Memory(error),
    }
}

// Says on standard error why the program stops, if it does: the status with which it ends.
pub fn end<R: fmt::Display + Drop>(
    rt: &impl Eprint,
    name: &str,
    came: Result<(), Failure<R>>,
) -> ExitCode
    ensures success { IsOk came → exit_status result ≡ 0 }
    ensures failure { IsErr came → exit_status result ≡ 1 }
{
    match came {
        Ok(()) => ExitCode::SUCCESS,
        Err(e) => {
            let _ = eprintln!(rt; "{name}: {e}");
            ExitCode::FAILURE
        }
    }
}
