// Files that are read.
ghost use Rattle.std.specs.Prelude.{◌<◌, OnOk, IfOk, IfErr, length, vec_len};
ghost use Rattle.program.specs.Failures.{Names, Placed};
ghost use Rattle.program.specs.Handing.{HandsOn};

use crate::failure::Failure;
use std::alloc::Global;
use std::fs::File;
use std::io::Read;
use std::rt::Files;
use std::{fs, io};

// How many bytes are read at once.
const PIECE: usize = 131_072;

// A file, whole.
pub fn read<R: Files + AllocGlobal, E: Drop>(rt: &R, path: &str) -> Result<Vec<u8>, Failure<E>>
    ensures { IfErr result (Names path.now) }
{
    fs::read(rt, path).map_err(|e| Failure::Output(e).at(rt.alloc(), path))
}

// Reads a file by pieces, and hands on each.
pub fn feed<R: Files + AllocGlobal, E: Drop, F: FnMut(&[u8]) -> Result<(), Failure<E>>>(
    rt: &R,
    path: &str,
    take: F,
) -> Result<(), Failure<E>>
    requires { F.IsAlwaysCallable take }
    ensures { IfErr result Placed }
{
    let mut file = open(rt, path)?;
    let mut room = room(rt.alloc())?;
    pieces(&mut file, &mut room, take).map_err(|e| e.at(rt.alloc(), path))
}

fn open<R: Files + AllocGlobal, E: Drop>(rt: &R, path: &str) -> Result<R::File, Failure<E>>
    ensures { IfErr result Placed }
{
    File::open(rt, path).map_err(|e| Failure::from(e).at(rt.alloc(), path))
}

// Room for a piece.
fn room<E: Drop>(heap: Global) -> Result<Vec<u8>, Failure<E>>
    ensures some { IfOk result (λ room. 0 < vec_len room) }
    ensures placed { IfErr result Placed }
{
    match vec![in heap; 0; PIECE] {
        Ok(room) => Ok(room),
        Err(e) => Err(Failure::Memory(e)),
    }
}

// Hands on what a reader has left, by pieces, all through one room.
fn pieces<R: Read, E: From<io::Error>, F: FnMut(&[u8]) -> Result<(), E>>(
    reader: &mut R,
    room: &mut [u8],
    mut take: F,
) -> Result<(), E>
    requires room { 0 < length room.old }
    requires callable { F.IsAlwaysCallable take }
    ensures { OnOk result (HandsOn F.FnMut take (R.remaining reader.old)) }
{
    // the library has no loop over what is read by pieces of one's own size, so the rounds are counted
    for _round in 0..u64::MAX {
        let count = reader.read(room)?;
        if count == 0 {
            return Ok(());
        }
        take(&room[..count])?;
    }
    Err(E::from(io::Error::from(io::ErrorKind::FileTooLarge)))
}

#[cfg(test)]
mod tests {
    use super::*;
    use std::process;
    use std::test::Fail;

    // One piece and a bit, at once and by pieces.
    #[test]
    fn a_file_comes_whole(rt: HostRuntime) -> Result<(), Fail> {
        let id = process::id(rt.process());
        let path = format!(in rt.alloc(); "/tmp/a-file-comes-whole-{id}")?;
        let mut bytes = vec![in rt.alloc(); 1u8; PIECE]?;
        bytes.extend_from_slice(&[2, 3])?;
        fs::write(&rt, path.as_str(), bytes.as_slice())?;
        let Ok(whole) = read::<HostRuntime, ()>(&rt, path.as_str()) else {
            return Err(Fail::new("it can be read"));
        };
        let mut fed = Vec::new(rt.alloc());
        let came = feed(&rt, path.as_str(), |piece| -> Result<(), Failure<()>> {
            Ok(fed.extend_from_slice(piece)?)
        });
        fs::remove_file(&rt, path.as_str())?;
        assert!(rt; came.is_ok());
        assert!(rt; whole.as_slice() == bytes.as_slice());
        assert!(rt; fed.as_slice() == bytes.as_slice());
        Ok(())
    }

    #[test]
    fn what_cannot_be_read_is_named(rt: HostRuntime) -> Result<(), Fail> {
        match read::<HostRuntime, ()>(&rt, "no/such/file") {
            Err(Failure::File { path, .. }) => assert!(rt; path.as_str() == "no/such/file"),
            _ => return Err(Fail::new("there is such a file")),
        }
        Ok(())
    }
}
