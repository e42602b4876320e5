// A log that grows in memory.
ghost use Rattle.std.specs.Prelude.{◌≡◌, length};
ghost use Rattle.line.specs.Frames.{frames, Whole};

mod append;
mod error;

pub use error::LogError;

// Whole orders, each behind its length, at most 4,294,967,295 of them.
#[derive(Drop)]
pub struct Log {
    bytes: Vec<u8>,
    len: u32,
    ghost whole: { Whole bytes.items },
    ghost counted: { len ≡ length (frames bytes.items) },
}

impl Log {
    // How many orders it has.
    pub fn len(&self) -> u32
        ensures { result ≡ length (frames self.now.bytes.items) }
    {
        self.len
    }

    pub fn as_bytes(&self) -> &[u8]
        ensures { result.now ≡ self.now.bytes.items }
    {
        self.bytes.as_slice()
    }
}
