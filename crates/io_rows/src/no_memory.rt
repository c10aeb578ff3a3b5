//! An opener that never has the memory to open a file.

use real_io::Opener;
use std::fs::File;
use std::io;

/// Opens nothing, for want of memory.
#[derive(Clone, Copy)]
pub(crate) struct NoMemory {
    calls: u64,
}

impl NoMemory {
    /// An opener that wasn't called yet.
    pub(crate) fn new() -> Self {
        NoMemory { calls: 0 }
    }
}

impl Opener for NoMemory {
    type File = File;

    ghost answers = { λ _ _ _. Unit {0} };

    ghost calls = { λ s. s.calls };

    fn open(&mut self, _name: &str) -> io::Result<File> {
        self.calls = self.calls.saturating_add(1);
        Err(io::Error::from(io::ErrorKind::OutOfMemory))
    }
}
