//! How files are opened.

ghost use Rattle.std.specs.Prelude.{◌≡◌, ℕ, List, Result};
ghost use Rattle.std.specs.declared.io.Error.{Error};
ghost use Rattle.aut_io.specs.Outside.{Rose};

use std::fs::File;
use std::io;
use std::io::Read;
use std::rt::Files;

/// Opens files by their names.
pub trait Opener {
    /// An open file.
    type File: Read + Drop;

    /// What the answer to an opening of a name may be.
    ghost answers: { Self → List ℕ → Result Self.File Error → Type 0 };

    /// How many times `open` was called, up to the last value of a `u64`.
    ghost calls: { Self → ℕ };

    /// Opens the file under a name, to be read from its beginning.
    fn open(&mut self, name: &str) -> io::Result<Self::File>
        ensures answered { answers self.old name.now result }
        ensures called { Rose (calls self.old) (calls self.new) };
}

/// The files of the system. No contract can know what the system has under a name.
#[derive(Drop)]
pub struct SystemFiles<F> {
    files: F,
    calls: u64,
}

impl<F> SystemFiles<F> {
    /// Opens files through these of the system. None was asked for yet.
    pub fn new(files: F) -> Self
        ensures { result.calls ≡ 0 }
    {
        SystemFiles { files, calls: 0 }
    }
}

impl<F: Files> Opener for SystemFiles<F> {
    type File = F::File;

    ghost answers = { λ _ _ _. Unit {0} };

    ghost calls = { λ s. s.calls };

    fn open(&mut self, name: &str) -> io::Result<F::File> {
        self.calls = self.calls.saturating_add(1);
        File::open(&self.files, name)
    }
}
