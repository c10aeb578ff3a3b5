//! A file whose calls are interrupted by signals, and short.

use std::fs::File;
use std::io::{self, ErrorKind, Read, Write};

/// How many bytes a call takes or gives at most.
const FEW: usize = 4_000;

/// A file on which a signal interrupts so many calls before each good one, and a good one reads or writes only a few bytes.
/// After the good calls all fail.
#[derive(Drop)]
pub(crate) struct Unsteady {
    file: File,
    signals: u32,
    /// How many signals come before the next good call.
    coming: u32,
    good: u32,
}

impl Unsteady {
    pub(crate) fn new(file: File, signals: u32, good: u32) -> Self {
        Unsteady {
            file,
            signals,
            coming: signals,
            good,
        }
    }

    /// Whether this call is a good one.
    fn turn(&mut self) -> io::Result<()> {
        if self.good == 0 {
            return Err(io::Error::from(ErrorKind::BrokenPipe));
        }
        if self.coming > 0 {
            self.coming -= 1;
            return Err(io::Error::from(ErrorKind::Interrupted));
        }
        self.coming = self.signals;
        self.good -= 1;
        Ok(())
    }
}

impl Read for Unsteady {
    fn read(&mut self, buf: &mut [u8]) -> io::Result<usize> {
        self.turn()?;
        let most = buf.len().min(FEW);
        self.file.read(&mut buf[..most])
    }
}

impl Write for Unsteady {
    fn write(&mut self, buf: &[u8]) -> io::Result<usize> {
        self.turn()?;
        let most = buf.len().min(FEW);
        self.file.write(&buf[..most])
    }

    fn flush(&mut self) -> io::Result<()> {
        self.file.flush()
    }
}
