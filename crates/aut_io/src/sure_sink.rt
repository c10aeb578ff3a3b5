//! A sink that never fails.

ghost use Rattle.std.specs.Prelude.{None, IsOk};
ghost use Rattle.aut_io.specs.Seen.{WritesPiece};

use crate::sink::Sink;
use aut_base::Failed;

/// A sink that discards what is written.
#[derive(Clone, Copy, Debug)]
pub struct SureSink;

impl SureSink {
    /// A sink to which nothing was written.
    pub fn new() -> Self {
        SureSink
    }
}

impl Sink for SureSink {
    ghost seen = { λ _. record { written = None; faults = 0 } };

    fn write(&mut self, piece: &[u8]) -> Result<(), Failed>
        ensures ok { IsOk result }
        ensures writes { WritesPiece (record { written = None; faults = 0 }) piece.now result (record { written = None; faults = 0 }) }
    {
        Ok(())
    }
}
