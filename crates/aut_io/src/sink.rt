//! The trait of output sinks.

ghost use Rattle.aut_io.specs.Seen.{SinkSeen, WritesPiece};

use aut_base::Failed;

/// A sink, to which bytes are written piece by piece.
pub trait Sink {
    /// What contracts see of the object: what was written, and how many writes failed.
    ghost seen: { Self → SinkSeen };

    /// Writes a piece. Where it fails, a prefix of the piece may have been written.
    fn write(&mut self, piece: &[u8]) -> Result<(), Failed>
        ensures { WritesPiece (seen self.old) piece.now result (seen self.new) };
}
