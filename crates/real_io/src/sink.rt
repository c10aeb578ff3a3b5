//! A sink over a writer.

ghost use Rattle.std.specs.Prelude.{◌≡◌, ◌≢◌, ◌≤◌, [], IfErr, None, OnErr, OnOk, length, take};
ghost use Rattle.std.specs.Io.KnownBytes.{Appends};
ghost use Rattle.aut_io.specs.Outside.{Rose};
ghost use Rattle.aut_io.specs.Seen.{WritesPiece};
ghost use Rattle.real_io.specs.Sent.{AppendsFront};

use crate::refusals::Refusals;
use aut_base::Failed;
use aut_io::Sink;
use std::io::{ErrorKind, Write};

/// Passes each piece to the writer at once, by as many calls as it takes.
#[derive(Drop)]
pub struct RealSink<W> {
    writer: W,
    faults: Refusals,
}

impl<W> RealSink<W> {
    /// A sink over this writer.
    pub fn new(writer: W) -> Self
        ensures writer { result.writer ≡ writer }
        ensures faults { result.faults ≡ 0 }
    {
        RealSink {
            writer,
            faults: Refusals::new(),
        }
    }
}

impl<W: Write> Sink for RealSink<W> {
    ghost seen = { λ s. record { written = None; faults = s.faults } };

    fn write(&mut self, piece: &[u8]) -> Result<(), Failed>
        ensures told { WritesPiece (record { written = None; faults = self.old.faults }) piece.now result (record { written = None; faults = self.new.faults }) }

        // The writer has gained the piece, or a prefix of it where the write failed: no byte is written twice or out of
        // order.
        ensures gains { OnOk result (Appends (W.contents self.old.writer) (W.contents self.new.writer) piece.now) }
        ensures front { OnErr result (AppendsFront (W.contents self.old.writer) (W.contents self.new.writer) piece.now) }

        // A write of an empty piece can't fail.
        ensures nothing { piece.now ≡ [] → OnErr result ⊥ }
    {
        if piece.is_empty() {
            return Ok(());
        }
        match send(&mut self.writer, &mut self.faults, piece) {
            (_, Ok(())) => Ok(()),
            (_, Err(_)) => Err(Failed),
        }
    }
}

/// Writes the bytes by as many calls as it takes, again where a signal interrupted one, and answers how many the writer took.
/// (std's `write_all` doesn't say what it took before it failed.) The turns are counted so that the loop is proved to end.
fn send<W: Write>(
    writer: &mut W,
    refusals: &mut Refusals,
    bytes: &[u8],
) -> (usize, Result<(), ErrorKind>)
    ensures bound { result.0 ≤ length bytes.now }
    ensures taken { Appends (W.contents writer.old) (W.contents writer.new) (take result.0 bytes.now) }
    ensures all { OnOk result.1 (result.0 ≡ length bytes.now) }
    ensures retried { IfErr result.1 (λ kind. kind ≢ ErrorKind.Interrupted) }
    ensures failed { OnErr result.1 (Rose refusals.old refusals.new) }
    ensures calm { OnOk result.1 (refusals.new ≡ refusals.old) }
    ensures later { refusals.old ≤ refusals.new }
{
    let mut sent = 0;
    let mut turns = 0;
    'writes: while turns < u64::MAX {
        if sent >= bytes.len() {
            return (sent, Ok(()));
        }
        match refusals.write(writer, &bytes[sent..]) {
            Ok(count) => sent += count,
            Err(kind) => return (sent, Err(kind)),
        }
        turns += 1;
    }
    (sent, Err(refusals.give_up(turns)))
}
