//! The count of calls of the system that failed.

ghost use Rattle.std.specs.Prelude.{◌≡◌, ◌≢◌, ◌≤◌, ◌<◌, ◌-◌, ◌^◌, IfErr, IfOk, MatchOption, OnErr, OnOk, length, take};
ghost use Rattle.std.specs.Io.KnownBytes.{Appends, Consumes, IsAtEnd, Keeps};
ghost use Rattle.aut_io.specs.Outside.{Rose};
ghost use Rattle.real_io.specs.Unread.{held};

use std::io::{ErrorKind, Read, Write};
use std::marker::Model;

/// How many calls of the system failed. It rises in this file alone: where a call failed and no signal interrupted it, or
/// where a loop was interrupted as many times as a `u64` counts.
#[derive(Drop)]
pub(crate) struct Refusals {
    count: u64,
}

impl Model for Refusals {
    ghost use Rattle.std.specs.Prelude.{ℕ};

    ghost Value = { ℕ };

    ghost view = { λ r. r.count };
}

impl Refusals {
    /// A count of zero.
    pub(crate) fn new() -> Self
        ensures { result ≡ 0 }
    {
        Refusals { count: 0 }
    }

    /// One read: how many bytes it gave, or None where a signal interrupted it.
    pub(crate) fn read<R: Read>(
        &mut self,
        reader: &mut R,
        block: &mut [u8],
    ) -> Result<Option<usize>, ErrorKind>
        requires { 0 < length block.old }
        ensures size { length block.new ≡ length block.old }
        ensures within { IfOk result (λ found. MatchOption found (Unit {0}) (λ count. count ≤ length block.new)) }
        ensures takes { IfOk result (λ found. MatchOption found (Keeps (R.remaining reader.old) (R.remaining reader.new))
            (λ count. Consumes (R.remaining reader.old) (R.remaining reader.new) (held block.new 0 count))) }
        ensures end { IfOk result (λ found. MatchOption found (Unit {0}) (λ count. count ≡ 0 → IsAtEnd (R.remaining reader.new))) }
        ensures keeps { OnErr result (Keeps (R.remaining reader.old) (R.remaining reader.new)) }
        ensures failed { OnErr result (Rose self.old self.new) }
        ensures calm { OnOk result (self.new ≡ self.old) }
        ensures later { self.old ≤ self.new }
        ensures retried { IfErr result (λ kind. kind ≢ ErrorKind.Interrupted) }
    {
        match reader.read(block) {
            Ok(count) => Ok(Some(count)),
            Err(error) => {
                let kind = error.kind();
                if kind == ErrorKind::Interrupted {
                    return Ok(None);
                }
                self.raise();
                Err(kind)
            }
        }
    }

    /// One write: how many bytes were taken, none where a signal interrupted it. A writer that takes none has failed, as for
    /// std's `write_all`.
    pub(crate) fn write<W: Write>(
        &mut self,
        writer: &mut W,
        bytes: &[u8],
    ) -> Result<usize, ErrorKind>
        requires { 0 < length bytes.now }
        ensures bound { IfOk result (λ count. count ≤ length bytes.now) }
        ensures takes { IfOk result (λ count. Appends (W.contents writer.old) (W.contents writer.new) (take count bytes.now)) }
        ensures keeps { OnErr result (Keeps (W.contents writer.old) (W.contents writer.new)) }
        ensures failed { OnErr result (Rose self.old self.new) }
        ensures calm { OnOk result (self.new ≡ self.old) }
        ensures later { self.old ≤ self.new }
        ensures retried { IfErr result (λ kind. kind ≢ ErrorKind.Interrupted) }
    {
        match writer.write(bytes) {
            Ok(0) => {
                self.raise();
                Err(ErrorKind::WriteZero)
            }
            Ok(count) => Ok(count),
            Err(error) => {
                let kind = error.kind();
                if kind == ErrorKind::Interrupted {
                    return Ok(0);
                }
                self.raise();
                Err(kind)
            }
        }
    }

    /// Fails a loop that was interrupted as many times as a `u64` counts, so that loops are proved to end.
    pub(crate) fn give_up(&mut self, turns: u64) -> ErrorKind
        requires { turns ≡ 2 ^ 64 - 1 }
        ensures rose { Rose self.old self.new }
        ensures later { self.old ≤ self.new }
        ensures retried { result ≢ ErrorKind.Interrupted }
    {
        self.raise();
        ErrorKind::TimedOut
    }

    /// Counts another failure.
    fn raise(&mut self)
        ensures rose { Rose self.old self.new }
        ensures later { self.old ≤ self.new }
    {
        self.count = self.count.saturating_add(1);
    }
}
