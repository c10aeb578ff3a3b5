//! Numbers in decimal digits, written without an allocation.

ghost use Rattle.std.specs.Prelude.{◌+◌, ◌++◌, ◌<◌, [], ◌∷◌, codes};
ghost use Rattle.std.specs.Fmt.{decimal};
ghost use Rattle.aut_io.specs.Seen.{WritesPiece};

use aut_base::Failed;
use aut_io::Sink;

// Why so: 'The number under `-c` is written digit by digit' in docs/DECISIONS.md.
/// Writes a number in decimal digits, one after the other.
pub fn write_number<M: Sink>(sink: &mut M, number: u64) -> Result<(), Failed>
    ensures { WritesPiece (M.seen sink.old) (decimal number) result (M.seen sink.new) }
{
    if number < 10 {
        return write_digit(sink, number);
    }
    write_number(sink, number / 10)?;
    write_digit(sink, number % 10)
}

/// Writes one digit.
fn write_digit<M: Sink>(sink: &mut M, digit: u64) -> Result<(), Failed>
    requires { digit < 10 }
    ensures { WritesPiece (M.seen sink.old) ((48 + digit) ∷ []) result (M.seen sink.new) }
{
    let glyph = b'0' + digit as u8;
    sink.write(&[glyph])
}

/// Writes a number and a line feed.
pub(crate) fn write_line<W: Sink>(out: &mut W, number: u64) -> Result<(), Failed>
    ensures { WritesPiece (W.seen out.old) (decimal number ++ codes "\n") result (W.seen out.new) }
{
    write_number(out, number)?;
    out.write(b"\n")
}
