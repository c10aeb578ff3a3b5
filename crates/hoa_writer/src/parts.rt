//! Strings and marks.

ghost use Rattle.std.specs.Prelude.{◌≡◌, ◌++◌, OnOk};
ghost use Rattle.hoa_writer.specs.CanonicalText.{quoted, marks_text};

use crate::number::push_number;
use aut_base::{Marks, Memory, Text};

/// Adds the bytes between quotation marks, with `\` before each `"` and `\`.
pub(crate) fn push_quoted(out: &mut Text, bytes: &[u8]) -> Result<(), Memory>
    ensures { OnOk result (out.new ≡ out.old ++ quoted bytes.now) }
{
    out.push(b'"')?;
    'bytes: for byte in bytes {
        if *byte == b'"' || *byte == b'\\' {
            out.push(b'\\')?;
            out.push(*byte)?;
            continue;
        }
        out.push(*byte)?;
    }
    out.push(b'"')
}

/// Adds the marks of an edge, if it has any.
pub(crate) fn push_marks(out: &mut Text, marks: &Marks) -> Result<(), Memory>
    ensures { OnOk result (out.new ≡ out.old ++ marks_text marks.now) }
{
    if marks.is_empty() {
        return Ok(());
    }
    out.extend(b" {")?;
    push_number(out, *marks.at(0))?;
    'others: for place in 1..marks.len() {
        out.push(b' ')?;
        push_number(out, *marks.at(place))?;
    }
    out.push(b'}')
}
