//! What was read, once it is known to keep the rules and to be within the limits.

ghost use Rattle.hoa_parser.specs.Raw.{written};
ghost use Rattle.hoa_reader.specs.inner.Frames.{ExaminesText};

use crate::elaborate::ElabFault;
use crate::elaborate::aliases::known_aliases;
use crate::elaborate::broken::first_broken;
use crate::elaborate::frame::{Frame, frame_of};
use crate::elaborate::limits::first_passed;
use crate::elaborate::parts::parts_of;
use hoa_parser::Raw;
use std::alloc::Global;

/// What is described but for edges, names and condition, where no rule is broken and no limit passed. All that only rules and limits
/// speak of is let go.
pub(crate) fn examine(alloc: Global, raw: &Raw) -> Result<Frame, ElabFault>
    ensures { ExaminesText result (written raw.now) }
{
    let parts = parts_of(alloc, raw)?;
    if let Some(rule) = first_broken(alloc, raw, &parts)? {
        return Err(ElabFault::Invalid(rule));
    }
    let known = known_aliases(alloc, &parts.defs)?;
    if let Some(limit) = first_passed(raw, &parts, &known) {
        return Err(ElabFault::Limit(limit));
    }
    Ok(frame_of(alloc, raw, &parts)?)
}
