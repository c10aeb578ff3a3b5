//! How many states and acceptance sets there are.

ghost use Rattle.std.specs.Prelude.{◌≡◌};
ghost use Rattle.hoa_parser.specs.Raw.{written};
ghost use Rattle.hoa_reader.specs.Described.{state_count};
ghost use Rattle.hoa_reader.specs.inner.Gathered.{ArePartsOf};
ghost use Rattle.hoa_reader.specs.Validity.{acceptance_of};

use crate::elaborate::parts::{Parts, count_of_states};
use hoa_parser::Raw;

/// The number of states.
pub(crate) fn state_count(raw: &Raw, parts: &Parts<'_>) -> u64
    requires { ArePartsOf (written raw.now) parts.now }
    ensures { result ≡ state_count (written raw.now) }
{
    match count_of_states(raw.items.as_slice()) {
        Some(count) => u64::from(count),
        None => parts.after,
    }
}

/// The number of acceptance sets.
pub(crate) fn set_count(raw: &Raw, parts: &Parts<'_>) -> u32
    requires { ArePartsOf (written raw.now) parts.now }
    ensures { result ≡ (acceptance_of (written raw.now)).sets }
{
    match &parts.acceptance {
        Some(acceptance) => acceptance.sets,
        None => 0,
    }
}
