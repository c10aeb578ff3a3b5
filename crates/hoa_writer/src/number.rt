//! Numbers.

ghost use Rattle.std.specs.Prelude.{◌≡◌, ◌++◌, OnOk};
ghost use Rattle.std.specs.Fmt.{decimal};

use aut_base::{Memory, Text};

/// Adds a number in decimal digits.
pub(crate) fn push_number(out: &mut Text, number: u32) -> Result<(), Memory>
    ensures { OnOk result (out.new ≡ out.old ++ decimal number) }
{
    out.push_decimal(u64::from(number))
}
