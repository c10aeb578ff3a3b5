//! Options whose values are read as something.

ghost use Rattle.std.specs.Prelude.{◌≡◌, ℕ, List, IfOk, IsErrOf, Option};
ghost use Rattle.clap.specs.Words.{found_of, rows_of};
ghost use Rattle.filter_plan.specs.Table.{ReadsOption, values_of};

use crate::UsageFault;
use crate::values::value;
use clap::ArgMatches;
use std::alloc::Global;

/// A type that the value of an option is read as.
pub(crate) trait OptionValue: Sized {
    /// When a text spells a value.
    ghost is_read: { List ℕ → Self → Type 0 };

    /// The value that the text spells, or `Usage` exactly where it spells none.
    fn read(alloc: Global, text: &str) -> Result<Self, UsageFault>
        ensures reads { IfOk result (is_read text.now) }
        ensures usage { IsErrOf result UsageFault.Usage → (x : Self) → is_read text.now x → ⊥ };
}

/// The value of the option, if it is given, or `Usage` exactly where it has several values or one that spells nothing.
pub(crate) fn value_of<T: OptionValue>(
    alloc: Global,
    matches: &ArgMatches,
    id: &str,
) -> Result<Option<T>, UsageFault>
    ensures reads { IfOk result (λ x. ReadsOption T.is_read (values_of id.now (rows_of (found_of matches.now))) x) }
    ensures usage { IsErrOf result UsageFault.Usage → (x : Option T) → ReadsOption T.is_read (values_of id.now (rows_of (found_of matches.now))) x → ⊥ }
{
    match value(matches, id)? {
        Some(text) => Ok(Some(T::read(alloc, text)?)),
        None => Ok(None),
    }
}
