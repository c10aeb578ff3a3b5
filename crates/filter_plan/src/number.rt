//! Values of options that are numbers.

ghost use Rattle.std.specs.Prelude.{◌≡◌, ℕ, IfOk, IsErrOf, Option, MatchOption};
ghost use Rattle.clap.specs.Words.{found_of, rows_of};
ghost use Rattle.filter_plan.specs.Numbers.{IsMadeCount, IsNumber};
ghost use Rattle.filter_plan.specs.Table.{ReadsOption, values_of};

use crate::UsageFault;
use crate::reading::OptionValue;
use crate::values::value;
use clap::ArgMatches;
use std::alloc::Global;

/// The number that the decimal digits spell, or `None` exactly where the text spells none.
pub(crate) fn number(text: &str) -> Option<u32>
    ensures { MatchOption result ((n : ℕ) → IsNumber text.now n → ⊥) (λ n. IsNumber text.now n) }
{
    match text.as_bytes().first() {
        Some(b'+') => None,
        _ => text.parse::<u32>().ok(),
    }
}

/// The number of automata to generate, or `None` exactly where the text is no number from 1 to 10,000.
fn made_count(text: &str) -> Option<u32>
    ensures { MatchOption result ((n : ℕ) → IsMadeCount text.now n → ⊥) (λ n. IsMadeCount text.now n) }
{
    match number(text) {
        Some(n) if 1 <= n && n <= 10_000 => Some(n),
        _ => None,
    }
}

impl OptionValue for u32 {
    ghost is_read = { IsNumber };

    /// The number that the decimal digits spell.
    fn read(_alloc: Global, text: &str) -> Result<u32, UsageFault> {
        number(text).ok_or(UsageFault::Usage)
    }
}

/// The number of automata to generate, from the value of the option.
pub(crate) fn made_count_of(matches: &ArgMatches, id: &str) -> Result<Option<u32>, UsageFault>
    ensures reads { IfOk result (λ n. ReadsOption IsMadeCount (values_of id.now (rows_of (found_of matches.now))) n) }
    ensures usage { IsErrOf result UsageFault.Usage → (n : Option ℕ) → ReadsOption IsMadeCount (values_of id.now (rows_of (found_of matches.now))) n → ⊥ }
{
    match value(matches, id)? {
        Some(text) => match made_count(text) {
            Some(n) => Ok(Some(n)),
            None => Err(UsageFault::Usage),
        },
        None => Ok(None),
    }
}
