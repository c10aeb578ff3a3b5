//! The values that `clap` found for an option.

ghost use Rattle.std.specs.Prelude.{◌≡◌, ◌<◌, IfOk, IfErr, length, map};
ghost use Rattle.std.specs.Option.{option_map};
ghost use Rattle.clap.specs.Words.{all_of, found_of, rows_of};
ghost use Rattle.filter_plan.specs.Table.{is_on, values_of};
ghost use Rattle.filter_plan.specs.Words.{file_list};

use crate::UsageFault;
use clap::ArgMatches;

/// The values of an option or operand that was given, in order.
#[tactic(auto, using(crate::proofs::FoundValues::values_by_rows))]
pub(crate) fn values<'m, 'a>(matches: &'m ArgMatches<'a>, id: &str) -> Option<&'m [&'a str]>
    ensures { option_map (λ v. map (λ t. t.now) v.now) result ≡ all_of id.now (rows_of (found_of matches.now)) }
{
    matches.get_raw(id)
}

/// Whether the flag is given.
pub(crate) fn stands(matches: &ArgMatches, id: &str) -> bool
    ensures { result ≡ is_on (values_of id.now (rows_of (found_of matches.now))) }
{
    match values(matches, id) {
        Some(values) => is_true(values),
        None => false,
    }
}

/// Whether the first value is `true`.
fn is_true(values: &[&str]) -> bool
    ensures { result ≡ is_on (map (λ t. t.now) values.now) }
{
    match values {
        [value, ..] => *value == "true",
        [] => false,
    }
}

/// The value of the option, if it is given, or `Usage` exactly where it has several.
pub(crate) fn value<'a>(matches: &ArgMatches<'a>, id: &str) -> Result<Option<&'a str>, UsageFault>
    ensures once { IfOk result (λ v. values_of id.now (rows_of (found_of matches.now)) ≡ file_list (option_map (λ t. t.now) v)) }
    ensures several { IfErr result (λ fault. (fault ≡ UsageFault.Usage) × (1 < length (values_of id.now (rows_of (found_of matches.now))))) }
{
    match values(matches, id) {
        Some(values) => one(values),
        None => Ok(None),
    }
}

/// The one value, if there is any.
fn one<'a>(values: &[&'a str]) -> Result<Option<&'a str>, UsageFault>
    ensures once { IfOk result (λ v. map (λ t. t.now) values.now ≡ file_list (option_map (λ t. t.now) v)) }
    ensures several { IfErr result (λ fault. (fault ≡ UsageFault.Usage) × (1 < length (map (λ t. t.now) values.now))) }
{
    match values {
        [] => Ok(None),
        [value] => Ok(Some(value)),
        _ => Err(UsageFault::Usage),
    }
}
