//! The first limit that is passed.

ghost use Rattle.std.specs.Prelude.{◌≡◌, ◌<◌, ◌-◌, ◌^◌, length, nat_lt, MatchOption};
ghost use Rattle.aut_base.specs.declared.limit.TheConstants.{MOST_ALIASES, MOST_EDGES};
ghost use Rattle.hoa_reader.specs.Counts.{PassesNone, growth};
ghost use Rattle.hoa_reader.specs.Elaborating.{PassesLimit};
ghost use Rattle.hoa_reader.specs.inner.Gathered.{ArePartsOf};
ghost use Rattle.hoa_reader.specs.inner.Growing.{AreAliasesKnown, meanings_by};
ghost use Rattle.hoa_parser.specs.Raw.{written};
ghost use Rattle.hoa_reader.specs.Validity.{IsValid, body_labels};
ghost use Rattle.hoa_reader.specs.inner.Weighing.{all_edges, are_tall, states_counted};

use crate::elaborate::aliases::Known;
use crate::elaborate::counts::{are_heavy, are_tall};
use crate::elaborate::parts::Parts;
use crate::elaborate::places::Places;
use crate::elaborate::sizes::{set_count, state_count};
use aut_base::{Limit, MOST_ALIASES, MOST_EDGES, MOST_NAMES, MOST_SETS, MOST_STATES};
use hoa_parser::Raw;

/// Whether there are more edges than may be.
fn has_more_edges(raw: &Raw, parts: &Parts<'_>) -> bool
    requires { ArePartsOf (written raw.now) parts.now }
    ensures { result ≡ nat_lt MOST_EDGES (length (all_edges (written raw.now).states)) }
{
    parts.sums.edges > MOST_EDGES as usize
}

/// Whether a label of the body is taller than may be. Where no alias stands in one, the labels aren't gone over again.
fn is_tall<'a>(raw: &'a Raw, parts: &Parts<'a>, known: &Places<'a, Known>) -> bool
    requires { ArePartsOf (written raw.now) parts.now }
    ensures { result ≡ are_tall known.now (body_labels (written raw.now).states) }
{
    if parts.sums.plain {
        return parts.sums.height > u64::from(MOST_ALIASES);
    }
    are_tall(&parts.labels, known)
}

/// Whether the edges count more than this, likewise.
fn is_heavy<'a>(raw: &'a Raw, parts: &Parts<'a>, known: &Places<'a, Known>, most: u64) -> bool
    requires parts { ArePartsOf (written raw.now) parts.now }
    requires most { most < 2 ^ 64 - 1 }
    ensures { result ≡ nat_lt most (states_counted known.now (written raw.now).states) }
{
    if parts.sums.plain {
        return parts.sums.weight > most;
    }
    are_heavy(raw.states.as_slice(), known, most)
}

/// Whether labels grow further than they may.
fn grow_too_far<'a>(raw: &'a Raw, parts: &Parts<'a>, known: &Places<'a, Known>) -> bool
    requires parts { ArePartsOf (written raw.now) parts.now }
    requires known { AreAliasesKnown (meanings_by parts.now.defs.items) parts.now.defs.items known.now }
    ensures { result ≡ nat_lt MOST_ALIASES (growth (written raw.now)) }
{
    // Divided by 8,192, what the edges weigh is greater than the limit from this on.
    let most = (u64::from(MOST_ALIASES) + 1) * 8_192 - 1;
    if is_tall(raw, parts, known) {
        return true;
    }
    is_heavy(raw, parts, known, most)
}

/// The first limit that is passed.
pub(crate) fn first_passed<'a>(
    raw: &'a Raw,
    parts: &Parts<'a>,
    known: &Places<'a, Known>,
) -> Option<Limit>
    requires parts { ArePartsOf (written raw.now) parts.now }
    requires known { AreAliasesKnown (meanings_by parts.now.defs.items) parts.now.defs.items known.now }
    requires valid { IsValid (written raw.now) }
    ensures { MatchOption result (PassesNone (written raw.now)) (λ which. PassesLimit which (written raw.now)) }
{
    if parts.names.len() > MOST_NAMES as usize {
        return Some(Limit::Names);
    }
    if set_count(raw, parts) > MOST_SETS {
        return Some(Limit::Sets);
    }
    if state_count(raw, parts) > u64::from(MOST_STATES) {
        return Some(Limit::States);
    }
    if has_more_edges(raw, parts) {
        return Some(Limit::Edges);
    }
    if grow_too_far(raw, parts, known) {
        return Some(Limit::Aliases);
    }
    None
}
