//! Ranges of numbers.

ghost use Rattle.std.specs.Prelude.{◌≡◌, ◌++◌, ℕ, List, IsTrue, ◌↔◌, Option, MatchOption, codes};
ghost use Rattle.std.specs.Str.Parse.{AllDigits};
ghost use Rattle.filter_plan.specs.Numbers.{IsNumber};
ghost use Rattle.filter_plan.specs.Spans.{IsInRange, IsRange};
ghost use Rattle.filter_plan.specs.inner.Bounds.{IsBounds, IsHigh, IsLow};
ghost use Rattle.filter_plan.specs.declared.range.Range.{Range};

use crate::UsageFault;
use crate::number::number;
use crate::reading::OptionValue;
use std::alloc::Global;

/// The numbers from `low` up to `high`, both inclusive; without `high` all from `low` on.
#[derive(Clone, Copy, Debug, PartialEq, Eq)]
pub struct Range {
    pub low: u32,
    pub high: Option<u32>,
}

impl Range {
    /// Whether the number is in the range.
    pub fn has(&self, n: u64) -> bool
        ensures { IsTrue result ↔ IsInRange self.now n }
    {
        let is_below = match self.high {
            Some(high) => n <= high as u64,
            None => true,
        };
        self.low as u64 <= n && is_below
    }
}

impl OptionValue for Range {
    ghost is_read = { IsRange };

    /// The range that the text spells.
    fn read(_alloc: Global, text: &str) -> Result<Range, UsageFault> {
        read_range(text).ok_or(UsageFault::Usage)
    }
}

/// The range that the text spells, or `None` exactly where it spells none.
fn read_range(text: &str) -> Option<Range>
    ensures { MatchOption result ((r : Range) → IsRange text.now r → ⊥) (IsRange text.now) }
{
    match cut(text) {
        Some((before, after)) => bounds(before, after),
        None => single(text),
    }
}

/// The range of one number.
fn single(text: &str) -> Option<Range>
    ensures { MatchOption result ((n : ℕ) → IsNumber text.now n → ⊥) (λ r. IsNumber text.now r.low × (r.high ≡ Some r.low)) }
{
    let low = number(text)?;
    Some(Range {
        low,
        high: Some(low),
    })
}

/// The range between two ends, of which one may be empty.
fn bounds(before: &str, after: &str) -> Option<Range>
    ensures { MatchOption result ((r : Range) → IsBounds before.now after.now r → ⊥) (IsBounds before.now after.now) }
{
    if before.is_empty() && after.is_empty() {
        return None;
    }
    let low = low_end(before)?;
    let high = high_end(after)?;
    Some(Range { low, high })
}

/// The lower end, which is 0 where the text is empty.
fn low_end(text: &str) -> Option<u32>
    ensures { MatchOption result ((n : ℕ) → IsLow text.now n → ⊥) (IsLow text.now) }
{
    if text.is_empty() {
        return Some(0);
    }
    number(text)
}

/// The upper end; an empty text means that there is none.
fn high_end(text: &str) -> Option<Option<u32>>
    ensures { MatchOption result ((n : Option ℕ) → IsHigh text.now n → ⊥) (IsHigh text.now) }
{
    if text.is_empty() {
        return Some(None);
    }
    Some(Some(number(text)?))
}

/// The texts before and after the first dot and the dot right after it, or `None` where the first dot isn't followed by
/// another.
fn cut(text: &str) -> Option<(&str, &str)>
    ensures found { MatchOption result (Unit {0}) (λ x. text.now ≡ x.0.now ++ (codes ".." ++ x.1.now)) }
    ensures only { (a b : List ℕ) → AllDigits 10 a → text.now ≡ a ++ (codes ".." ++ b) → MatchOption result ⊥ (λ x. (x.0.now ≡ a) × (x.1.now ≡ b)) }
{
    let (before, rest) = text.split_once('.')?;
    let after = rest.strip_prefix('.')?;
    Some((before, after))
}
