//! The least number above those that are used.

ghost use Rattle.std.specs.Prelude.{◌≡◌, max};
ghost use Rattle.hoa_reader.specs.inner.Numbers.{after_all};
ghost use Rattle.hoa_reader.specs.inner.PickedOut.{starts_named};

use aut_base::FewNumbers;

/// The least number that is above these, and no less than the other.
pub(crate) fn after_numbers(numbers: &[u32], least: u64) -> u64
    ensures { result ≡ max least (after_all numbers.now) }
{
    let mut after = least;
    'numbers: for number in numbers {
        after = after.max(u64::from(*number) + 1);
    }
    after
}

/// The same for the starts.
#[tactic(auto, using(crate::proofs::counting::AfterAll::after_alls))]
pub(crate) fn after_starts(starts: &[&FewNumbers], least: u64) -> u64
    ensures { result ≡ max least (after_all (starts_named starts.now)) }
{
    let mut after = least;
    'starts: for states in starts {
        after = after_numbers(states.as_slice(), after);
    }
    after
}
