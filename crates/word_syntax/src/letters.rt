//! Comparison and copies of letters.

ghost use Rattle.std.specs.Prelude.{◌≡◌, ◌≤◌, length, take, drop, ◌↔◌, ◌++◌, IsTrue, IfOk, OnOk};
ghost use Rattle.word_syntax.specs.inner.Periods.{IsSubset};

use crate::over::holds_only;
use aut_base::{Letter, Letters, Memory};
use std::alloc::Global;

/// Whether the same propositions hold.
pub(crate) fn is_same(a: &Letter, b: &Letter) -> bool
    ensures { IsTrue result ↔ (a.now ≡ b.now) }
{
    is_within(a, b) && is_within(b, a)
}

// Whether each proposition that holds at the first letter holds at the second.
fn is_within(a: &Letter, b: &Letter) -> bool
    ensures { IsTrue result ↔ IsSubset a.now b.now }
{
    holds_only(a, b.names())
}

// A copy of the letter.
fn copy_letter(alloc: Global, letter: &Letter) -> Result<Letter, Memory>
    ensures { IfOk result (λ new. new ≡ letter.now) }
{
    let mut new = Letter::new(alloc);
    'names: for name in letter.names().as_slice() {
        new.add(name.copy(alloc)?)?;
    }
    Ok(new)
}

/// Adds copies of these letters at the end.
pub(crate) fn push_copies(
    alloc: Global,
    letters: &mut Letters,
    more: &[Letter],
) -> Result<(), Memory>
    ensures { OnOk result (letters.new ≡ letters.old ++ more.now) }
{
    'letters: for letter in more {
        letters.push(copy_letter(alloc, letter)?)?;
    }
    Ok(())
}

/// The letters before this index.
pub(crate) fn before(letters: &[Letter], place: usize) -> &[Letter]
    requires { place ≤ length letters.now }
    ensures { result.now ≡ take place letters.now }
{
    &letters[..place]
}

/// The letters from this index on.
pub(crate) fn behind(letters: &[Letter], place: usize) -> &[Letter]
    requires { place ≤ length letters.now }
    ensures { result.now ≡ drop place letters.now }
{
    &letters[place..]
}
