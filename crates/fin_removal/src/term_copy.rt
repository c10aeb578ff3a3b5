//! The copies that an automaton needs, one for each term of its condition.

ghost use Rattle.std.specs.Prelude.{◌≡◌, ◌+◌, ◌<◌, ◌^◌, length, map, All, IfOk};
ghost use Rattle.std.specs.List.{sum_by};
ghost use Rattle.fin_removal.specs.Copies.{owned, owned_sets, sets_of, term_copies};
ghost use Rattle.fin_removal.specs.Meeting.{literal_places};

use crate::meeting::{fins, infs};
use acc_forms::{Literal, Literals, Terms};
use aut_base::{Memory, Seq};
use std::alloc::Global;

/// The copy for one term: its number, its first set, and what the term asks of every edge and of some edge again and
/// again.
#[derive(Drop)]
pub(crate) struct TermCopy {
    pub(crate) number: u32,
    pub(crate) first: u32,
    pub(crate) fins: Literals,
    pub(crate) infs: Literals,
}

/// Copies, in the order of their numbers.
pub(crate) type TermCopies = Seq<TermCopy>;

impl TermCopy {
    ghost use Rattle.fin_removal.specs.Copies.{owned};
    ghost use Rattle.fin_removal.specs.Meeting.{literal_places};

    /// How many sets the copy owns.
    pub(crate) fn sets(&self) -> u32
        requires { literal_places self.now.infs < 2 ^ 32 }
        ensures { result ≡ literal_places self.now.infs }
    {
        self.infs.len().max(1) as u32
    }

    /// Inf of each set that the copy owns.
    fn owned(&self, alloc: Global) -> Result<Literals, Memory>
        requires { self.now.first + literal_places self.now.infs < 2 ^ 32 }
        ensures { IfOk result (λ sets. sets ≡ owned self.now) }
    {
        let mut sets = Literals::new(alloc);
        'sets: for set in self.first..self.first + self.sets() {
            sets.push(Literal::Inf { set, neg: false })?;
        }
        Ok(sets)
    }
}

/// The copies of these terms.
pub(crate) fn term_copies(alloc: Global, terms: &Terms) -> Result<TermCopies, Memory>
    requires count { length terms.now + 1 < 2 ^ 32 }
    requires sets { sum_by sets_of terms.now < 2 ^ 32 }
    ensures { IfOk result (λ copies. copies ≡ term_copies terms.now) }
{
    let mut copies = TermCopies::new(alloc);
    let mut number = 1;
    let mut first = 0;
    'terms: for term in terms.as_slice() {
        let copy = TermCopy {
            number,
            first,
            fins: fins(alloc, term)?,
            infs: infs(alloc, term)?,
        };
        number += 1;
        first += copy.sets();
        copies.push(copy)?;
    }
    Ok(copies)
}

/// How many sets the copies own together.
pub(crate) fn all_sets(copies: &TermCopies) -> u32
    requires { sum_by (λ copy. literal_places copy.infs) copies.now < 2 ^ 32 }
    ensures { result ≡ sum_by (λ copy. literal_places copy.infs) copies.now }
{
    let mut all = 0;
    'copies: for copy in copies.as_slice() {
        all += copy.sets();
    }
    all
}

/// For each term, Inf of each set that its copy owns. These are the terms of the condition of the copies.
pub fn owned_sets(alloc: Global, terms: &Terms) -> Result<Terms, Memory>
    requires count { length terms.now + 1 < 2 ^ 32 }
    requires sets { sum_by sets_of terms.now < 2 ^ 32 }
    ensures { IfOk result (λ owned. owned ≡ owned_sets terms.now) }
{
    let copies = term_copies(alloc, terms)?;
    sets_owned(alloc, &copies)
}

/// For each copy, Inf of each set that it owns.
pub(crate) fn sets_owned(alloc: Global, copies: &TermCopies) -> Result<Terms, Memory>
    requires { All (λ copy. copy.first + literal_places copy.infs < 2 ^ 32) copies.now }
    ensures { IfOk result (λ sets. sets ≡ map owned copies.now) }
{
    let mut owned = Terms::new(alloc);
    'copies: for copy in copies.as_slice() {
        owned.push(copy.owned(alloc)?)?;
    }
    Ok(owned)
}
