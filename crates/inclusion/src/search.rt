//! Whether two automata accept a lasso word in common, and the search for one.

ghost use Rattle.std.specs.Prelude.{◌+◌, ◌<◌, ◌≤◌, ◌^◌, ◌↔◌, IfOk, IsTrue, IsErrOf, MatchOption, OnOk, length};
ghost use Rattle.aut_base.specs.declared.limit.TheConstants.{MOST_NAMES, MOST_PAIRS};
ghost use Rattle.aut_core.specs.SymbolicAutomata.{automaton_of};
ghost use Rattle.aut_core.specs.OtherNames.{joined_names};
ghost use Rattle.aut_ops.specs.Products.{HasMorePairs, over_both};
ghost use Rattle.aut_ops.specs.declared.fault.PairFault.{PairFault};
ghost use Rattle.inclusion.specs.Common.{AcceptNoneTogether, IsWordOfBoth};
ghost use Rattle.word_syntax.specs.Matching.{AcceptTogether};

use aut_base::Lasso;
use aut_core::Automaton;
use aut_ops::{PairFault, few_pairs_exclude_more, product};
use lasso_emptiness::{accepted_word, accepts_some};
use std::alloc::Global;

/// Whether some lasso word is accepted by both automata. No word is made.
pub fn accept_together(alloc: Global, a: &Automaton, b: &Automaton) -> Result<bool, PairFault>
    requires sets { length (joined_names a.now.names b.now.names) ≤ MOST_NAMES → a.now.sets + b.now.sets < 2 ^ 32 }
    ensures some { IfOk result (λ some. IsTrue some ↔ AcceptTogether (automaton_of a.now) (automaton_of b.now)) }
    ensures within { OnOk result (length (joined_names a.now.names b.now.names) ≤ MOST_NAMES) }
    ensures few { OnOk result (HasMorePairs MOST_PAIRS
        (over_both (automaton_of a.now) (automaton_of b.now) (automaton_of a.now))
        (over_both (automaton_of a.now) (automaton_of b.now) (automaton_of b.now)) → ⊥) }
    ensures names { IsErrOf result PairFault.Names → MOST_NAMES < length (joined_names a.now.names b.now.names) }
    ensures names_first { IsErrOf result PairFault.Pairs → length (joined_names a.now.names b.now.names) ≤ MOST_NAMES }
    ensures pairs { IsErrOf result PairFault.Pairs → HasMorePairs MOST_PAIRS
        (over_both (automaton_of a.now) (automaton_of b.now) (automaton_of a.now))
        (over_both (automaton_of a.now) (automaton_of b.now) (automaton_of b.now)) }
{
    few_pairs_exclude_more();
    let both = product(alloc, a, b)?;
    let some = accepts_some(alloc, &both)?;
    Ok(some)
}

/// A lasso word that both automata accept, or None where there is none. With a complement of an automaton as the second it is
/// a word that the first accepts and that automaton doesn't: a counterexample to inclusion.
pub fn counterexample(
    alloc: Global,
    a: &Automaton,
    co_b: &Automaton,
) -> Result<Option<Lasso>, PairFault>
    requires sets { length (joined_names a.now.names co_b.now.names) ≤ MOST_NAMES → a.now.sets + co_b.now.sets < 2 ^ 32 }
    ensures word { IfOk result (λ found. MatchOption found (AcceptNoneTogether (automaton_of a.now) (automaton_of co_b.now)) (IsWordOfBoth (automaton_of a.now) (automaton_of co_b.now))) }
    ensures within { OnOk result (length (joined_names a.now.names co_b.now.names) ≤ MOST_NAMES) }
    ensures few { OnOk result (HasMorePairs MOST_PAIRS
        (over_both (automaton_of a.now) (automaton_of co_b.now) (automaton_of a.now))
        (over_both (automaton_of a.now) (automaton_of co_b.now) (automaton_of co_b.now)) → ⊥) }
    ensures names { IsErrOf result PairFault.Names → MOST_NAMES < length (joined_names a.now.names co_b.now.names) }
    ensures names_first { IsErrOf result PairFault.Pairs → length (joined_names a.now.names co_b.now.names) ≤ MOST_NAMES }
    ensures pairs { IsErrOf result PairFault.Pairs → HasMorePairs MOST_PAIRS
        (over_both (automaton_of a.now) (automaton_of co_b.now) (automaton_of a.now))
        (over_both (automaton_of a.now) (automaton_of co_b.now) (automaton_of co_b.now)) }
{
    few_pairs_exclude_more();
    let both = product(alloc, a, co_b)?;
    let found = accepted_word(alloc, &both)?;
    Ok(found)
}
