//! Laws: language inclusion and equivalence by way of complements.

ghost use Rattle.inclusion.specs.Laws.{IncludedWhereNone, NotIncludedWhereWord, SameWhereNoneTwice};

/// An automaton and a complement of another accept no word in common exactly where the first is included in the other.
pub fn included_where_none()
    ensures { IncludedWhereNone }
{}

/// A word that an automaton and a complement of another both accept is accepted by the first and not by the other.
pub fn not_included_where_word()
    ensures { NotIncludedWhereWord }
{}

/// Two automata are language equivalent exactly where neither accepts a word in common with a complement of the other.
pub fn same_where_none_twice()
    ensures { SameWhereNoneTwice }
{}
