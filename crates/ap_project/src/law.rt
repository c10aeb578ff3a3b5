//! Laws: the language of an automaton with a name hidden.

ghost use Rattle.std.specs.Prelude.{ℕ, List};
ghost use Rattle.ap_project.specs.Hiding.{HiddenSays};
ghost use Rattle.ap_project.specs.Laws.{HiddenAbsent, HiddenAccepts, HiddenAny, HiddenPresent, RelabelledIsHidden, SayTheSame};
ghost use Rattle.ap_project.specs.declared.hide.Hide.{Hide};
ghost use Rattle.aut_base.specs.Word.{NameSet};

/// With a name hidden under `Any`, a lasso word is accepted exactly where the original automaton accepts some lasso word
/// that agrees with it on all other names.
pub fn hidden_any()
    ensures { HiddenAny }
{}

/// With a name hidden under `Absent`, a word is accepted exactly where the original automaton accepts it with the name
/// taken out of each letter.
pub fn hidden_absent()
    ensures { HiddenAbsent }
{}

/// With a name hidden under `Present`, a word is accepted exactly where the original automaton accepts it with the name put
/// into each letter.
pub fn hidden_present()
    ensures { HiddenPresent }
{}

/// An automaton with other labels on the same edges is the original with a name hidden, where each label is true exactly
/// where the original label with the name hidden is.
pub fn relabelled_is_hidden()
    ensures { RelabelledIsHidden }
{}

/// `hidden` of a well-formed automaton accepts the language of that automaton with the name hidden.
pub fn hidden_accepts()
    ensures { HiddenAccepts }
{}

// Why so: 'What is hidden is a language, not an automaton' in docs/DECISIONS.md.
/// A language of lasso words: of each stem and cycle, the statement that the word is in it.
pub trait Language {
    ghost says: { List NameSet → List NameSet → Type 0 };
}

/// Two languages with the same lasso words of non-empty cycle still have the same ones after a name is hidden.
pub fn same_language_same_hidden<L: Language, M: Language>()
    ensures { (how : Hide) (name : List ℕ) → SayTheSame L.says M.says → SayTheSame (HiddenSays how name L.says) (HiddenSays how name M.says) }
{}
