//! Laws of acceptance and of canonical labels, and examples of small automata and labels.

ghost use Rattle.aut_base.specs.Acceptance.{SameWordSameVerdict};
ghost use Rattle.aut_base.specs.Automaton.{Automaton};
ghost use Rattle.aut_base.specs.Examples.{WorkedExamples};
ghost use Rattle.aut_base.specs.LabelExamples.{CanonicalExamples};
ghost use Rattle.aut_base.specs.LabelLaws.{CanonicalAcceptsTheSame, CanonicalLabelKeepsTruth, OtherNamesPlayNoPart, SameTruthSameLabel};

/// Lasso words that spell the same infinite word are accepted alike, by every automaton.
pub fn same_word_same_verdict()
    ensures { SameWordSameVerdict }
{}

/// Which words some automata of one and two states accept, and which they don't.
pub fn worked_examples()
    ensures { WorkedExamples }
{}

/// The canonical form of a label is true where the label is.
pub fn canonical_label_keeps_truth()
    ensures { CanonicalLabelKeepsTruth }
{}

/// Labels have one canonical form exactly where they are true at the same letters.
pub fn same_truth_same_label()
    ensures { SameTruthSameLabel }
{}

/// An automaton accepts the same words once each of its labels is replaced by its canonical form.
pub fn canonical_accepts_the_same()
    ensures { (a : Automaton) → CanonicalAcceptsTheSame a }
{}

/// Further propositions, which occur in no label, don't change which words an automaton accepts.
pub fn other_names_play_no_part()
    ensures { OtherNamesPlayNoPart }
{}

/// Some labels in canonical form, and the order of valuations.
pub fn canonical_examples()
    ensures { CanonicalExamples }
{}
