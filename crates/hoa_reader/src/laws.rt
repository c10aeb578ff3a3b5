//! Laws of the definitions, which no code runs.

ghost use Rattle.hoa_reader.specs.DescribingExamples.{DescribingExamples};
ghost use Rattle.hoa_reader.specs.DescribingLaws.{DescribingLaws};

/// An automaton has at most one first broken rule, and none where it is valid. Then what it describes is well formed.
pub fn describing_laws()
    ensures { DescribingLaws }
{}

/// Which rules some automata break, what they describe, and what is counted of them.
pub fn describing_examples()
    ensures { DescribingExamples }
{}
