//! Laws of the definition of a plan.

ghost use Rattle.filter_plan.specs.Examples.{WordExamples};
ghost use Rattle.filter_plan.specs.Laws.{OnePlan};

use word_syntax::one_reading;

// Why so: 'The words determine the plan' in docs/DECISIONS.md.
/// The words have one plan at most.
pub fn one_plan()
    ensures { OnePlan }
{
    one_reading();
}

/// What `clap`'s definition makes of some command lines.
pub fn word_examples()
    ensures { WordExamples }
{}
