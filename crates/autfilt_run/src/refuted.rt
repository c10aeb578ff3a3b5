//! The line of a refutation.

ghost use Rattle.std.specs.Prelude.{◌≡◌, ◌++◌, All, IfOk, codes, is_some, map, true};
ghost use Rattle.aut_core.specs.SymbolicAutomata.{automaton_of};
ghost use Rattle.autfilt_run.specs.inner.Handling.{TellsRefutation};
ghost use Rattle.filter_plan.specs.Table.{refuted};
ghost use Rattle.plan_meaning.specs.Complements.{AreComplementsKept};
ghost use Rattle.plan_meaning.specs.Operands.{AreOperands, IsOfReadSize};
ghost use Rattle.word_syntax.specs.Printing.{HoldsOnly, word_text};

use aut_base::{Memory, Text};
use aut_core::Automaton;
use filter_plan::Plan;
use plan_meaning::{Automata, Complements, PlanFault, Refutation, refute};
use std::alloc::Global;
use word_syntax::print_word;

// Why so: 'A line that refutes is said within limits' in docs/DECISIONS.md.
/// A line with a word that the automaton accepts and the operand of `--refute` doesn't, or with `included` where there is
/// none.
pub(crate) fn refutation_line(
    alloc: Global,
    plan: &Plan,
    operands: &Automata,
    complements: &mut Complements,
    a: &Automaton,
) -> Result<Text, PlanFault>
    requires refutes { is_some (refuted plan.now.output) ≡ true }
    requires operands { AreOperands plan.now (map automaton_of operands.now) }
    requires size { IsOfReadSize (automaton_of a.now) }
    requires kept { AreComplementsKept plan.now (map automaton_of operands.now) complements.old }
    ensures tells { TellsRefutation result plan.now (map automaton_of operands.now) (automaton_of a.now) }
    ensures kept { AreComplementsKept plan.now (map automaton_of operands.now) complements.new }
{
    match refute(alloc, plan, operands, complements, a)? {
        Some(found) => Ok(word_line(alloc, &found)?),
        None => Ok(Text::from_bytes(alloc, b"included\n")?),
    }
}

/// The word, and a line feed.
fn word_line(alloc: Global, found: &Refutation) -> Result<Text, Memory>
    requires stem { All (HoldsOnly found.now.names) found.now.word.stem }
    requires cycle { All (HoldsOnly found.now.names) found.now.word.cycle }
    ensures { IfOk result (λ text. text ≡ word_text found.now.names found.now.word.stem found.now.word.cycle ++ codes "\n") }
{
    let mut line = print_word(alloc, &found.word, &found.names)?;
    line.push(b'\n')?;
    Ok(line)
}
