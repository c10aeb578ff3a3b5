//! The automata that a plan compares or combines others with.

ghost use Rattle.std.specs.Prelude.{◌≡◌, ◌<◌, ◌≤◌, All, IfSome, is_some, length, map, true};
ghost use Rattle.std.specs.Option.{option_map};
ghost use Rattle.aut_core.specs.SymbolicAutomata.{automaton_of};
ghost use Rattle.plan_meaning.specs.Operands.{AreOperands, IsOfReadSize, operand_at, refuted_operand};
ghost use Rattle.plan_meaning.specs.Operands.{place_of_equivalent_to, place_of_included_in, place_of_intersect, place_of_product, place_of_product_or, place_of_refuted, place_of_sum};

use aut_base::{Seq, Text};
use aut_core::Automaton;
use filter_plan::{Output, Plan, file_count};

/// Automata, in order.
pub type Automata = Seq<Automaton>;

/// The operand of `--included-in`, if that option is given.
pub(crate) fn included_in_operand<'a>(plan: &Plan, operands: &'a Automata) -> Option<&'a Automaton>
    requires { AreOperands plan.now (map automaton_of operands.now) }
    ensures is { option_map (λ a. automaton_of a.now) result ≡ operand_at plan.now.included_in place_of_included_in (map automaton_of operands.now) }
    ensures sized { IfSome result (λ a. IsOfReadSize (automaton_of a.now)) }
{
    operand_at(&plan.included_in, 0, operands)
}

/// The operand of `--equivalent-to`, if that option is given.
pub(crate) fn equivalent_to_operand<'a>(
    plan: &Plan,
    operands: &'a Automata,
) -> Option<&'a Automaton>
    requires { AreOperands plan.now (map automaton_of operands.now) }
    ensures is { option_map (λ a. automaton_of a.now) result ≡ operand_at plan.now.equivalent_to (place_of_equivalent_to plan.now) (map automaton_of operands.now) }
    ensures sized { IfSome result (λ a. IsOfReadSize (automaton_of a.now)) }
{
    operand_at(&plan.equivalent_to, file_count(&plan.included_in), operands)
}

/// The operand of `--intersect`, if that option is given.
pub(crate) fn intersect_operand<'a>(plan: &Plan, operands: &'a Automata) -> Option<&'a Automaton>
    requires { AreOperands plan.now (map automaton_of operands.now) }
    ensures is { option_map (λ a. automaton_of a.now) result ≡ operand_at plan.now.intersect (place_of_intersect plan.now) (map automaton_of operands.now) }
    ensures sized { IfSome result (λ a. IsOfReadSize (automaton_of a.now)) }
{
    operand_at(&plan.intersect, place_of_intersect(plan), operands)
}

/// The operand of `--product`, if that option is given.
pub(crate) fn product_operand<'a>(plan: &Plan, operands: &'a Automata) -> Option<&'a Automaton>
    requires { AreOperands plan.now (map automaton_of operands.now) }
    ensures is { option_map (λ a. automaton_of a.now) result ≡ operand_at plan.now.product (place_of_product plan.now) (map automaton_of operands.now) }
    ensures sized { IfSome result (λ a. IsOfReadSize (automaton_of a.now)) }
{
    operand_at(&plan.product, place_of_product(plan), operands)
}

/// The operand of `--product-or`, if that option is given.
pub(crate) fn product_or_operand<'a>(plan: &Plan, operands: &'a Automata) -> Option<&'a Automaton>
    requires { AreOperands plan.now (map automaton_of operands.now) }
    ensures is { option_map (λ a. automaton_of a.now) result ≡ operand_at plan.now.product_or (place_of_product_or plan.now) (map automaton_of operands.now) }
    ensures sized { IfSome result (λ a. IsOfReadSize (automaton_of a.now)) }
{
    operand_at(&plan.product_or, place_of_product_or(plan), operands)
}

/// The operand of `--sum`, if that option is given.
pub(crate) fn sum_operand<'a>(plan: &Plan, operands: &'a Automata) -> Option<&'a Automaton>
    requires { AreOperands plan.now (map automaton_of operands.now) }
    ensures is { option_map (λ a. automaton_of a.now) result ≡ operand_at plan.now.sum (place_of_sum plan.now) (map automaton_of operands.now) }
    ensures sized { IfSome result (λ a. IsOfReadSize (automaton_of a.now)) }
{
    operand_at(&plan.sum, place_of_sum(plan), operands)
}

/// The operand of `--refute`, if that option is given.
pub(crate) fn refuted_operand<'a>(plan: &Plan, operands: &'a Automata) -> Option<&'a Automaton>
    requires { AreOperands plan.now (map automaton_of operands.now) }
    ensures is { option_map (λ a. automaton_of a.now) result ≡ refuted_operand plan.now (map automaton_of operands.now) }
    ensures sized { IfSome result (λ a. IsOfReadSize (automaton_of a.now)) }
{
    match &plan.output {
        Output::Refute(_) => Some(operands.at(place_of_refuted(plan))),
        Output::Hoa | Output::Stats(_) => None,
    }
}

/// The operand of this index, if the option is given.
fn operand_at<'a>(
    name: &Option<Text>,
    place: usize,
    operands: &'a Automata,
) -> Option<&'a Automaton>
    requires within { is_some name.now ≡ true → place < length operands.now }
    requires sized { All IsOfReadSize (map automaton_of operands.now) }
    ensures is { option_map (λ a. automaton_of a.now) result ≡ operand_at name.now place (map automaton_of operands.now) }
    ensures sized { IfSome result (λ a. IsOfReadSize (automaton_of a.now)) }
{
    match name {
        Some(_) => Some(operands.at(place)),
        None => None,
    }
}

/// The index of an operand: the number of operands of the options that are read before.
fn place_of_intersect(plan: &Plan) -> usize
    ensures is { result ≡ place_of_intersect plan.now }
    ensures few { result ≤ 2 }
{
    file_count(&plan.included_in) + file_count(&plan.equivalent_to)
}

fn place_of_product(plan: &Plan) -> usize
    ensures is { result ≡ place_of_product plan.now }
    ensures few { result ≤ 3 }
{
    place_of_intersect(plan) + file_count(&plan.intersect)
}

fn place_of_product_or(plan: &Plan) -> usize
    ensures is { result ≡ place_of_product_or plan.now }
    ensures few { result ≤ 4 }
{
    place_of_product(plan) + file_count(&plan.product)
}

fn place_of_sum(plan: &Plan) -> usize
    ensures is { result ≡ place_of_sum plan.now }
    ensures few { result ≤ 5 }
{
    place_of_product_or(plan) + file_count(&plan.product_or)
}

fn place_of_refuted(plan: &Plan) -> usize
    ensures is { result ≡ place_of_refuted plan.now }
    ensures few { result ≤ 6 }
{
    place_of_sum(plan) + file_count(&plan.sum)
}
