//! The rules between options.

ghost use Rattle.std.specs.Prelude.{◌≡◌, ◌++◌, ◌≤◌, [], ◌∷◌, true, false, IsTrue, ◌↔◌, is_some, count_by};
ghost use Rattle.std.specs.Str.{bytes_eq};
ghost use Rattle.filter_plan.specs.Table.{refuted};
ghost use Rattle.filter_plan.specs.Words.{KeepsRules, changes, dash, has_form, file_list, operands};

use crate::{Form, Output, Plan};
use aut_base::Text;

/// Whether the plan keeps the rules between options.
pub(crate) fn keeps_rules(plan: &Plan) -> bool
    ensures { IsTrue result ↔ KeepsRules plan.now }
{
    refutes_alone(plan) && is_made_alone(plan) && names_one_dash(plan)
}

/// Whether a refutation, if asked for, comes without any operation, form or completion.
fn refutes_alone(plan: &Plan) -> bool
    ensures { IsTrue result ↔ (is_some (refuted plan.now.output) ≡ true → changes plan.now ≡ false) }
{
    match plan.output {
        Output::Refute(_) => !changes_automata(plan),
        _ => true,
    }
}

/// Whether the plan changes automata: whether it has an operation, a form or completion.
pub fn changes_automata(plan: &Plan) -> bool
    ensures { result ≡ changes plan.now }
{
    plan.product.is_some()
        || plan.product_or.is_some()
        || plan.sum.is_some()
        || plan.remove_ap.is_some()
        || plan.trim
        || plan.complement
        || is_form(plan.form)
        || plan.complete
}

/// Whether the form is another than `AsIs`.
fn is_form(form: Form) -> bool
    ensures { result ≡ has_form form }
{
    !matches!(form, Form::AsIs)
}

/// Whether a generated stream, if asked for, comes without any other stream.
fn is_made_alone(plan: &Plan) -> bool
    ensures { IsTrue result ↔ (is_some plan.now.made ≡ true → plan.now.streams ≡ []) }
{
    plan.made.is_none() || plan.streams.is_empty()
}

/// Whether standard input is named once at most.
fn names_one_dash(plan: &Plan) -> bool
    ensures { IsTrue result ↔ (count_by (bytes_eq dash) (operands plan.now ++ plan.now.streams) ≤ 1) }
{
    let operands = operand_dashes(plan);
    operands <= 1 && stream_dashes(plan.streams.as_slice()) <= 1 - operands
}

/// How many operands are read from standard input.
fn operand_dashes(plan: &Plan) -> usize
    ensures number { result ≡ count_by (bytes_eq dash) (operands plan.now) }
    ensures few { result ≤ 7 }
{
    dashes_of(&plan.included_in)
        + dashes_of(&plan.equivalent_to)
        + dashes_of(&plan.intersect)
        + dashes_of(&plan.product)
        + dashes_of(&plan.product_or)
        + dashes_of(&plan.sum)
        + refuted_dashes(&plan.output)
}

/// 1 where the file is standard input, else 0.
fn dashes_of(file: &Option<Text>) -> usize
    ensures number { result ≡ count_by (bytes_eq dash) (file_list file.now) }
    ensures few { result ≤ 1 }
{
    match file {
        Some(name) => dashes_at(name),
        None => 0,
    }
}

/// 1 where the operand of `--refute` is read from standard input, else 0.
fn refuted_dashes(output: &Output) -> usize
    ensures number { result ≡ count_by (bytes_eq dash) (file_list (refuted output.now)) }
    ensures few { result ≤ 1 }
{
    match output {
        Output::Refute(name) => dashes_at(name),
        _ => 0,
    }
}

/// 1 where the name is that of standard input, else 0.
fn dashes_at(name: &Text) -> usize
    ensures number { result ≡ count_by (bytes_eq dash) (name.now ∷ []) }
    ensures few { result ≤ 1 }
{
    if is_dash(name) { 1 } else { 0 }
}

/// How many streams are standard input.
fn stream_dashes(streams: &[Text]) -> usize
    ensures { result ≡ count_by (bytes_eq dash) streams.now }
{
    streams.iter().filter(|name| is_dash(name)).count()
}

/// Whether the name is that of standard input.
fn is_dash(name: &Text) -> bool
    ensures { result ≡ bytes_eq dash name.now }
{
    b"-".as_slice() == name.as_bytes()
}
