//! The files of the operands of a plan.

ghost use Rattle.std.specs.Prelude.{◌≡◌, ◌<◌, ◌≤◌, ◌++◌, [], List, ℕ, length};
ghost use Rattle.std.specs.List.{slice_index_or};
ghost use Rattle.filter_plan.specs.Table.{refuted};
ghost use Rattle.filter_plan.specs.Words.{file_list, operands};

use aut_base::Text;
use filter_plan::{Output, Plan, file_count};

/// How many operands the plan has.
pub(crate) fn operand_count(plan: &Plan) -> usize
    ensures number { result ≡ length (operands plan.now) }
    ensures few { result ≤ 7 }
{
    let compared = file_count(&plan.included_in)
        + file_count(&plan.equivalent_to)
        + file_count(&plan.intersect);
    let combined = file_count(&plan.product) + file_count(&plan.product_or) + file_count(&plan.sum);
    compared + combined + refuted_count(&plan.output)
}

/// The file of the operand at this index.
pub(crate) fn operand_file(plan: &Plan, place: usize) -> &Text
    requires { place < length (operands plan.now) }
    ensures { result.now ≡ slice_index_or (operands plan.now) place [] }
{
    if place < file_count(&plan.included_in) {
        return file_of(&plan.included_in);
    }
    let place = place - file_count(&plan.included_in);
    if place < file_count(&plan.equivalent_to) {
        return file_of(&plan.equivalent_to);
    }
    let place = place - file_count(&plan.equivalent_to);
    if place < file_count(&plan.intersect) {
        return file_of(&plan.intersect);
    }
    combined_file(plan, place - file_count(&plan.intersect))
}

/// The same among the operands from the first operation on.
fn combined_file(plan: &Plan, place: usize) -> &Text
    requires { place < length (file_list plan.now.product ++ (file_list plan.now.product_or ++ (file_list plan.now.sum ++ file_list (refuted plan.now.output)))) }
    ensures { result.now ≡ slice_index_or (file_list plan.now.product ++ (file_list plan.now.product_or ++ (file_list plan.now.sum ++ file_list (refuted plan.now.output)))) place [] }
{
    if place < file_count(&plan.product) {
        return file_of(&plan.product);
    }
    let place = place - file_count(&plan.product);
    if place < file_count(&plan.product_or) {
        return file_of(&plan.product_or);
    }
    let place = place - file_count(&plan.product_or);
    if place < file_count(&plan.sum) {
        return file_of(&plan.sum);
    }
    refuted_file(&plan.output)
}

/// The file, which is there: the contract asks for Some.
fn file_of(file: &Option<Text>) -> &Text
    requires { 0 < length (file_list file.now) }
    ensures { (rest : List (List ℕ)) → slice_index_or (file_list file.now ++ rest) 0 [] ≡ result.now }
{
    match file {
        Some(file) => file,
        None => unreachable!(),
    }
}

/// 1 where the plan prints refutations, and else 0.
fn refuted_count(output: &Output) -> usize
    ensures number { result ≡ length (file_list (refuted output.now)) }
    ensures few { result ≤ 1 }
{
    match output {
        Output::Refute(_) => 1,
        _ => 0,
    }
}

/// The operand's file of `--refute`.
fn refuted_file(output: &Output) -> &Text
    requires { 0 < length (file_list (refuted output.now)) }
    ensures { result.now ≡ slice_index_or (file_list (refuted output.now)) 0 [] }
{
    match output {
        Output::Refute(file) => file,
        _ => unreachable!(),
    }
}
