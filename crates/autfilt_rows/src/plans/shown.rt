//! A plan as text: each field that differs from the plan of no words.

use crate::plans::values::{
    begin, show_count, show_file, show_hidden, show_output, show_pattern, show_range, show_text,
};
use filter_plan::{Form, Plan};
use row_files::Answer;

/// Adds each field that differs.
pub(crate) fn show_plan(answer: &mut Answer, plan: &Plan) {
    show_filters(answer, plan);
    show_ranges(answer, plan);
    show_operations(answer, plan);
    show_form(answer, plan);
    show_flag(answer, b"complete", plan.complete);
    show_output(answer, &plan.output);
    show_run(answer, plan);
}

/// Adds the filters that are no ranges.
fn show_filters(answer: &mut Answer, plan: &Plan) {
    show_pattern(answer, b"accept_word", &plan.accept_word);
    show_pattern(answer, b"reject_word", &plan.reject_word);
    show_flag(answer, b"is_empty", plan.is_empty);
    show_file(answer, b"included_in", &plan.included_in);
    show_file(answer, b"equivalent_to", &plan.equivalent_to);
    show_file(answer, b"intersect", &plan.intersect);
    show_flag(answer, b"is_deterministic", plan.is_deterministic);
    show_flag(answer, b"is_complete", plan.is_complete);
    show_flag(answer, b"is_unambiguous", plan.is_unambiguous);
}

/// Adds the filters that are ranges of numbers.
fn show_ranges(answer: &mut Answer, plan: &Plan) {
    show_range(answer, b"states", plan.states);
    show_range(answer, b"edges", plan.edges);
    show_range(answer, b"acc_sets", plan.acc_sets);
    show_range(answer, b"ap", plan.ap);
}

/// Adds the operations.
fn show_operations(answer: &mut Answer, plan: &Plan) {
    show_file(answer, b"product", &plan.product);
    show_file(answer, b"product_or", &plan.product_or);
    show_file(answer, b"sum", &plan.sum);
    show_hidden(answer, &plan.remove_ap);
    show_flag(answer, b"trim", plan.trim);
    show_flag(answer, b"complement", plan.complement);
}

/// Adds the form.
fn show_form(answer: &mut Answer, plan: &Plan) {
    let form: &[u8] = match plan.form {
        Form::AsIs => return,
        Form::Deterministic => b"form deterministic",
        Form::Parity => b"form parity",
        Form::Buchi => b"form buchi",
        Form::RemoveFin => b"form remove_fin",
        Form::Dnf => b"form dnf",
        Form::Monitor => b"form monitor",
    };
    begin(answer, form);
}

/// Adds the options of the whole run.
fn show_run(answer: &mut Answer, plan: &Plan) {
    show_flag(answer, b"invert", plan.invert);
    show_flag(answer, b"count", plan.count);
    show_flag(answer, b"quiet", plan.quiet);
    show_count(answer, b"most", plan.most);
    show_count(answer, b"made", plan.made);
    for stream in plan.streams.as_slice() {
        show_text(answer, b"stream", stream);
    }
}

/// Adds a flag that is set.
fn show_flag(answer: &mut Answer, name: &[u8], stands: bool) {
    if stands {
        begin(answer, name);
    }
}
