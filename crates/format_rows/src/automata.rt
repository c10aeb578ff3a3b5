//! An automaton as it was parsed, in words: labels in Polish notation.

use aut_base::{Formula, Text};
use hoa_lexer::Name;
use hoa_parser::{Item, Raw, RawEdge, RawLabel, RawLabels, RawState, ReadFault};
use row_files::{Answer, show_condition};

/// Adds a label.
#[cycle(show_label)]
fn show_label(answer: &mut Answer, label: &RawLabel) {
    match label {
        RawLabel::Not(inner) => {
            answer.add(b"!");
            show_label(answer, inner);
        }
        RawLabel::And(parts) => show_labels(answer, b"(& ", parts),
        RawLabel::Or(parts) => show_labels(answer, b"(| ", parts),
        _ => show_leaf(answer, label),
    }
}

/// Adds a label without parts, or `?` for another.
fn show_leaf(answer: &mut Answer, label: &RawLabel) {
    match label {
        RawLabel::True => answer.add(b"t"),
        RawLabel::False => answer.add(b"f"),
        RawLabel::Prop(place) => answer.add_number(u64::from(*place)),
        RawLabel::Negated(place) => {
            answer.add(b"!");
            answer.add_number(u64::from(*place));
        }
        RawLabel::Cube { names, values } => show_cube(answer, *names, *values),
        RawLabel::Alias(name) => {
            answer.add(b"@");
            answer.add(name.as_bytes());
        }
        _ => answer.add(b"?"),
    }
}

/// Adds a conjunction of literals that are given by their bits.
fn show_cube(answer: &mut Answer, names: u32, values: u32) {
    answer.add(b"(&");
    for place in 0..32_u32 {
        if (names >> place) % 2 == 1 {
            let sign: &[u8] = if (values >> place) % 2 == 0 {
                b" !"
            } else {
                b" "
            };
            answer.add(sign);
            answer.add_number(u64::from(place));
        }
    }
    answer.add(b")");
}

/// Adds the parts of a label.
#[cycle(show_label)]
fn show_labels(answer: &mut Answer, sign: &[u8], parts: &RawLabels) {
    answer.add(sign);
    show_label(answer, &parts.first);
    answer.add(b" ");
    show_label(answer, &parts.second);
    for part in &parts.others {
        answer.add(b" ");
        show_label(answer, part);
    }
    answer.add(b")");
}

/// Adds an item of the header.
fn show_item(answer: &mut Answer, item: &Item) {
    match item {
        Item::States(count) => answer.add_count(b"; states", *count),
        Item::Start(states) => show_start(answer, states.as_slice()),
        Item::Ap { count, names } => show_names(answer, *count, names.as_slice()),
        Item::Alias { name, label } => show_alias(answer, name.as_bytes(), label),
        Item::Acceptance { sets, formula } => show_acceptance(answer, *sets, formula),
        Item::AccName => answer.add(b"; acc-name"),
        Item::Tool => answer.add(b"; tool"),
        Item::Name(text) => show_named(answer, b"; name", text.as_bytes()),
        Item::Properties(words) => show_properties(answer, words.as_slice()),
        Item::Other(name) => show_named(answer, b"; other", name.as_bytes()),
    }
}

/// Adds the initial states.
fn show_start(answer: &mut Answer, states: &[u32]) {
    answer.add(b"; start");
    answer.add_numbers(states);
}

/// Adds the propositions.
fn show_names(answer: &mut Answer, count: u32, names: &[Text]) {
    answer.add_count(b"; ap", count);
    answer.add_texts(names);
}

/// Adds an alias.
fn show_alias(answer: &mut Answer, name: &[u8], label: &RawLabel) {
    show_named(answer, b"; alias", name);
    answer.add(b" ");
    show_label(answer, label);
}

/// Adds an acceptance condition and its number of sets.
fn show_acceptance(answer: &mut Answer, sets: u32, formula: &Formula) {
    answer.add_count(b"; acceptance", sets);
    answer.add(b" ");
    show_condition(answer, formula);
}

/// Adds a word and a text.
fn show_named(answer: &mut Answer, word: &[u8], text: &[u8]) {
    answer.add(word);
    answer.add_text(text);
}

/// Adds the properties.
fn show_properties(answer: &mut Answer, words: &[Name]) {
    answer.add(b"; properties");
    for word in words {
        answer.add_text(word.as_bytes());
    }
}

/// Adds a label in brackets, where there is one.
fn show_maybe(answer: &mut Answer, label: &Option<RawLabel>) {
    if let Some(label) = label {
        answer.add(b" [");
        show_label(answer, label);
        answer.add(b"]");
    }
}

/// Adds an edge.
fn show_edge(answer: &mut Answer, edge: &RawEdge) {
    answer.add(b",");
    show_maybe(answer, &edge.label);
    answer.add_numbers(edge.ends.to());
    answer.add_marks(edge.ends.marks());
}

/// Adds a state with its edges.
fn show_state(answer: &mut Answer, state: &RawState) {
    answer.add(b"; state");
    show_maybe(answer, &state.label);
    answer.add_count(b"", state.number);
    answer.add_marks(state.marks.as_slice());
    for edge in state.edges.as_slice() {
        show_edge(answer, edge);
    }
}

/// Adds all that was written, in order.
pub(crate) fn show_raw(answer: &mut Answer, raw: &Raw) {
    answer.add(raw.version.as_bytes());
    for item in raw.items.as_slice() {
        show_item(answer, item);
    }
    for state in raw.states.as_slice() {
        show_state(answer, state);
    }
}

/// Adds a fault.
pub(crate) fn show_read_fault(answer: &mut Answer, fault: ReadFault) {
    let word: &[u8] = match fault {
        ReadFault::Syntax(_) => b"syntax ",
        ReadFault::Truncated => b"truncated",
        ReadFault::Depth => b"depth",
        ReadFault::Bytes => b"bytes",
        ReadFault::Read => b"read",
        ReadFault::Memory => b"memory",
    };
    answer.add(word);
    if let ReadFault::Syntax(offset) = fault {
        answer.add_number(offset);
    }
}
