//! The plan, and how each of its fields is read from the options.

ghost use Rattle.std.specs.Prelude.{◌≡◌, IfOk, IsErrOf};
ghost use Rattle.clap.specs.Words.{found_of, rows_of};
ghost use Rattle.filter_plan.specs.inner.Given.{IsGiven};
ghost use Rattle.filter_plan.specs.declared.plan.Plan.{Plan};

use crate::form::form_of;
use crate::group::read_operands;
use crate::number::made_count_of;
use crate::output::output_of;
use crate::reading::value_of;
use crate::streams::read_streams;
use crate::values::stands;
use crate::{Range, StatsText, UsageFault};
use ap_project::Hide;
use aut_base::{Text, Words};
use clap::ArgMatches;
use std::alloc::Global;
use word_syntax::Pattern;

/// The form that the output is brought into.
#[derive(Clone, Copy, Debug, PartialEq, Eq)]
pub enum Form {
    /// As it is.
    AsIs,
    /// Deterministic.
    Deterministic,
    /// A complete deterministic parity automaton.
    Parity,
    /// A Büchi automaton.
    Buchi,
    /// Without `Fin` in the condition.
    RemoveFin,
    /// With a condition in disjunctive normal form.
    Dnf,
    /// A monitor.
    Monitor,
}

/// What is printed of a kept automaton.
#[derive(Drop)]
pub enum Output {
    /// Its canonical text.
    Hoa,
    /// A line of figures.
    Stats(StatsText),
    /// A word that it accepts and the automaton of this file doesn't.
    Refute(Text),
}

/// A proposition to hide, by its name.
#[derive(Drop)]
pub struct Hidden {
    pub name: Text,
    pub how: Hide,
}

/// What the words ask for. Operands and streams are names of files, and `-` is standard input.
#[derive(Drop)]
pub struct Plan {
    /// Invert the verdict: keep what the filters drop.
    pub invert: bool,
    /// Print only the number of automata that are kept.
    pub count: bool,
    /// Print nothing.
    pub quiet: bool,
    /// Stop after this many automata are kept.
    pub most: Option<u32>,
    pub accept_word: Option<Pattern>,
    pub reject_word: Option<Pattern>,
    pub is_empty: bool,
    pub included_in: Option<Text>,
    pub equivalent_to: Option<Text>,
    pub intersect: Option<Text>,
    pub is_deterministic: bool,
    pub is_complete: bool,
    pub is_unambiguous: bool,
    pub states: Option<Range>,
    pub edges: Option<Range>,
    pub acc_sets: Option<Range>,
    pub ap: Option<Range>,
    pub product: Option<Text>,
    pub product_or: Option<Text>,
    pub sum: Option<Text>,
    pub remove_ap: Option<Hidden>,
    /// Remove the states that aren't reachable.
    pub trim: bool,
    pub complement: bool,
    pub form: Form,
    /// Complete the automaton.
    pub complete: bool,
    pub output: Output,
    /// The streams in the order in which they are read.
    pub streams: Words,
    /// Read a generated stream with this many automata instead of the streams.
    pub made: Option<u32>,
}

/// The plan that the options and streams give; the rules between options aren't checked yet.
pub(crate) fn read_options(alloc: Global, matches: &ArgMatches) -> Result<Plan, UsageFault>
    ensures given { IfOk result (IsGiven (rows_of (found_of matches.now))) }
    ensures usage { IsErrOf result UsageFault.Usage → (plan : Plan) → IsGiven (rows_of (found_of matches.now)) plan → ⊥ }
{
    let form = form_of(matches)?;
    let states = value_of::<Range>(alloc, matches, "states")?;
    let edges = value_of::<Range>(alloc, matches, "edges")?;
    let acc_sets = value_of::<Range>(alloc, matches, "acc-sets")?;
    let ap = value_of::<Range>(alloc, matches, "ap")?;
    let most = value_of::<u32>(alloc, matches, "max-count")?;
    let made = made_count_of(matches, "made")?;
    let streams = read_streams(alloc, matches, made)?;
    let output = output_of(alloc, matches)?;
    let remove_ap = value_of::<Hidden>(alloc, matches, "remove-ap")?;
    let accept_word = value_of::<Pattern>(alloc, matches, "accept-word")?;
    let reject_word = value_of::<Pattern>(alloc, matches, "reject-word")?;
    let operands = read_operands(alloc, matches)?;
    Ok(Plan {
        invert: stands(matches, "invert-match"),
        count: stands(matches, "count"),
        quiet: stands(matches, "quiet"),
        most,
        accept_word,
        reject_word,
        is_empty: stands(matches, "is-empty"),
        included_in: operands.included_in,
        equivalent_to: operands.equivalent_to,
        intersect: operands.intersect,
        is_deterministic: stands(matches, "is-deterministic"),
        is_complete: stands(matches, "is-complete"),
        is_unambiguous: stands(matches, "is-unambiguous"),
        states,
        edges,
        acc_sets,
        ap,
        product: operands.product,
        product_or: operands.product_or,
        sum: operands.sum,
        remove_ap,
        trim: stands(matches, "remove-unreachable-states"),
        complement: stands(matches, "complement"),
        form,
        complete: stands(matches, "complete"),
        output,
        streams,
        made,
    })
}
