//! What is moved out of the header: names, condition and name.

ghost use Rattle.std.specs.Prelude.{◌≡◌, ◌≢◌, [], AllPairs, Some, map};
ghost use Rattle.std.specs.Option.{option_map, option_map_or};
ghost use Rattle.aut_base.specs.Formula.{formula_tree};
ghost use Rattle.hoa_parser.specs.Naming.{name_item};
ghost use Rattle.hoa_parser.specs.Raw.{written_item};
ghost use Rattle.hoa_reader.specs.Validity.{names_item};
ghost use Rattle.hoa_reader.specs.inner.Headers.{IsHeaderOf, first_given, first_names, formula_item};

use aut_base::{Formula, Names, Text, Words};
use hoa_parser::{Item, Items};
use std::alloc::Global;

/// What is moved out of the header of an automaton.
#[derive(Drop)]
pub(crate) struct Header {
    pub(crate) names: Names,
    pub(crate) formula: Formula,
    pub(crate) name: Option<Text>,
}

/// What was found of it so far.
#[derive(Drop)]
struct Found {
    names: Option<Words>,
    formula: Option<Formula>,
    name: Option<Text>,
}

impl Found {
    /// Nothing yet.
    fn nothing() -> Found
        ensures names { result.names ≡ None }
        ensures formula { result.formula ≡ None }
        ensures name { result.name ≡ None }
    {
        Found {
            names: None,
            formula: None,
            name: None,
        }
    }

    /// Takes what the item says, where no item before it said the same.
    fn take(&mut self, item: Item)
        ensures names { self.new.names ≡ first_given self.old.names (names_item (written_item item)) }
        ensures formula { option_map formula_tree self.new.formula ≡ first_given (option_map formula_tree self.old.formula) (formula_item (written_item item)) }
        ensures name { self.new.name ≡ first_given self.old.name (name_item (written_item item)) }
    {
        match item {
            Item::Ap { names, .. } => put_first(&mut self.names, names),
            Item::Acceptance { formula, .. } => put_first(&mut self.formula, formula),
            Item::Name(text) => put_first(&mut self.name, text),
            Item::States(_) => {}
            Item::Start(_) => {}
            Item::Alias { .. } => {}
            Item::AccName => {}
            Item::Tool => {}
            Item::Properties(_) => {}
            Item::Other(_) => {}
        }
    }
}

/// Puts this where nothing is yet.
fn put_first<T: Drop>(place: &mut Option<T>, found: T)
    ensures { place.new ≡ first_given place.old (Some found) }
{
    if place.is_none() {
        *place = Some(found);
    }
}

/// The names that were found, or none.
fn names_found(alloc: Global, texts: Option<Words>) -> Names
    requires { AllPairs (λ a b. a ≢ b) (option_map_or (λ x. x) texts []) }
    ensures { result ≡ option_map_or (λ x. x) texts [] }
{
    match texts {
        Some(texts) => Names::from_texts(texts),
        None => Names::new(alloc),
    }
}

/// What the header says, moved out of it. All else that was read is let go.
pub(crate) fn header_of(alloc: Global, items: Items) -> Header
    requires { AllPairs (λ a b. a ≢ b) (first_names (map written_item items)) }
    ensures { IsHeaderOf (map written_item items) result }
{
    let mut found = Found::nothing();
    'items: for item in items.into_vec() {
        found.take(item);
    }
    Header {
        names: names_found(alloc, found.names),
        formula: found.formula.unwrap_or(Formula::True),
        name: found.name,
    }
}
