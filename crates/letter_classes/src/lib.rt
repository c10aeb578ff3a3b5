//! Classes of letters: letters that satisfy the labels of the same edges from a set of states. Constructions over sets of states (the
//! subset construction, determinisation) take one step for each class instead of one for each letter.
//!
//! A caller sees `classes_of_set`, over a `ClassStore`, which caches the classes of each list of guards. The classes are defined in
//! `specs/SetClasses`, by the least valuation of each.
#![tactic(auto)]

mod classes;
mod form;
mod guards;
mod known;
mod store;
mod taken;

pub use classes::classes_of_set;
pub use form::{Marking, class_form};
pub use store::ClassStore;
pub use taken::{Taking, taken_at};
