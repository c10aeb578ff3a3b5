//! Labels over a fixed number of propositions, kept so that two labels with the same truth have the same number.
#![tactic(auto)]

mod boolean;
mod bring;
mod classes;
mod computed;
mod conjunctions;
mod cubes;
mod draft;
mod fix;
mod guard;
mod guards;
mod holds;
mod labels;
mod law;
mod letters;
mod literals;
mod node_list;
mod nodes;
mod numbers;
mod pick;
mod table;

pub use bring::Brought;
pub use draft::Draft;
pub use guard::{Guard, GuardList};
pub use guards::Guards;
pub use law::{
    classes_are_determined, classes_by_leasts, classes_exclude_more, more_classes_by_leasts,
    one_class_under_none,
};
