//! Operations on acceptance conditions (Emerson-Lei conditions, HOA v1, Acceptance): the dual, renumbering of sets,
//! conjunction and disjunction, disjunctive normal form, and the condition of parity automata. Contracts say which tree the resulting
//! condition is, and on which cycles it holds. `specs/` defines the trees, in a file for each operation.
#![tactic(auto)]

mod atoms;
mod duality;
mod fault;
mod join;
mod literal;
mod parity;
mod raise;
mod tally;
mod terms;

pub use atoms::{empty_meets, has_fin};
pub use duality::dual;
pub use fault::FormFault;
pub use join::{conj, disj};
pub use literal::{Literal, Literals, Terms};
pub use parity::parity_min_odd;
pub use raise::shift;
pub use tally::terms_count;
pub use terms::{disjuncts, of_terms};
