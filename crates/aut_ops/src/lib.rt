//! Operations on automata: completion, sum, product, trimming and pruning.
#![tactic(auto)]

mod breadth_first;
mod completion;
mod copies;
mod fault;
mod join;
mod law;
mod pairing;
mod passable;
mod products;
mod pruning;
mod reached;
mod renumbering;
mod shared;
mod sums;
mod trimming;

pub use completion::complete;
pub use fault::PairFault;
pub use law::{
    few_pairs_exclude_more, pairs_are_determined, pairs_exist, products_are_determined,
    products_exist, pruned_exists, pruned_is_determined, reached_by_letters, trimmed_exists,
    trimmed_is_determined,
};
pub use products::{Paired, product, product_or, square};
pub use pruning::prune;
pub use reached::{ReachedSize, reached_size};
pub use sums::sum;
pub use trimming::trim;
