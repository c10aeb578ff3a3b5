//! Algorithms on directed graphs whose nodes are numbers: reachability, shortest walks, and strongly connected
//! components. Each call is exact, and takes time linear in the nodes and arcs.
//!
//! A caller sees `Graph`, `reach`, `path` and `components`. Walks are defined in `specs/Walk.antt`, and the answers of the calls
//! in `Reach.antt`, `Path.antt` and `Components.antt` beside it; `specs/inner` is for the inner functions.
#![tactic(auto)]

mod chains;
mod graph;
mod numbered;
mod pass;
mod reached;
mod search;
mod shortest;

pub use graph::Graph;
pub use numbered::components;
pub use reached::reach;
pub use shortest::path;
