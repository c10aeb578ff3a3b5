//! Standard input and files as a source of bytes, and a writer as a sink: what reads from the system and writes to it.
//!
//! Both are generic over std's `Read` and `Write`. Where the bytes of the reader or writer are known, their contracts say
//! which of them they pass on. `specs/Unread` has the definitions for it.
#![tactic(auto)]

mod block;
mod inputs;
mod opener;
mod refusals;
mod sink;

pub use inputs::RealInputs;
pub use opener::{Opener, SystemFiles};
pub use sink::RealSink;
