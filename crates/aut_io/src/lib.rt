//! Input and output: sources of texts and sinks of bytes. Failed calls are counted, so that a contract can say that a program reports
//! a failure only where one occurred. Calls of `open` are counted too, so that a contract can say how many there were.
//!
//! A caller sees the traits `Inputs` and `Sink`, and sources and sinks in memory. What calls of the traits do is defined in
//! `specs/Seen`, and the states of those in memory in `specs/InMemory`.
#![tactic(auto)]

mod failing_calls;
mod inputs;
mod mem_inputs;
mod mem_sink;
mod sink;
mod sure_inputs;
mod sure_sink;
mod text_store;

pub use inputs::Inputs;
pub use mem_inputs::MemInputs;
pub use mem_sink::MemSink;
pub use sink::Sink;
pub use sure_inputs::SureInputs;
pub use sure_sink::SureSink;
