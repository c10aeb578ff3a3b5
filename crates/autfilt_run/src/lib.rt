//! The command `autfilt`: reads automata from streams one after the other, filters each by a plan, and writes what the plan
//! makes of those that are kept.
//!
//! There are three layers, and each is public.
//! - A `Session` of a plan is prepared, takes steps until `Turn::Done`, and is finished. A caller sees what each step did by
//! its `Turn`, or by a `RunFault`, after which the session is over. `specs/Turns` says what one step does, `Events` what a
//! run is, `Due` which text is due of an automaton that is kept, and `Over` which limits the filters and changes of a plan
//! pass on it.
//! - `autfilt` takes the words of the command line, a source of texts, a sink for the output and one for notes, and answers how
//!   the run ended. `note` writes the line about an end. Begin with `specs/Run`, `Events` and `OperandEvents`.
//! - `run` does so over the system: its arguments, files, and standard input, output and error. `answer` is the same over any
//!   inputs and sinks (`specs/Answers`).
#![tactic(auto)]

mod command;
mod ended;
mod fault;
mod figures;
mod handle;
mod law;
mod notes;
mod number;
mod operand_files;
mod refuted;
mod session;
mod streams;
mod system;
mod taken;

pub use command::autfilt;
pub use ended::{End, Ended};
pub use fault::RunFault;
pub use law::run_examples;
pub use notes::note;
pub use number::write_number;
pub use session::{Prep, Session, Stage, Turn};
pub use system::{answer, exit_code, refuse, run};
