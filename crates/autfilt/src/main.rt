//! `autfilt`: a filter of omega-automata whose every answer is proved.
//!
//! What it does is the function `autfilt` of `autfilt_run`, over the system.
#![tactic(auto)]

use std::process::ExitCode;

fn main(rt: HostRuntime) -> ExitCode {
    autfilt_run::run(rt)
}
