//! `agc script`, `agc serial` and `agc threads`: runs a script of requests, or a bench, from
//! standard input.
#![tactic(auto)]

mod command;
mod ending;
mod fault;
mod mode;
mod output;
mod program;

use std::process::ExitCode;

fn main(rt: HostRuntime) -> ExitCode {
    ending::exit_with(&rt, program::run(&rt))
}
