//! `agc_watch` shows the run of a bench, a scenario or a script, in one of several ways; `check`
//! says what is wrong with one. It reads the file that is named, or standard input. `play` answers
//! each line of standard input before it reads the next.
#![tactic(auto)]

mod checking;
mod commands;
mod documents;
mod files;
mod page;
mod program;
mod progress;
mod stops;
mod sweeping;
mod words;
mod work;
mod workbench;

use crate::words::LEAST_WIDTH;
use agc_play::PlayOptions;
use agc_table::TableForm;
use std::env;
use std::io::IsTerminal;
use std::process::ExitCode;

/// The form of texts: on a terminal lines are as wide as the variable `COLUMNS` says, and at least
/// 80 columns.
fn text_form(rt: &HostRuntime) -> TableForm {
    if !rt.stdout().is_terminal() {
        return TableForm::Wide;
    }
    let columns = env::var(rt, "COLUMNS").ok();
    let columns = columns.and_then(|columns| columns.parse::<usize>().ok());
    TableForm::Within(columns.unwrap_or(LEAST_WIDTH).max(LEAST_WIDTH))
}

fn main(rt: HostRuntime) -> ExitCode {
    let rules = PlayOptions {
        prompts: rt.stdin().is_terminal(),
        form: text_form(&rt),
    };
    program::run(&rt, rules)
}
