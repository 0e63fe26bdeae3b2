//! The subcommand.
ghost use Rattle.std.specs.Prelude.{◌≡◌, ◌⊎◌, Err, IfErr, IfOk, IfSome, IsNone, Ok, Some, codes};
ghost use Rattle.std.specs.Prelude.{map};
ghost use Rattle.std.specs.String.{string_bytes};
ghost use Rattle.clap.specs.Words.{app_of, subcommand_name_of};
ghost use Rattle.agc.specs.declared.fault.ProgramFault.TheVariants.{NoMemory, Words};
ghost use Rattle.agc.specs.declared.mode.Mode.{Mode};
ghost use Rattle.agc.specs.declared.mode.Mode.TheVariants.{Script, Serial, Threads};
ghost use Rattle.agc.specs.Modes.{AskFor, mode_name};
ghost use Rattle.agc.specs.Steps.{mode_app};

use crate::command::only_word;
use crate::fault::ProgramFault;
use clap::{ArgMatches, Command};
use std::alloc::{AllocError, Global};

/// The mode of a run.
#[derive(Clone, Copy, Debug, PartialEq, Eq)]
pub enum Mode {
    /// A script of request lines.
    Script,
    /// A bench, by one caller.
    Serial,
    /// A bench, by its workers and devices in threads of their own.
    Threads,
}

/// The mode that a subcommand asks for.
fn mode_named(name: &str) -> Option<Mode>
    ensures named { IfSome result (λ mode. name.now ≡ mode_name mode) }
    ensures none { IsNone result → (mode : Mode) → ¬ (name.now ≡ mode_name mode) }
    ensures script { name.now ≡ codes "script" → result ≡ Some Script }
    ensures serial { name.now ≡ codes "serial" → result ≡ Some Serial }
    ensures threads { name.now ≡ codes "threads" → result ≡ Some Threads }
{
    match name {
        "script" => Some(Mode::Script),
        "serial" => Some(Mode::Serial),
        "threads" => Some(Mode::Threads),
        _ => None,
    }
}

/// The mode that the only word after the program's own name asks for, which `clap` found.
fn mode_alone(matches: &ArgMatches<'_>, words: &[String]) -> Result<Mode, ProgramFault>
    ensures asked { IfOk result (AskFor (map string_bytes words.now)) }
    ensures only { (mode : Mode) → AskFor (map string_bytes words.now) mode
        → subcommand_name_of matches.now ≡ Some (mode_name mode) → result ≡ Ok mode }
    ensures refused { IfErr result (λ e. e ≡ Words) }
{
    let found = only_word(matches, words)?;
    if found != words[1].as_str() {
        return Err(ProgramFault::Words);
    }
    mode_named(found).ok_or(ProgramFault::Words)
}

/// The command that the words are of: a subcommand for each mode.
fn mode_command<'a>(alloc: Global) -> Result<Command<'a>, AllocError>
    ensures { IfOk result (λ c. app_of c ≡ mode_app) }
{
    Command::new(alloc, "agc")
        .subcommand(Command::new(alloc, "script"))?
        .subcommand(Command::new(alloc, "serial"))?
        .subcommand(Command::new(alloc, "threads"))
}

/// The mode that the words of a command line name: the program's own name and one subcommand, and
/// no more.
///
/// # Errors
///
/// `Words` for any other words, and `NoMemory`.
pub fn mode_of(alloc: Global, words: &[String]) -> Result<Mode, ProgramFault>
    ensures asked { IfOk result (AskFor (map string_bytes words.now)) }
    ensures only { (mode : Mode) → AskFor (map string_bytes words.now) mode
        → (result ≡ Ok mode) ⊎ (result ≡ Err NoMemory) }
    ensures refused { IfErr result (λ e. (e ≡ Words) ⊎ (e ≡ NoMemory)) }
{
    let command = mode_command(alloc)?;
    let matches = command.try_get_matches_from(words)?;
    mode_alone(&matches, words)
}
