//! The words of the command line.
ghost use Rattle.std.specs.Prelude.{◌≡◌, ◌⊎◌, IfErr, IfOk, None, Some, length};
ghost use Rattle.clap.specs.Matches.{subcommand_name_of};
ghost use Rattle.agc.specs.declared.fault.ProgramFault.TheVariants.{NoMemory, Words};

use crate::fault::ProgramFault;
use clap::ArgMatches;
use std::env;
use std::io::ErrorKind;
use std::rt::Env;

/// The words of the command line, of which the first is the program's own name.
///
/// # Errors
///
/// `Words` if one isn't text, and `NoMemory`.
pub fn given_words<R: Env + AllocGlobal>(rt: &R) -> Result<Vec<String>, ProgramFault>
    ensures refused { IfErr result (λ e. (e ≡ Words) ⊎ (e ≡ NoMemory)) }
{
    match env::args(rt) {
        Ok(args) => Ok(args.collect(rt.alloc())?),
        Err(error) => {
            if error.kind() == ErrorKind::OutOfMemory {
                Err(ProgramFault::NoMemory)
            } else {
                Err(ProgramFault::Words)
            }
        }
    }
}

/// The subcommand that these words name: the only word after the program's own name. `clap` alone
/// would take more, such as `--`.
///
/// # Errors
///
/// `Words` for no subcommand, and for more words.
pub fn only_word<'a>(matches: &ArgMatches<'a>, words: &[String]) -> Result<&'a str, ProgramFault>
    ensures alone { IfOk result (λ _. length words.now ≡ 2) }
    ensures named { IfOk result (λ word. subcommand_name_of matches.now ≡ Some word.now) }
    ensures refused { IfErr result (λ e. e ≡ Words) }
    ensures none { length words.now ≡ 2
        → IfErr result (λ _. subcommand_name_of matches.now ≡ None) }
{
    if words.len() != 2 {
        return Err(ProgramFault::Words);
    }
    matches.subcommand_name().ok_or(ProgramFault::Words)
}
