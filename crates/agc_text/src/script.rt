ghost use Rattle.std.specs.Prelude.{◌≡◌, map, IfOk, IfErr, length, ◌<◌, ◌∷◌};
ghost use Rattle.std.specs.List.{AllByRecursion};
ghost use Rattle.agc_text.specs.Lines.{line_of};
ghost use Rattle.agc_text.specs.Script.{lines_of};
ghost use Rattle.agc_text.specs.Faults.{RefusesScript};
ghost use Rattle.agc_plan.specs.Ranges.{IsRequest};

use crate::fault::ScriptFault;
use crate::line::parse_line;
use agc_plan::Request;
use std::alloc::Global;

/// The first line without its end, and what follows.
fn first_line(text: &str) -> (&str, &str)
    requires { 0 < length text.now }
    ensures lines { lines_of text.now ≡ result.0.now ∷ lines_of result.1.now }
    ensures shorter { length result.1.now < length text.now }
{
    match text.split_once('\n') {
        Some(parts) => parts,
        None => (text, ""),
    }
}

/// The requests of a script, in order: a text of lines, each ended by LF, which the last may lack.
///
/// # Errors
///
/// `Line`: the first line that is no request. An empty line is none, nor is one with a carriage
/// return. `NoMemory`.
pub fn read_script(alloc: Global, text: &str) -> Result<Vec<Request>, ScriptFault>
    ensures found { IfOk result (λ v. AllByRecursion IsRequest v.items
        × (lines_of text.now ≡ map line_of v.items)) }
    ensures refused { IfErr result (RefusesScript (lines_of text.now)) }
{
    let mut requests = Vec::new(alloc);
    let mut rest = text;
    while !rest.is_empty() {
        let (line, others) = first_line(rest);
        match parse_line(line) {
            Some(request) => requests.push(request)?,
            None => return Err(ScriptFault::Line(requests.len() as u64 + 1)),
        }
        rest = others;
    }
    Ok(requests)
}
