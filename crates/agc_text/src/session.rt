ghost use Rattle.std.specs.Prelude.{◌≡◌};
ghost use Rattle.agc_machine.specs.Machines.{after};
ghost use Rattle.agc_text.specs.Writing.{Writes};
ghost use Rattle.agc_text.specs.Session.{line_for};

use crate::fault::Output;
use crate::replies::{put_refusal, put_reply};
use agc_machine::Machine;
use agc_plan::{Fired, Request};
use std::io::Write;

/// Asks for one request, and writes the answer's line. The request is lent, which spares copies of
/// it.
///
/// # Errors
///
/// If a write fails.
pub fn write_answer_to<W: Write>(
    machine: &mut Machine,
    request: &Request,
    writer: &mut W,
) -> Result<(), Output>
    ensures after { machine.new ≡ after machine.old request.now }
    ensures writes { Writes (W.contents writer.old) (W.contents writer.new)
        (line_for machine.old request.now) result }
{
    let mut fired = Fired::new();
    match machine.ask(request, &mut fired) {
        Ok(reply) => put_reply(writer, reply, &fired),
        Err(refusal) => put_refusal(writer, refusal),
    }
}
