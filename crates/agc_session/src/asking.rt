// A bench's machine that gets its requests, piece by piece.
ghost use Rattle.agc_machine.specs.Machines.{after};
ghost use Rattle.agc_session.specs.Runs.{bench_requests};
ghost use Rattle.agc_session.specs.Steps.{line_written, line_stopped};
ghost use Rattle.agc_session.specs.Walks.{AsksInOrder};

use crate::walk::Walk;
use agc_document::Bench;
use agc_machine::Machine;
use agc_plan::Request;
use agc_text::{Output, write_answer_to};
use std::io::Write;

/// Asks for all of these requests in order, and writes a line for each answer.
#[inline(always)]
pub(crate) fn ask_all<W: Write>(
    machine: &mut Machine,
    requests: &[Request],
    writer: &mut W,
) -> Result<(), Output>
    ensures { AsksInOrder after line_written line_stopped machine.old requests.now machine.new
        (W.contents writer.old) (W.contents writer.new) result }
{
    for request in requests {
        write_answer_to(machine, request, writer)?;
    }
    Ok(())
}

/// Asks for all requests of a bench in order, and writes a line for each answer.
pub(crate) fn ask_bench<W: Write>(
    machine: &mut Machine,
    bench: &Bench,
    writer: &mut W,
) -> Result<(), Output>
    ensures { AsksInOrder after line_written line_stopped machine.old (bench_requests bench.now)
        machine.new (W.contents writer.old) (W.contents writer.new) result }
{
    let mut walk = Walk::new(bench);
    while walk.advance() {
        ask_all(machine, walk.requests(), writer)?;
    }
    Ok(())
}
