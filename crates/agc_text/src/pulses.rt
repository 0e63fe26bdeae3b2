ghost use Rattle.std.specs.Prelude.{◌≡◌, ◌≤◌, length};
ghost use Rattle.agc_text.specs.Pulses.{counts_line, pulses_text};
ghost use Rattle.agc_text.specs.Writing.{Writes};

use crate::fault::Output;
use crate::reporting::add_count;
use crate::writing::put;
use arrayvec::ArrayString;
use std::io::Write;

#[tactic(auto, unfolding(crate::specs::Pulses::counts_line))]
fn counts_line(name: &str, counts: &[u64; 3]) -> ArrayString<128>
    requires { length name.now ≤ 64 }
    ensures { result.bytes ≡ counts_line name.now counts.now }
{
    let mut line = ArrayString::new();
    line.push_str(name);
    add_count(&mut line, counts[0]);
    add_count(&mut line, counts[1]);
    add_count(&mut line, counts[2]);
    line.push('\n');
    line
}

fn put_counts<W: Write>(name: &str, counts: &[u64; 3], writer: &mut W) -> Result<(), Output>
    requires { length name.now ≤ 64 }
    ensures { Writes (W.contents writer.old) (W.contents writer.new)
        (counts_line name.now counts.now) result }
{
    put(writer, counts_line(name, counts).as_bytes())
}

/// Writes what became of pulses: a line of how many were posted, one of how many of these were
/// applied, and one of how many are owed, each with the timer's, the keyboard's and the radar's.
/// The writer is not flushed.
///
/// # Errors
///
/// If a write fails, or takes nothing of what is left. A front of the lines was then written.
pub fn report_pulses<W: Write>(
    posted: &[u64; 3],
    applied: &[u64; 3],
    owed: &[u64; 3],
    writer: &mut W,
) -> Result<(), Output>
    ensures { Writes (W.contents writer.old) (W.contents writer.new)
        (pulses_text posted.now applied.now owed.now) result }
{
    put_counts("POSTED", posted, writer)?;
    put_counts("APPLIED", applied, writer)?;
    put_counts("OWED", owed, writer)
}
