//! The program: it reads its words and its input, makes a script or a bench of it, and runs that.
ghost use Rattle.agc.specs.declared.mode.Mode.TheVariants.{Script, Serial, Threads};
ghost use Rattle.std.specs.Io.Buffered.{writer_buffer, writer_contents};
ghost use Rattle.std.specs.Prelude.{◌≡◌, [], OnOk, map};
ghost use Rattle.std.specs.String.{string_bytes};
ghost use Rattle.agc.specs.Inputs.{EndsBy};
ghost use Rattle.agc.specs.Program.{EndsFor, IsEnd, RunsText, RunsThrough};

use crate::command::given_words;
use crate::fault::ProgramFault;
use crate::mode::{Mode, mode_of};
use crate::output::{buffered_output, flush_output};
use agc_bench::{OpenGate, threads};
use agc_document::read_bench;
use agc_session::{run_script, serial};
use agc_text::{read_all, read_script};
use std::alloc::Global;
use std::io::{BufWriter, Read, Write};
use std::rt::Env;
use std::sync::Wait;
use std::thread::Threads;

/// Runs a text as a script.
fn run_as_script<W: Write>(alloc: Global, text: &str, writer: &mut W) -> Result<(), ProgramFault>
    ensures { RunsText Script text.now (W.contents writer.old) (W.contents writer.new) result }
{
    let requests = read_script(alloc, text)?;
    run_script(alloc, requests.as_slice(), writer)?;
    Ok(())
}

/// Runs a text as a bench by one caller.
fn run_as_serial<W: Write>(alloc: Global, text: &str, writer: &mut W) -> Result<(), ProgramFault>
    ensures { RunsText Serial text.now (W.contents writer.old) (W.contents writer.new) result }
{
    let bench = read_bench(alloc, text)?;
    serial(alloc, &bench, writer)?;
    Ok(())
}

/// Runs a text as a bench by threads.
fn run_as_threads<T: Threads + Wait + Sync, W: Write>(
    rt: &T,
    alloc: Global,
    text: &str,
    writer: &mut W,
) -> Result<(), ProgramFault>
    ensures { RunsText Threads text.now (W.contents writer.old) (W.contents writer.new) result }
{
    let bench = read_bench(alloc, text)?;
    threads(rt, alloc, &bench, writer, &OpenGate)?;
    Ok(())
}

/// Reads the input whole, and runs it as the mode says.
fn run_input<T: Threads + Wait + Sync, R: Read, W: Write>(
    rt: &T,
    alloc: Global,
    mode: Mode,
    reader: &mut R,
    writer: &mut W,
) -> Result<(), ProgramFault>
    ensures { EndsBy (RunsText mode) (R.remaining reader.old) (R.remaining reader.new)
        (W.contents writer.old) (W.contents writer.new) result }
{
    let text = read_all(alloc, reader)?;
    match mode {
        Mode::Script => run_as_script(alloc, text.as_str(), writer),
        Mode::Serial => run_as_serial(alloc, text.as_str(), writer),
        Mode::Threads => run_as_threads(rt, alloc, text.as_str(), writer),
    }
}

/// Runs the input as the mode says, and flushes the buffer through which it writes.
fn run_mode<T: AllocGlobal + Threads + Wait + Sync, R: Read, W: Write + Drop>(
    rt: &T,
    mode: Mode,
    reader: &mut R,
    output: &mut BufWriter<W>,
) -> Result<(), ProgramFault>
    ensures runs { RunsThrough mode (R.remaining reader.old) (R.remaining reader.new)
        (writer_contents W.contents output.old) (writer_contents W.contents output.new) result }
    ensures flushed { OnOk result (writer_buffer output.new ≡ []) }
{
    run_input(rt, rt.alloc(), mode, reader, output)?;
    flush_output(output)
}

/// Runs as these words say, of which the first is the program's own name.
fn run_words<R: AllocGlobal + Input + Print + Threads + Wait + Sync>(
    rt: &R,
    words: &[String],
) -> Result<(), ProgramFault>
    ensures { EndsFor (map string_bytes words.now) result }
{
    let mode = mode_of(rt.alloc(), words)?;
    let mut output = buffered_output(rt)?;
    run_mode(rt, mode, &mut rt.reader(), &mut output)
}

/// Runs the program.
pub fn run(
    rt: &(impl Env + AllocGlobal + Input + Print + Threads + Wait + Sync),
) -> Result<(), ProgramFault>
    ensures { IsEnd result }
{
    let given = given_words(rt)?;
    run_words(rt, given.as_slice())
}
