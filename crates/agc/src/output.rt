//! Standard output, through a buffer.
ghost use Rattle.std.specs.Prelude.{◌≡◌, [], IfErr, IfOk, OnOk};
ghost use Rattle.std.specs.Io.Buffered.{writer_buffer, writer_contents};
ghost use Rattle.std.specs.Io.KnownBytes.{Keeps};
ghost use Rattle.agc.specs.declared.fault.ProgramFault.TheVariants.{NoMemory, Output};

use crate::fault::ProgramFault;
use std::io;
use std::io::{BufWriter, Printer, Write};

/// Standard output, through a buffer that must be flushed.
///
/// # Errors
///
/// `NoMemory`, and no other.
pub fn buffered_output<R: AllocGlobal + Print>(
    rt: &R,
) -> Result<BufWriter<Printer<'_, R>>, ProgramFault>
    ensures empty { IfOk result (λ w. writer_buffer w ≡ []) }
    ensures refused { IfErr result (λ e. e ≡ NoMemory) }
{
    BufWriter::new(rt.alloc(), io::writer(rt)).map_err(|_| ProgramFault::NoMemory)
}

/// Writes what a buffer still holds.
///
/// # Errors
///
/// `Output`, and no other.
pub fn flush_output<W: Write + Drop>(writer: &mut BufWriter<W>) -> Result<(), ProgramFault>
    ensures empty { OnOk result (writer_buffer writer.new ≡ []) }
    ensures refused { IfErr result (λ e. e ≡ Output) }
    ensures kept { Keeps (writer_contents W.contents writer.old)
        (writer_contents W.contents writer.new) }
{
    writer.flush().map_err(|_| ProgramFault::Output)
}
