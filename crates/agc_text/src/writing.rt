ghost use Rattle.std.specs.Prelude.{◌≡◌, length, drop};
ghost use Rattle.agc_text.specs.Writing.{Writes};

use crate::fault::Output;
use std::io::Write;

/// Writes all bytes, by as many writes as that takes.
///
/// # Errors
///
/// If a write fails, or takes nothing of what is left. A front of the bytes was then written.
#[inline(never)]
fn put_by_parts<W: Write>(writer: &mut W, bytes: &[u8]) -> Result<(), Output>
    ensures { Writes (W.contents writer.old) (W.contents writer.new) bytes.now result }
{
    let mut rest = bytes;
    while !rest.is_empty() {
        match writer.write(rest) {
            Ok(0) => return Err(Output),
            Ok(taken) => rest = rest.split_at(taken).1,
            Err(_) => return Err(Output),
        }
    }
    Ok(())
}

/// Writes all bytes: by one write, which mostly takes them all, and what it left by others.
///
/// # Errors
///
/// If a write fails, or takes nothing of what is left. A front of the bytes was then written.
pub fn put<W: Write>(writer: &mut W, bytes: &[u8]) -> Result<(), Output>
    ensures { Writes (W.contents writer.old) (W.contents writer.new) bytes.now result }
{
    if bytes.is_empty() {
        return Ok(());
    }
    match writer.write(bytes) {
        Ok(taken) => {
            if taken == bytes.len() {
                Ok(())
            } else if taken == 0 {
                Err(Output)
            } else {
                put_by_parts(writer, bytes.split_at(taken).1)
            }
        }
        Err(_) => Err(Output),
    }
}
