ghost use Rattle.std.specs.Prelude.{◌≡◌, ◌+◌, ◌<◌, ◌≤◌, length, IfOk, IfErr, string_bytes};
ghost use Rattle.std.specs.Prelude.{MatchResult};
ghost use Rattle.std.specs.Str.{IsUtf8};
ghost use Rattle.std.specs.Io.{ReadsAtMost};
ghost use Rattle.std.specs.Io.KnownBytes.{Consumes, IsAtEnd, ReadConsumes};
ghost use Rattle.agc_text.specs.Input.{ReadsAll};
ghost use Rattle.agc_text.specs.Faults.{RefusesInput};

use crate::fault::ReadFault;
use std::alloc::Global;
use std::io;
use std::io::Read;

/// How many bytes an input may have.
pub const MOST_BYTES: usize = 1_048_576;

/// Bytes as a text.
fn text_of(bytes: Vec<u8>) -> Result<String, ReadFault>
    ensures { MatchResult result (λ s. string_bytes s ≡ bytes.items)
        (λ e. (e ≡ ReadFault.NotText) × (IsUtf8 bytes.items → ⊥)) }
{
    match String::from_utf8(bytes) {
        Ok(text) => Ok(text),
        Err(_) => Err(ReadFault::NotText),
    }
}

/// Counts the reads of the input: only `one` makes any.
#[derive(Drop)]
struct Reads {
    made: u32,
}

impl Reads {
    /// One read.
    fn one<R: Read>(&mut self, reader: &mut R, piece: &mut [u8]) -> io::Result<usize>
        requires { self.old.made < 4294967295 }
        ensures made { self.new.made ≡ self.old.made + 1 }
        ensures bound { ReadsAtMost result piece.new }
        ensures bytes { ReadConsumes (R.remaining reader.old) (R.remaining reader.new) result
            piece.new }
    {
        self.made += 1;
        reader.read(piece)
    }
}

/// All bytes up to the end of the input. Each read but the last brings a byte at least, so that
/// there is at most one read more than there may be bytes.
#[tactic(auto, using(crate::proofs::Pieces::consumes_none, crate::proofs::Pieces::consumes_both))]
fn read_bytes<R: Read>(
    alloc: Global,
    reader: &mut R,
    reads: &mut Reads,
) -> Result<Vec<u8>, ReadFault>
    requires { reads.old.made ≡ 0 }
    ensures few { reads.new.made ≤ MOST_BYTES + 1 }
    ensures whole { IfOk result (λ v.
        ReadsAll (R.remaining reader.old) (R.remaining reader.new) v.items) }
    ensures refused { IfErr result (RefusesInput (R.remaining reader.old)
        (R.remaining reader.new)) }
{
    let mut bytes = Vec::new(alloc);
    let mut piece = [0u8; 4096];
    for _ in 0..=MOST_BYTES {
        match reads.one(reader, &mut piece) {
            Ok(0) => return Ok(bytes),
            Ok(count) => {
                if count > MOST_BYTES - bytes.len() {
                    return Err(ReadFault::TooLong);
                }
                bytes.extend_from_slice(&piece[..count])?;
            }
            #[tactic(auto, using(crate::proofs::Pieces::consumes_kept))]
            Err(_) => return Err(ReadFault::Input),
        }
    }
    unreachable!()
}

/// The whole input as a text, read to its end by at most 1,048,577 reads.
///
/// # Errors
///
/// `Input`: a read failed, one that was interrupted among them. `TooLong`: more than 1,048,576
/// bytes were read. `NotText`: the whole was read and is not UTF-8. `NoMemory`. The reader stands
/// where it stopped.
pub fn read_all<R: Read>(alloc: Global, reader: &mut R) -> Result<String, ReadFault>
    ensures whole { IfOk result (λ s.
        ReadsAll (R.remaining reader.old) (R.remaining reader.new) (string_bytes s)) }
    ensures refused { IfErr result (RefusesInput (R.remaining reader.old)
        (R.remaining reader.new)) }
{
    let mut reads = Reads { made: 0 };
    text_of(read_bytes(alloc, reader, &mut reads)?)
}
