// Texts that are collected in memory.
use crate::fault::Output;
use crate::text_writer::TextWriter;
use crate::writing::put;
use std::alloc::{AllocError, Global};
use std::io::Write;

/// The bytes for which a buffer has room before it takes more memory.
const ROOM: usize = 32_768;

/// A text that is collected in memory, to be written at once. If memory runs out for a part,
/// neither it nor anything after it is added, and the text can't be written.
pub type Buffer = TextWriter<Vec<u8>>;

impl TextWriter<Vec<u8>> {
    /// An empty text, with room for 32,768 bytes.
    ///
    /// # Errors
    ///
    /// If memory runs out.
    pub fn new(alloc: Global) -> Result<Buffer, AllocError> {
        let room: Vec<u8> = Vec::with_capacity(alloc, ROOM)?;
        Ok(TextWriter::to(room))
    }

    /// Empties the text.
    pub fn clear(&mut self) {
        self.writer.clear();
    }

    /// All bytes that were added.
    pub fn as_bytes(&self) -> &[u8] {
        self.writer.as_slice()
    }

    /// Writes the text, and empties it.
    ///
    /// # Errors
    ///
    /// If a write fails, or there was no memory for all of it.
    pub fn send<W: Write>(&mut self, writer: &mut W) -> Result<(), Output> {
        self.end()?;
        put(writer, self.as_bytes())?;
        self.clear();
        Ok(())
    }
}
