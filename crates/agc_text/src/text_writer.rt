// Texts with gaps, for a writer that may fail.
use crate::fault::Output;
use std::io;
use std::io::Write;

/// A value for a gap `{}` of a text.
#[derive(Clone, Copy)]
pub enum Field<'a> {
    /// A text as it is.
    Text(&'a str),
    /// Bytes as they are.
    Bytes(&'a [u8]),
    /// A decimal number.
    Number(u64),
    /// Five octal digits at least.
    Octal(u16),
    /// Two octal digits at least.
    Priority(u16),
    /// Centiseconds, as seconds with two decimals.
    Seconds(u64),
    /// A text as a value of CSV: in quotes where it has a comma, a quote or the end of a line, each
    /// quote twice.
    Csv(&'a str),
    /// A text as it is within the quotes of a string of JSON: it ends nothing there. A control
    /// character is a blank.
    Json(&'a str),
}

/// A writer that remembers whether a write to it failed: then nothing more is written.
#[derive(Drop)]
pub struct TextWriter<W> {
    pub(crate) writer: W,
    failed: bool,
}

/// The text before the first gap, and the text after it.
fn split_at_gap(text: &str) -> (&str, &str) {
    match text.split_once("{}") {
        None => (text, ""),
        Some(parts) => parts,
    }
}

/// Writes a text as a value of CSV.
fn put_csv<W: Write>(writer: &mut W, text: &str) -> io::Result<()> {
    if !text.contains(',') && !text.contains('"') && !text.contains('\n') && !text.contains('\r') {
        return writer.write_all(text.as_bytes());
    }
    for part in text.split('"') {
        writer.write_all(b"\"")?;
        writer.write_all(part.as_bytes())?;
        writer.write_all(b"\"")?;
    }
    Ok(())
}

/// Writes a text as it is within a string of JSON.
fn put_json<W: Write>(writer: &mut W, text: &str) -> io::Result<()> {
    for byte in text.as_bytes() {
        match *byte {
            b'"' => writer.write_all(b"\\\"")?,
            b'\\' => writer.write_all(b"\\\\")?,
            0..=31 => writer.write_all(b" ")?,
            other => writer.write_all(&[other])?,
        }
    }
    Ok(())
}

/// Writes a field.
fn put_field<W: Write>(writer: &mut W, field: Field<'_>) -> io::Result<()> {
    match field {
        Field::Text(text) => writer.write_all(text.as_bytes()),
        Field::Bytes(bytes) => writer.write_all(bytes),
        Field::Number(number) => write!(writer, "{number}"),
        Field::Octal(number) => write!(writer, "{number:05o}"),
        Field::Priority(number) => write!(writer, "{number:02o}"),
        Field::Seconds(time) => {
            let (whole, rest) = (time / 100, time % 100);
            write!(writer, "{whole}.{rest:02}")
        }
        Field::Csv(text) => put_csv(writer, text),
        Field::Json(text) => put_json(writer, text),
    }
}

impl<W: Write> TextWriter<W> {
    /// Writes to this writer.
    pub fn to(writer: W) -> TextWriter<W> {
        TextWriter {
            writer,
            failed: false,
        }
    }

    /// Writes a field, unless a write failed.
    pub fn add(&mut self, field: Field<'_>) {
        if !self.failed {
            self.failed = put_field(&mut self.writer, field).is_err();
        }
    }

    /// Writes a text, unless a write failed.
    pub fn text(&mut self, text: &str) {
        self.add(Field::Text(text));
    }

    /// Writes a text, and a field after it, up to the first write that fails.
    pub fn fill(&mut self, text: &str, field: Field<'_>) {
        self.text(text);
        self.add(field);
    }

    /// Writes a text. Each gap `{}` in it is replaced by the next field. It stops at the first
    /// write that fails.
    pub fn put(&mut self, text: &str, fields: &[Field<'_>]) {
        let mut rest = text;
        for field in fields {
            let (before, behind) = split_at_gap(rest);
            self.text(before);
            self.add(*field);
            rest = behind;
        }
        self.text(rest);
    }

    /// Whether all writes succeeded.
    ///
    /// # Errors
    ///
    /// If a write failed.
    pub fn end(&self) -> Result<(), Output> {
        if self.failed { Err(Output) } else { Ok(()) }
    }
}
