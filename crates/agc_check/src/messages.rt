//! Sentences: texts with gaps, and the fields for the gaps.
use agc_text::Field::{Number, Text};
use agc_text::{Buffer, Field};

/// A text that was read; what a message about it has before the number of a line, `FILE:` for the
/// text of a file; and whether it may be a script if the command line says so.
#[derive(Clone, Copy)]
pub struct NamedText<'a> {
    pub before_line: &'a str,
    pub text: &'a str,
    pub takes_script: bool,
}

/// A text with gaps `{}`, and the fields for them in order; behind the last gap nothing but `NONE`.
pub type Message<'a> = (&'static str, [Field<'a>; 5]);

/// For a gap that a text doesn't have.
pub(crate) const NONE: Field<'static> = Text("");

/// The most findings, and the most warnings, that are reported.
pub(crate) const MOST_TOLD: usize = 20;

/// How many letters of a text are quoted at most.
const MOST_QUOTED: usize = 60;

/// A sentence with at most two gaps.
pub(crate) fn message_of<'a>(
    text: &'static str,
    first: Field<'a>,
    second: Field<'a>,
) -> Message<'a> {
    (text, [first, second, NONE, NONE, NONE])
}

/// A sentence without a gap.
pub(crate) fn plain(text: &'static str) -> Message<'static> {
    message_of(text, NONE, NONE)
}

/// Adds a sentence.
pub(crate) fn put_message(out: &mut Buffer, (text, fields): Message<'_>) {
    out.put(text, &fields);
}

/// Adds the number of a line, after the text that comes before it, and a mark.
pub(crate) fn put_where<'a>(out: &mut Buffer, before_line: &'a str, line: u64, mark: &'a str) {
    out.put("{}{}: {}", &[Text(before_line), Number(line), Text(mark)]);
}

/// Adds how many more findings there are, if there are any.
pub(crate) fn put_more(out: &mut Buffer, count: usize) {
    if count > 0 {
        out.put("and {} more\n", &[Number(count as u64)]);
    }
}

/// Whether a letter moves the cursor, ends a line, or turns the writing direction.
fn moves(letter: char) -> bool {
    matches!(
        letter,
        '\0'..='\u{1f}' | '\u{7f}'..='\u{9f}' | '\u{200e}' | '\u{200f}'
            | '\u{2028}'..='\u{202e}' | '\u{2066}'..='\u{2069}'
    )
}

/// The front of a text that may be quoted: at most sixty letters, none of which moves the cursor or
/// turns the writing direction; and two points if the text is longer.
pub(crate) fn front_of(text: &str) -> (Field<'_>, Field<'static>) {
    for (k, (at, letter)) in text.char_indices().enumerate() {
        if k >= MOST_QUOTED || moves(letter) {
            return (Text(text.get(..at).unwrap_or("")), Text(".."));
        }
    }
    (Text(text), NONE)
}

/// Adds the front of a text in quotes, and a colon.
pub fn put_quoted(out: &mut Buffer, text: &str) {
    let (front, dots) = front_of(text);
    out.put("\"{}{}\": ", &[front, dots]);
}
