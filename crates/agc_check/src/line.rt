//! Faults of lines, and their wording.
use crate::line_form::{LineForm, LineWord, NO_REQUEST, REQUESTS};
use crate::messages::{Message, NONE, message_of};
use crate::names::{HasName, meant_by, with_name};
use agc_text::Field::Text;

/// Why a line is no request.
#[derive(Clone, Copy)]
pub enum LineFault {
    Empty,
    /// The line begins with a space.
    Space,
    /// The line belongs to a bench.
    OfBench,
    /// No line begins with this word. This kind may be meant.
    Unknown(Option<LineForm>),
    /// Why it is none of its kind, as a sentence, and the text for its gap.
    Wrong(&'static str, &'static str),
}

const BYTE_ORDER_MARK: &str = "it begins with a byte order mark, which a script may not have";

const OF_BENCH: &str = "this looks like a bench, not a script: leave out --script";

const MEANT: &str = "its first word is unknown; did you mean \"{}\"?";

/// The fault of a line of this kind.
fn wrong_words(text: &str, kind: LineForm) -> LineFault {
    let form = kind.form();
    if text.split(' ').count() == form.split(' ').count() {
        for (letter, word) in form.split(' ').zip(text.split(' ')) {
            if let Some(part) = LineWord::of(letter)
                && !part.is_spelled(word)
            {
                return LineFault::Wrong(part.spelling(), "");
            }
        }
    }
    if form == kind.name() {
        LineFault::Wrong("nothing may follow \"{}\"", form)
    } else {
        LineFault::Wrong("it has the form \"{}\", with single spaces", form)
    }
}

/// The fault of a line that should be of one of these kinds, and isn't.
pub(crate) fn fault_of(kinds: &[LineForm], text: &str) -> LineFault {
    if text.is_empty() {
        return LineFault::Empty;
    }
    if text.ends_with('\r') {
        return LineFault::Wrong("a line ends with LF alone, not with CR LF", "");
    }
    if text.contains('\t') {
        return LineFault::Wrong("it has a tab; words are separated by single spaces", "");
    }
    if text.starts_with(' ') {
        return LineFault::Space;
    }
    let (word, _rest) = text.split_once(' ').unwrap_or((text, ""));
    let bytes = word.as_bytes();
    let in_capitals = |kind: &&LineForm| kind.name().as_bytes().eq_ignore_ascii_case(bytes);
    if let Some(kind) = with_name(word, kinds) {
        wrong_words(text, kind)
    } else if let Some(kind) = kinds.iter().find(in_capitals) {
        LineFault::Wrong("write \"{}\" in lowercase", kind.name())
    } else {
        LineFault::Unknown(meant_by(word, kinds))
    }
}

/// Whether a text has no sign of a key, and begins with the word of a request, or nearly.
pub(crate) fn is_like_script(text: &str) -> bool {
    let word = text.split_whitespace().next().unwrap_or("");
    let fault = fault_of(&REQUESTS, word);
    !text.contains('=') && !matches!(fault, LineFault::Empty | LineFault::Unknown(None))
}

/// The fault of a line of a script that is no request.
pub(crate) fn script_fault(text: &str) -> LineFault {
    match fault_of(&REQUESTS, text) {
        LineFault::Unknown(_) if text.starts_with('\u{feff}') => {
            LineFault::Wrong(BYTE_ORDER_MARK, "")
        }
        LineFault::Unknown(_) | LineFault::Space if text.starts_with('[') || text.contains('=') => {
            LineFault::OfBench
        }
        fault => fault,
    }
}

impl LineFault {
    /// The sentence for the fault.
    pub(crate) fn message_of(self) -> Message<'static> {
        let (text, filling) = match self {
            LineFault::Empty => ("a line may not be empty", ""),
            LineFault::Space => ("it begins with a space", ""),
            LineFault::OfBench => (OF_BENCH, ""),
            LineFault::Unknown(None) => (NO_REQUEST, ""),
            LineFault::Unknown(Some(kind)) => (MEANT, kind.name()),
            LineFault::Wrong(text, filling) => (text, filling),
        };
        message_of(text, Text(filling), NONE)
    }
}
