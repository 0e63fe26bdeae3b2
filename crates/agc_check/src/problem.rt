//! Why a document is no bench.
use agc_document::{KeyFault, TextForm};

/// Why a document is no bench, at one place.
#[derive(Clone, Copy)]
pub enum Problem {
    /// The text is no TOML document. The finding's text says why, in the parser's words.
    NotToml,
    /// The text is no TOML document, because this word of it, five octal digits, has no quotes.
    NoQuotes,
    /// The text is no TOML document, because a table has two keys with this name.
    KeyTwice,
    /// A key, or the kind, range or length of its value.
    Key(KeyFault),
    /// The finding's text isn't of this form.
    Text(TextForm),
    /// An earlier task is the same.
    TaskTwice,
    /// An earlier entry has the same group and phase.
    PhaseTwice,
    /// Each of the six groups has an entry whose job wants a VAC area.
    TooManyAreas,
}
