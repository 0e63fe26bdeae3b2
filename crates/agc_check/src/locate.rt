//! The bytes at which a document's keys and values begin.
use agc_document::{Key, Location};
use std::alloc::{AllocError, Global};
use toml_parser::text::{first, skip, skip_blank, skip_ws};
use toml_parser::{ParseError, dotted_key, quoted, starts_string, unquoted};

/// One step of the way from the document to a value.
#[derive(Clone, Copy, PartialEq, Eq)]
pub(crate) enum PathStep<'a> {
    Name(&'a str),
    /// The number of an item, from 1.
    Number(u64),
}

/// The way to a value, from the document on.
pub(crate) type KeyPath<'a> = [Option<PathStep<'a>>; 4];

/// The way to a place or, if there is one, on to this step there.
pub(crate) fn way_to<'a>(place: Location, last: Option<PathStep<'a>>) -> KeyPath<'a> {
    let name = |key: Key| Some(PathStep::Name(key.name()));
    let number = |k: u64| Some(PathStep::Number(k));
    match place {
        Location::Whole => [last, None, None, None],
        Location::Value(key) => [name(key), last, None, None],
        Location::Item(key, k) | Location::Table(key, k) => [name(key), number(k), last, None],
        Location::Field(key, k, field) => [name(key), number(k), name(field), last],
        Location::FieldItem(key, k, field, n) => [name(key), number(k), name(field), number(n)],
        Location::Subfield(key, k, field, of) => [name(key), number(k), name(field), name(of)],
    }
}

/// The bytes at which a key or an item begins, and its value.
#[derive(Clone, Copy, Default)]
pub(crate) struct Position {
    pub(crate) at: usize,
    pub(crate) value: usize,
}

/// A way, and the spot that a walk has come to at most.
#[derive(Clone, Copy)]
struct Trail<'a> {
    way: KeyPath<'a>,
    /// How many of the way's steps lead to where the walk is, and at most led there.
    gone: usize,
    best: usize,
    /// The spot at the end of the most steps.
    spot: Position,
    /// How many headers of two brackets had the way's first name.
    headers: u64,
}

impl<'a> Trail<'a> {
    /// The step after this many others.
    fn step(&self, length: usize) -> Option<PathStep<'a>> {
        self.way.get(length).copied().unwrap_or(None)
    }

    /// Follows a step that begins here and comes after this many others, if it is the way's next.
    fn go(&mut self, step: PathStep<'_>, length: usize, at: usize) {
        if self.gone == length && self.step(length) == Some(step) {
            self.gone = length.saturating_add(1);
            if self.gone > self.best {
                self.best = self.gone;
                self.spot = Position { at, value: at };
            }
        }
    }
}

/// A walk through a document, by several ways at once.
#[derive(Drop)]
struct DocumentWalk<'a> {
    alloc: Global,
    size: usize,
    trails: Vec<Trail<'a>>,
    /// The number of steps that lead here, and to the last header.
    length: usize,
    header_length: usize,
}

/// The most arrays and inline tables in one another, or more.
const DEEPEST: u8 = 100;

impl<'a> DocumentWalk<'a> {
    /// Whether each way has been followed to its end.
    fn is_done(&self) -> bool {
        self.trails
            .iter()
            .all(|trail| trail.step(trail.best).is_none())
    }

    /// The byte at which the rest of the document begins.
    fn at(&self, rest: &str) -> usize {
        self.size.saturating_sub(rest.len())
    }

    /// Goes back to a shorter path, of this many steps.
    fn go_back(&mut self, length: usize) {
        self.length = length;
        for trail in self.trails.iter_mut() {
            trail.gone = trail.gone.min(length);
        }
    }

    /// Follows a step that begins here.
    fn go(&mut self, step: PathStep<'_>, at: usize) {
        let length = self.length;
        for trail in self.trails.iter_mut() {
            trail.go(step, length, at);
        }
        self.length = self.length.saturating_add(1);
    }

    /// Goes to the table of an array that the last header of two brackets began, or that this one
    /// begins.
    fn go_to_table(&mut self, begins: bool, at: usize) {
        for trail in self.trails.iter_mut() {
            if trail.gone == 1 {
                trail.headers = trail.headers.saturating_add(u64::from(begins));
                trail.go(PathStep::Number(trail.headers), 1, at);
            }
        }
        self.length = self.length.saturating_add(1);
    }

    /// Reads a header. Returns the rest of the text.
    fn header<'b>(&mut self, text: &'b str) -> Result<&'b str, ParseError> {
        let at = self.at(text);
        self.go_back(0);
        let inside = after(text, b'[');
        let is_double = first(inside) == b'[';
        let (key, rest) = dotted_key(self.alloc, skip_ws(after(inside, b'[')))?;
        for (k, part) in key.path.iter().enumerate() {
            self.go(PathStep::Name(part.as_str()), at);
            if k == 0 {
                self.go_to_table(false, at);
            }
        }
        self.go(PathStep::Name(key.last.as_str()), at);
        if key.path.is_empty() && is_double {
            self.go_to_table(true, at);
        }
        self.header_length = self.length;
        Ok(after(after(rest, b']'), b']'))
    }

    /// Reads a key, which may have dots, and the sign before its value. Returns the rest of the
    /// text.
    fn key<'b>(&mut self, text: &'b str) -> Result<&'b str, ParseError> {
        let at = self.at(text);
        let (key, rest) = dotted_key(self.alloc, text)?;
        for part in key.path.as_slice() {
            self.go(PathStep::Name(part.as_str()), at);
        }
        self.go(PathStep::Name(key.last.as_str()), at);
        let rest = skip_ws(after(rest, b'='));
        let (length, at) = (self.length, self.at(rest));
        for trail in self.trails.iter_mut() {
            if trail.gone == length && trail.best == length && trail.spot.value == trail.spot.at {
                trail.spot.value = at;
            }
        }
        Ok(rest)
    }

    /// Reads a value, with at most so many arrays and inline tables in one another. Returns the
    /// rest of the text.
    fn value<'b>(&mut self, text: &'b str, deepest: u8) -> Result<&'b str, ParseError> {
        let end = match first(text) {
            b'[' => b']',
            b'{' => b'}',
            _ if starts_string(text) => return Ok(quoted(self.alloc, text)?.1),
            _ => return Ok(unquoted(self.alloc, text)?.1),
        };
        let length = self.length;
        let mut rest = skip_blank(after(text, first(text)), true);
        for number in 1..=text.len() {
            if first(rest) == end || rest.is_empty() || deepest == 0 {
                break;
            }
            if end == b'}' {
                rest = self.key(rest)?;
            } else {
                self.go(PathStep::Number(number as u64), self.at(rest));
            }
            rest = skip_blank(self.value(rest, deepest - 1)?, true);
            rest = skip_blank(after(rest, b','), true);
            self.go_back(length);
        }
        Ok(after(rest, end))
    }

    /// Reads a header, or a key and its value. Returns the rest of the text.
    fn line<'b>(&mut self, text: &'b str) -> Result<&'b str, ParseError> {
        if first(text) == b'[' {
            return self.header(text);
        }
        self.go_back(self.header_length);
        let rest = self.key(text)?;
        self.value(rest, DEEPEST)
    }
}

/// The text after this byte, if it is at the front.
fn after(text: &str, byte: u8) -> &str {
    if first(text) == byte && 0 < byte && byte < 128 {
        skip(text, 1)
    } else {
        text
    }
}

/// Walks until each way is found or the document ends.
fn walk_all(walk: &mut DocumentWalk<'_>, text: &str) -> Result<(), AllocError> {
    let mut rest = text.strip_prefix('\u{feff}').unwrap_or(text);
    for _line in 0..=text.len() {
        rest = skip_blank(rest, true);
        if rest.is_empty() || walk.is_done() {
            break;
        }
        match walk.line(rest) {
            Ok(next) => rest = next,
            Err(ParseError::OutOfMemory) => return Err(AllocError),
            Err(ParseError::At(..)) => break,
        }
    }
    Ok(())
}

/// The spots to which these ways lead in a document, in their order. For one that the document
/// lacks, it is the spot of as much of the way as there is.
pub(crate) fn spots_of(
    alloc: Global,
    document: &str,
    ways: &[KeyPath<'_>],
) -> Result<Vec<Position>, AllocError> {
    let mut walk = DocumentWalk {
        alloc,
        size: document.len(),
        trails: Vec::new(alloc),
        length: 0,
        header_length: 0,
    };
    for way in ways {
        walk.trails.push(Trail {
            way: *way,
            gone: 0,
            best: 0,
            spot: Position::default(),
            headers: 0,
        })?;
    }
    walk_all(&mut walk, document)?;
    let mut spots = Vec::new(alloc);
    for trail in walk.trails.as_slice() {
        spots.push(trail.spot)?;
    }
    Ok(spots)
}
