//! The findings of a document, and where they are.
ghost use Rattle.std.specs.Prelude.{◌≡◌, ◌≤◌, length, map, IfOk, OnOk};
ghost use Rattle.std.specs.List.{All};
ghost use Rattle.std.specs.List.Sorted.{IsNonDecreasingBy, IsPermutation};
ghost use Rattle.agc_check.specs.Findings.{line_ends, line_of, StandsIn, refusal_of};
ghost use Rattle.agc_check.specs.Findings.{IsFindingOf, AreFindingsOf, Message, say, message_of};
ghost use Rattle.agc_check.specs.Findings.{of_key, of_text};
ghost use Rattle.agc_document.specs.declared.fault.BenchFault.{BenchFault};
ghost use Rattle.agc_document.specs.declared.fault.BenchFault.TheVariants as refusal;

use crate::locate::{KeyPath, PathStep, Position, spots_of, way_to};
use crate::problem::Problem;
use agc_document::{KeyFault, KeyNote, Location, TextForm, TextNote};
use std::alloc::{AllocError, Global};
use std::marker::Model;

/// A reason why a document is no bench: its byte, the number of the line, from 1, the place in the
/// bench, the text to quote, and the error.
#[derive(Drop)]
pub struct Finding {
    pub at: usize,
    pub line: u64,
    pub place: Location,
    pub text: String,
    pub wrong: Problem,
}

impl Model for Finding {
    ghost use Rattle.std.specs.Prelude.{string_bytes};
    ghost use Rattle.agc_check.specs.Findings.{FindingView};

    ghost Value = { FindingView };

    ghost view = { λ f. record {
      at = f.at;
      line = f.line;
      place = f.place;
      text = string_bytes f.text;
      wrong = f.wrong;
    } };
}

/// Findings of a document, and how many more it has. Contracts see those that are here.
#[derive(Drop)]
pub struct Findings {
    pub list: Vec<Finding>,
    pub more: usize,
}

impl Model for Findings {
    ghost use Rattle.std.specs.Prelude.{List};
    ghost use Rattle.agc_check.specs.Findings.{FindingView};

    ghost Value = { List FindingView };

    ghost view = { λ f. f.list.items };
}

/// The number of line ends in a text.
fn line_ends(text: &[u8]) -> u64
    ensures value { result ≡ line_ends text.now }
    ensures few { result ≤ length text.now }
{
    let mut count = 0;
    for byte in text {
        if *byte == b'\n' {
            count += 1;
        }
    }
    count
}

/// The number of the line that has this byte of a document; the last line if the document ends
/// before it.
#[tactic(auto, using(crate::proofs::Lines::ends_before))]
pub(crate) fn line_at(document: &str, at: usize) -> u64
    ensures line { result ≡ line_of document.now at }
    ensures stands { StandsIn document.now result }
{
    let bytes = document.as_bytes();
    line_ends(&bytes[..at.min(bytes.len())]) + 1
}

/// An error at a place, and the text to quote.
#[derive(Clone, Copy)]
pub(crate) struct Remark<'a> {
    pub(crate) place: Location,
    pub(crate) text: &'a str,
    pub(crate) wrong: Problem,
}

impl<'a> Remark<'a> {
    /// The way to what is wrong.
    pub(crate) fn way(&self) -> KeyPath<'a> {
        let unknown = match self.wrong {
            Problem::Key(KeyFault::Unknown(_level)) => Some(PathStep::Name(self.text)),
            _ => None,
        };
        way_to(self.place, unknown)
    }
}

/// The text to quote for what is wrong at this spot.
fn text_of<'a>(document: &'a str, remark: Remark<'a>, spot: Position) -> &'a str
    ensures { say remark.entry.place remark.entry.wrong result.now
        ≡ say remark.entry.place remark.entry.wrong remark.entry.text.now }
{
    match remark.wrong {
        Problem::Key(KeyFault::NoneAbove(_)) => quoted_at(document, spot.value),
        Problem::Key(KeyFault::Value(key) | KeyFault::Item(key)) => match key.form() {
            Some(TextForm::Address | TextForm::Word) => digits_at(document, spot.value),
            _ => "",
        },
        _ => remark.text,
    }
}

/// Makes the finding at one spot of a document.
pub(crate) fn make_finding<'a>(
    alloc: Global,
    document: &'a str,
    remark: Remark<'a>,
    spot: Position,
) -> Result<Finding, AllocError>
    ensures found { IfOk result (λ f. IsFindingOf document.now
        (refusal_of remark.entry.wrong) f) }
    ensures says { IfOk result (λ f. message_of f
        ≡ say remark.entry.place remark.entry.wrong remark.entry.text.now) }
{
    let at = spot.at.min(document.len());
    Ok(Finding {
        at,
        line: line_at(document, at),
        place: remark.place,
        text: String::from_str(alloc, text_of(document, remark, spot))?,
        wrong: remark.wrong,
    })
}

/// Sorts findings by their place in the document.
fn put_in_order(findings: &mut Vec<Finding>) -> Result<(), AllocError>
    ensures order { OnOk result (IsNonDecreasingBy (λ f. f.at) findings.new.items) }
    ensures same { IsPermutation findings.old.items findings.new.items }
    ensures length { length findings.new.items ≡ length findings.old.items }
{
    findings.sort_by_key(|finding| finding.at)?;
    Ok(())
}

/// The digits at a byte of a document if they are a value of their own; otherwise nothing.
fn digits_at(document: &str, at: usize) -> &str {
    let goes_on = |letter: char| letter.is_ascii_alphanumeric() || "_.:-+".contains(letter);
    let rest = document.get(at..).unwrap_or("");
    let (word, _others) = rest
        .split_once(|letter| !goes_on(letter))
        .unwrap_or((rest, ""));
    if word.bytes().all(|byte| byte.is_ascii_digit()) {
        word
    } else {
        ""
    }
}

/// The text between quotes at a byte of a document; nothing if there are none.
fn quoted_at(document: &str, at: usize) -> &str {
    let rest = document.get(at..).unwrap_or("");
    for quote in ["\"\"\"", "'''", "\"", "'"] {
        if let Some(behind) = rest.strip_prefix(quote) {
            return behind.split_once(quote).unwrap_or(("", "")).0;
        }
    }
    ""
}

/// A note about a document: a fault of a key, or a text that isn't of its form.
pub(crate) trait Note<'a>: Copy {
    /// The fault of a bench that has such an error.
    ghost fault: { BenchFault };

    /// The contents of the finding that reports it.
    ghost says: { Self → Message };

    /// The error and its place.
    fn remark(&self) -> Remark<'a>
        ensures fault { refusal_of result.wrong ≡ fault }
        ensures says { say result.place result.wrong result.text.now ≡ says self.now };
}

impl<'a> Note<'a> for KeyNote<'a> {
    ghost fault = { refusal.Key };

    ghost says = { of_key };

    fn remark(&self) -> Remark<'a> {
        Remark {
            place: self.place,
            text: match self.fault {
                KeyFault::Unknown(_level) => self.text,
                _ => "",
            },
            wrong: Problem::Key(self.fault),
        }
    }
}

impl<'a> Note<'a> for TextNote<'a> {
    ghost fault = { refusal.Line };

    ghost says = { of_text };

    fn remark(&self) -> Remark<'a> {
        Remark {
            place: self.place,
            text: self.text,
            wrong: Problem::Text(self.form),
        }
    }
}

/// The findings at these spots.
fn findings_at<'a, N: Note<'a>>(
    alloc: Global,
    document: &'a str,
    notes: &[N],
    spots: &[Position],
) -> Result<Vec<Finding>, AllocError>
    ensures all { IfOk result (λ v. All (IsFindingOf document.now N.fault) v.items) }
    ensures length { IfOk result (λ v. length v.items ≡ length notes.now) }
    ensures says { IfOk result (λ v. map message_of v.items ≡ map N.says notes.now) }
{
    let mut found: Vec<Finding> = Vec::new(alloc);
    for note in notes {
        let spot = spots.get(found.len()).copied().unwrap_or_default();
        let remark = note.remark();
        let one = make_finding(alloc, document, remark, spot)?;
        found.push(one)?;
    }
    Ok(found)
}

/// The spots of these notes.
fn note_spots<'a, N: Note<'a>>(
    alloc: Global,
    document: &str,
    notes: &[N],
) -> Result<Vec<Position>, AllocError> {
    let mut ways = Vec::new(alloc);
    for note in notes {
        ways.push(note.remark().way())?;
    }
    spots_of(alloc, document, ways.as_slice())
}

/// The findings that report these notes, in the order of the document.
#[tactic(auto, using(crate::proofs::Found::in_order, crate::proofs::Found::says_in_order))]
pub(crate) fn findings_of<'a, N: Note<'a>>(
    alloc: Global,
    document: &'a str,
    notes: &[N],
) -> Result<Vec<Finding>, AllocError>
    ensures are { IfOk result (λ v. AreFindingsOf document.now N.fault v.items) }
    ensures length { IfOk result (λ v. length v.items ≡ length notes.now) }
    ensures says { IfOk result (λ v. IsPermutation (map N.says notes.now)
        (map message_of v.items)) }
{
    let spots = note_spots(alloc, document, notes)?;
    let mut found = findings_at(alloc, document, notes, spots.as_slice())?;
    put_in_order(&mut found)?;
    Ok(found)
}
