//! The findings of a document that is refused, and of one that should be a scenario.
ghost use Rattle.std.specs.Prelude.{◌≡◌, ◌≤◌, [], ◌∷◌, ◌++◌, length, map};
ghost use Rattle.std.specs.Prelude.{IfOk, MatchResult};
ghost use Rattle.std.specs.List.Sorted.{IsPermutation};
ghost use Rattle.toml.specs.Parse.{parse_document};
ghost use Rattle.agc_check.specs.Findings.{AreFindings, IsRefusedWith, refusal_of, alone, say};
ghost use Rattle.agc_check.specs.Findings.{message_of, of_key, of_text, IsNote, to_say};
ghost use Rattle.agc_document.specs.declared.fault.BenchFault.TheVariants as refusal;
ghost use Rattle.agc_scenario.specs.Scenarios.{IsScenario, scenario_texts};
ghost use Rattle.agc_scenario.specs.Faults.{HasTexts, RefusesScenario};

use crate::document::Document;
use crate::finding::{Finding, Findings, Remark, findings_of, make_finding};
use crate::locate::{Position, spots_of};
use crate::problem::Problem;
use agc_document::rows::SETS;
use agc_document::{BenchFault, KeyFault, Location, Notes, TextForm};
use agc_scenario::{Scenario, scenario_of};
use std::alloc::{AllocError, Global};
use toml::de::Error;

/// The finding at one spot, and no others.
#[tactic(auto, using(crate::proofs::Found::found_alone))]
fn one_finding(
    alloc: Global,
    document: &str,
    remark: Remark<'_>,
    spot: Position,
) -> Result<Findings, AllocError>
    ensures are { IfOk result (λ v. AreFindings document.now (refusal_of remark.entry.wrong) v) }
    ensures says { IfOk result (λ v. map message_of v
        ≡ say remark.entry.place remark.entry.wrong remark.entry.text.now ∷ []) }
{
    let mut list: Vec<Finding> = Vec::new(alloc);
    let one = make_finding(alloc, document, remark, spot)?;
    list.push(one)?;
    Ok(Findings { list, more: 0 })
}

/// The finding at one place, and no others.
fn finding_at(
    alloc: Global,
    document: &str,
    place: Location,
    wrong: Problem,
) -> Result<Findings, AllocError>
    ensures are { IfOk result (λ v. AreFindings document.now (refusal_of wrong) v) }
    ensures says { IfOk result (λ v. map message_of v ≡ alone place wrong) }
{
    let remark = Remark {
        place,
        text: "",
        wrong,
    };
    let spots = spots_of(alloc, document, &[remark.way()])?;
    let spot = spots.first().copied().unwrap_or_default();
    one_finding(alloc, document, remark, spot)
}

/// Whether a text is five octal digits.
fn is_octal_five(text: &str) -> bool {
    text.len() == 5 && text.bytes().all(|byte| matches!(byte, b'0'..=b'7'))
}

/// The parser's words for a key that a table has twice.
const TWICE: &str = "duplicate key";

/// The key in front of a value.
fn key_of(text: &str) -> &str {
    let (key, _value) = text.split_once('=').unwrap_or((text, ""));
    key.trim_ascii_end().trim_matches('"')
}

/// Why a text is no TOML document, and the byte at which that shows.
fn wrong_document<'a>(text: &'a str, error: &'a Error) -> (Remark<'a>, usize)
    ensures { refusal_of result.0.wrong ≡ refusal.NotToml }
{
    let (start, end) = error.span().map_or((0, 0), |span| (span.start, span.end));
    let word = text.get(start..end).unwrap_or("");
    let (text, wrong) = if is_octal_five(word) {
        (word, Problem::NoQuotes)
    } else if error.message() == TWICE {
        (key_of(word), Problem::KeyTwice)
    } else {
        (error.message(), Problem::NotToml)
    };
    let place = Location::Whole;
    (Remark { place, text, wrong }, start)
}

/// The finding of a text that is no TOML document.
pub(crate) fn no_document_finding(
    alloc: Global,
    text: &str,
    error: &Error,
) -> Result<Findings, AllocError>
    ensures { IfOk result (λ v. AreFindings text.now refusal.NotToml v) }
{
    let (remark, at) = wrong_document(text, error);
    one_finding(alloc, text, remark, Position { at, value: at })
}

/// The findings of keys first, then those of texts. The notes say how many more there are.
#[tactic(auto, using(crate::proofs::Found::found_both, crate::proofs::Found::says_both))]
fn keys_and_texts(alloc: Global, document: &str, notes: &Notes<'_>) -> Result<Findings, AllocError>
    requires { 1 ≤ length notes.now.keys.items }
    ensures are { IfOk result (λ v. AreFindings document.now refusal.Key v) }
    ensures says { IfOk result (λ v. IsPermutation
        (map of_key notes.now.keys.items ++ map of_text notes.now.texts.items)
        (map message_of v)) }
{
    let mut list = findings_of(alloc, document, notes.keys.as_slice())?;
    let mut texts = findings_of(alloc, document, notes.texts.as_slice())?;
    list.append(&mut texts)?;
    Ok(Findings {
        list,
        more: notes.more,
    })
}

/// The findings of texts, and no others. The notes say how many more there are.
#[tactic(auto, using(crate::proofs::Found::found_front))]
fn texts_alone(alloc: Global, document: &str, notes: &Notes<'_>) -> Result<Findings, AllocError>
    requires { 1 ≤ length notes.now.texts.items }
    ensures are { IfOk result (λ v. AreFindings document.now refusal.Line v) }
    ensures says { IfOk result (λ v. IsPermutation
        (map of_text notes.now.texts.items) (map message_of v)) }
{
    Ok(Findings {
        list: findings_of(alloc, document, notes.texts.as_slice())?,
        more: notes.more,
    })
}

/// The findings of a document that is refused for this fault: each note is reported once, and
/// nothing else. The notes say how many more there are.
#[tactic(auto, using(crate::proofs::Found::says_alone))]
pub(crate) fn findings_in(
    alloc: Global,
    document: &str,
    notes: &Notes<'_>,
    fault: BenchFault,
) -> Result<Findings, AllocError>
    ensures are { IfOk result (λ v. AreFindings document.now fault v) }
    ensures says { IfOk result (λ v. IsNote fault notes.now.keys.items notes.now.texts.items
        → IsPermutation (to_say fault notes.now.keys.items notes.now.texts.items notes.now.plan)
        (map message_of v)) }
{
    let (whole, plan) = (Location::Whole, notes.plan);
    match fault {
        BenchFault::NoMemory => Err(AllocError),
        BenchFault::Key if !notes.keys.is_empty() => keys_and_texts(alloc, document, notes),
        BenchFault::Line if !notes.texts.is_empty() => texts_alone(alloc, document, notes),
        BenchFault::Key => finding_at(alloc, document, whole, Problem::Key(KeyFault::Value(SETS))),
        BenchFault::Line => finding_at(alloc, document, whole, Problem::Text(TextForm::Request)),
        BenchFault::NotToml => finding_at(alloc, document, whole, Problem::NotToml),
        BenchFault::TaskTwice => finding_at(alloc, document, plan, Problem::TaskTwice),
        BenchFault::PhaseTwice => finding_at(alloc, document, plan, Problem::PhaseTwice),
        BenchFault::TooManyAreas => finding_at(alloc, document, plan, Problem::TooManyAreas),
    }
}

/// The scenario that a document is, or why it is none: the same that `read_scenario` says of it.
/// The first finding has the fault that `read_scenario` returns; those of keys come before those of
/// texts, each in the order of the document, and of either at most twenty, and the number of
/// others.
///
/// # Errors
///
/// If memory runs out.
#[tactic(auto, using(crate::proofs::Scenarios::refused, crate::proofs::Scenarios::accepted))]
pub fn scenario_findings(
    alloc: Global,
    document: &Document<'_>,
) -> Result<Result<Scenario, Findings>, AllocError>
    ensures { IfOk result (λ read. MatchResult read
        (λ s. IsScenario s × HasTexts (parse_document document.now) (scenario_texts s))
        (IsRefusedWith (RefusesScenario (parse_document document.now)) document.now)) }
{
    let mut notes = Notes::new(true);
    match scenario_of(alloc, document.table(), &mut notes) {
        Ok(scenario) => Ok(Ok(scenario)),
        Err(fault) => Ok(Err(findings_in(alloc, document.text(), &notes, fault)?)),
    }
}
