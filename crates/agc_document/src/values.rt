//! The values that the texts of a bench spell.
ghost use Rattle.std.specs.Prelude.{◌≡◌, ◌≢◌, ◌<◌, ◌≤◌, ℕ, List, length, map, Option, Some, None};
ghost use Rattle.std.specs.Prelude.{IfSome, IfNone, IfOk, IfErr};
ghost use Rattle.std.specs.Option.{option_map};
ghost use Rattle.std.specs.List.{AllByRecursion};
ghost use Rattle.agc_plan.specs.declared.request.Request.{Request};
ghost use Rattle.agc_plan.specs.declared.request.Task.{Task};
ghost use Rattle.agc_plan.specs.declared.request.Action.{Action};
ghost use Rattle.agc_plan.specs.declared.request.JobStart.{JobStart};
ghost use Rattle.agc_plan.specs.Begins.{Begins};
ghost use Rattle.agc_plan.specs.Ranges.{IsRequest, IsAction};
ghost use Rattle.agc_plan.specs.declared.line.Line.{Line};
ghost use Rattle.agc_text.specs.Numbers.{octal};
ghost use Rattle.agc_text.specs.Lines.{line_of, action_line_of};
ghost use Rattle.agc_document.specs.Benches.{job_request, timed_request, kind_text, row_texts};
ghost use Rattle.agc_document.specs.Benches.{entry_texts, device_texts, IsRow, IsEntry};
ghost use Rattle.agc_document.specs.Benches.{IsDevice, IsPower};
ghost use Rattle.agc_document.specs.Kinds.{job_of, timed_of, leaving_of, is_name};
ghost use Rattle.agc_document.specs.Gives.{RefusedLine};

use crate::bench::or_line;
use crate::fault::BenchFault;
use crate::texts::{DeviceTexts, EntryTexts, RowTexts, Text, TextList, WorkerTexts};
use agc_plan::{Actions, Delay, Group, JobStart, Line, Phase, PhaseEntry, Request, Task};
use agc_text::{parse_action, parse_address, parse_line, parse_word};
use agc_word::Word;
use std::alloc::Global;

/// A type whose values are spelled by texts.
pub trait FromText<T>: Sized + Drop {
    /// The texts that spell the value.
    ghost spelling: { Self → T };

    /// The value's numbers are in their ranges.
    ghost IsLawful: { Self → Type 0 };

    /// Reads the texts. A fault `Line` if they don't spell such a value.
    fn spelled_by(alloc: Global, texts: &T) -> Result<Self, BenchFault>
        ensures found { IfOk result (λ x. IsLawful x × (texts.now ≡ spelling x)) }
        ensures refused { IfErr result (RefusedLine
            ((x : Self) → IsLawful x → texts.now ≢ spelling x)) };
}

/// The values that these texts spell, in order.
///
/// # Errors
///
/// `Line` if one spells no such thing; or `NoMemory`.
pub fn all_spelled<T, X: FromText<T>>(alloc: Global, texts: &[T]) -> Result<Vec<X>, BenchFault>
    ensures found { IfOk result (λ v. AllByRecursion X.IsLawful v.items
        × (texts.now ≡ map X.spelling v.items)) }
    ensures refused { IfErr result (RefusedLine
        ((xs : List X) → AllByRecursion X.IsLawful xs → texts.now ≢ map X.spelling xs)) }
{
    let mut all: Vec<X> = Vec::new(alloc);
    for text in texts {
        let one = X::spelled_by(alloc, text)?;
        all.push(one)?;
    }
    Ok(all)
}

impl<'a> FromText<Text<'a>> for Request {
    ghost spelling = { line_of };

    ghost IsLawful = { IsRequest };

    fn spelled_by(_alloc: Global, text: &Text<'a>) -> Result<Request, BenchFault> {
        or_line(parse_line(text.as_str()))
    }
}

/// The actions that texts spell, in order.
pub(crate) fn actions_of(texts: &[Text<'_>]) -> Option<Actions>
    requires { length texts.now ≤ 4 }
    ensures found { IfSome result (λ a. AllByRecursion IsAction a
        × (texts.now ≡ map action_line_of a)) }
    ensures only { IfNone result ((a : List Action) → AllByRecursion IsAction a
        → texts.now ≢ map action_line_of a) }
{
    let mut actions = Actions::new();
    for text in texts {
        match parse_action(text.as_str()) {
            Some(action) => actions.push(action),
            None => return None,
        }
    }
    Some(actions)
}

/// The row that its texts spell.
fn row_of(texts: &RowTexts<'_>) -> Option<(Task, Actions)>
    ensures found { IfSome result (λ r. IsRow r × (texts.now ≡ row_texts r)) }
    ensures only { IfNone result ((r : Task × List Action) → IsRow r → texts.now ≢ row_texts r) }
{
    let at = parse_address(texts.at.as_str())?;
    let bank = parse_word(texts.bank.as_str())?;
    let actions = actions_of(texts.actions.as_slice())?;
    Some((Task { at, bank }, actions))
}

impl<'a> FromText<RowTexts<'a>> for (Task, Actions) {
    ghost spelling = { row_texts };

    ghost IsLawful = { IsRow };

    fn spelled_by(_alloc: Global, texts: &RowTexts<'a>) -> Result<(Task, Actions), BenchFault> {
        or_line(row_of(texts))
    }
}

/// The job that a request establishes. None if it establishes none.
pub(crate) fn job_of(request: &Request) -> Option<JobStart>
    ensures { result ≡ job_of request.now }
{
    match *request {
        Request::Novac(priority, entry) => Some(JobStart::Novac(priority, entry)),
        Request::Findvac(priority, entry) => Some(JobStart::Findvac(priority, entry)),
        _ => None,
    }
}

/// The task that a request lists, and its delay. None if it lists none.
pub(crate) fn timed_of(request: &Request) -> Option<(Delay, Task)>
    ensures { result ≡ timed_of request.now }
{
    match *request {
        Request::List(delay, task) => Some((delay, task)),
        _ => None,
    }
}

/// The request by which a job leaves, if this is one: it ends, or falls asleep.
pub(crate) fn leaving_of(request: &Request) -> Option<Request>
    ensures { result ≡ leaving_of request.now }
{
    match *request {
        Request::EndOfJob => Some(Request::EndOfJob),
        Request::Sleep(at) => Some(Request::Sleep(at)),
        _ => None,
    }
}

/// Whether a job may make a request before it leaves.
pub(crate) fn is_step(request: &Request) -> bool {
    match *request {
        Request::Novac(_, _) | Request::Findvac(_, _) | Request::Prio(_) => true,
        Request::Store(_, _) | Request::List(_, _) | Request::SetPhase(_, _) => true,
        _ => false,
    }
}

/// Whether a text is a line that can be shown: it has no control characters.
pub fn is_name(text: &str) -> bool
    ensures { result ≡ is_name text.now }
{
    text.as_bytes()
        .iter()
        .all(|byte| 32 <= *byte && *byte != 127)
}

/// The job of a phase entry, if its text is there. None if that text spells none.
fn parse_job(text: &Option<Text<'_>>) -> Option<Option<JobStart>>
    ensures found { IfSome result (λ j. IfSome j (λ x. IsRequest (job_request x))
        × (text.now ≡ option_map (λ x. line_of (job_request x)) j)) }
    ensures only { IfNone result ((j : Option JobStart)
        → IfSome j (λ x. IsRequest (job_request x))
        → text.now ≢ option_map (λ x. line_of (job_request x)) j) }
{
    match text {
        None => Some(None),
        Some(text) => {
            let request = parse_line(text.as_str())?;
            let job = job_of(&request)?;
            Some(Some(job))
        }
    }
}

/// The task of a phase entry, if its text is there. None if that text spells none.
fn parse_timed(text: &Option<Text<'_>>) -> Option<Option<(Delay, Task)>>
    ensures found { IfSome result (λ t. IfSome t (λ x. IsRequest (timed_request x))
        × (text.now ≡ option_map (λ x. line_of (timed_request x)) t)) }
    ensures only { IfNone result ((t : Option (ℕ × Task))
        → IfSome t (λ x. IsRequest (timed_request x))
        → text.now ≢ option_map (λ x. line_of (timed_request x)) t) }
{
    match text {
        None => Some(None),
        Some(text) => {
            let request = parse_line(text.as_str())?;
            let timed = timed_of(&request)?;
            Some(Some(timed))
        }
    }
}

/// The phase entry that its numbers and texts spell.
fn entry_of(texts: &EntryTexts<'_>) -> Option<PhaseEntry>
    ensures found { IfSome result (λ b. IsEntry b × (texts.now ≡ entry_texts b)) }
    ensures only { IfNone result ((b : Begins) → IsEntry b → texts.now ≢ entry_texts b) }
{
    let group = Group::new(texts.group);
    let phase = Phase::new(texts.phase);
    let job = parse_job(&texts.job);
    let task = parse_timed(&texts.task);
    match (group, phase, job, task) {
        (Some(group), Some(phase), Some(job), Some(task)) => {
            PhaseEntry::new(group, phase, job, task)
        }
        _ => None,
    }
}

impl<'a> FromText<EntryTexts<'a>> for PhaseEntry {
    ghost spelling = { entry_texts };

    ghost IsLawful = { IsEntry };

    fn spelled_by(_alloc: Global, texts: &EntryTexts<'a>) -> Result<PhaseEntry, BenchFault> {
        or_line(entry_of(texts))
    }
}

/// The workers' scripts that their texts spell, in order.
pub(crate) fn workers_of(
    alloc: Global,
    texts: &[WorkerTexts<'_>],
) -> Result<Vec<Vec<Request>>, BenchFault>
    ensures found { IfOk result (λ v.
        AllByRecursion (AllByRecursion IsRequest) (map (λ w. w.items) v.items)
        × (texts.now ≡ map (map line_of) (map (λ w. w.items) v.items))) }
    ensures refused { IfErr result (RefusedLine
        ((ws : List (List Request)) → AllByRecursion (AllByRecursion IsRequest) ws
        → texts.now ≢ map (map line_of) ws)) }
{
    let mut workers: Vec<Vec<Request>> = Vec::new(alloc);
    for text in texts {
        let worker: Vec<Request> = all_spelled(alloc, text.script.as_slice())?;
        workers.push(worker)?;
    }
    Ok(workers)
}

/// The line of a device that a text names.
pub(crate) fn parse_kind(text: &str) -> Option<Line>
    ensures found { IfSome result (λ l. text.now ≡ kind_text l) }
    ensures only { (l : Line) → text.now ≡ kind_text l → result ≡ Some l }
{
    match text {
        "timer" => Some(Line::Timer),
        "key" => Some(Line::Key),
        "radar" => Some(Line::Radar),
        _ => None,
    }
}

/// The device that its text and number spell.
fn device_of(texts: &DeviceTexts<'_>) -> Option<(Line, u32)>
    ensures found { IfSome result (λ d. IsDevice d × (texts.now ≡ device_texts d)) }
    ensures only { IfNone result ((d : Line × ℕ) → IsDevice d → texts.now ≢ device_texts d) }
{
    let line = parse_kind(texts.line.as_str())?;
    Some((line, texts.pulses))
}

impl<'a> FromText<DeviceTexts<'a>> for (Line, u32) {
    ghost spelling = { device_texts };

    ghost IsLawful = { IsDevice };

    fn spelled_by(_alloc: Global, texts: &DeviceTexts<'a>) -> Result<(Line, u32), BenchFault> {
        or_line(device_of(texts))
    }
}

/// The twelve words that as many texts spell.
fn words_of(texts: &[Text<'_>]) -> Option<[Word; 12]>
    ensures found { IfSome result (λ ws. IsPower ws × (texts.now ≡ map (octal 5) ws)) }
    ensures only { IfNone result ((ws : List ℕ) → IsPower ws → texts.now ≢ map (octal 5) ws) }
{
    if texts.len() != 12 {
        return None;
    }
    let mut words = [Word::zero(); 12];
    for (k, text) in texts.iter().enumerate() {
        match parse_word(text.as_str()) {
            None => return None,
            Some(word) => words[k] = word,
        }
    }
    Some(words)
}

/// The phase words of a power-up, if their texts are there. None if one of these spells no word.
pub(crate) fn power_of(texts: &Option<TextList<'_>>) -> Option<Option<[Word; 12]>>
    ensures found { IfSome result (λ p. IfSome p IsPower
        × (texts.now ≡ option_map (map (octal 5)) p)) }
    ensures only { IfNone result ((p : Option (List ℕ)) → IfSome p IsPower
        → texts.now ≢ option_map (map (octal 5)) p) }
{
    match texts {
        None => Some(None),
        Some(texts) => {
            let words = words_of(texts.as_slice())?;
            Some(Some(words))
        }
    }
}
