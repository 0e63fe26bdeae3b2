//! The values that the texts of a scenario spell.
ghost use Rattle.std.specs.Prelude.{◌≡◌, ◌≢◌, List, [], map, true, IfOk, IfErr};
ghost use Rattle.std.specs.List.{AllByRecursion, list_all};
ghost use Rattle.agc_plan.specs.Ranges.{IsRequest};
ghost use Rattle.agc_text.specs.Lines.{line_of};
ghost use Rattle.agc_document.specs.Gives.{RefusedLine};
ghost use Rattle.agc_plan.specs.declared.request.Request.{Request as Asks};
ghost use Rattle.agc_scenario.specs.Scenarios.{TimedEvent as Event, Timed, are_job_requests};
ghost use Rattle.agc_scenario.specs.Scenarios.{can_be_shown};
ghost use Rattle.agc_scenario.specs.Scenarios.{with_bases, is_step, leaves_at_last};
ghost use Rattle.agc_scenario.specs.Scenarios.{event_texts, job_texts};
ghost use Rattle.agc_scenario.specs.Scenarios.{timing_texts, IsTimed, IsTimedEvent, IsTimedJob};

use crate::texts::{EventTexts, JobTexts, TimingTexts};
use crate::timing::{EventBase, Name, TimedEvent, TimedJob, Timing, count, then_of};
use agc_clock::step_of;
use agc_document::{BenchFault, FromText, Text, all_spelled, is_name, or_line};
use agc_plan::Request;
use agc_text::parse_address;
use std::alloc::Global;

/// Whether a request is a step of a job.
fn is_step(request: &Request) -> bool
    ensures { result ≡ is_step request.now }
{
    step_of(request).is_some()
}

fn are_steps(requests: &[Request]) -> bool
    ensures { result ≡ list_all is_step requests.now }
{
    requests.iter().all(|request| is_step(request))
}

/// Whether the last request is one by which a job leaves.
fn leaves_at_last(requests: &[Request]) -> bool
    ensures { result ≡ leaves_at_last requests.now }
{
    match requests.get(requests.len().saturating_sub(1)) {
        None => false,
        Some(last) => then_of(last).is_some(),
    }
}

/// Whether a job can make these requests: steps, and at last one by which it ends or sleeps.
fn are_job_requests(requests: &[Request]) -> bool
    ensures { result ≡ are_job_requests requests.now }
{
    let before = requests.len().saturating_sub(1);
    are_steps(&requests[..before]) && leaves_at_last(requests)
}

/// The requests of a job that its texts spell.
#[tactic(auto, using(crate::proofs::Asked::never_asked))]
fn parse_requests(alloc: Global, texts: &[Text<'_>]) -> Result<Vec<Request>, BenchFault>
    ensures found { IfOk result (λ v. AllByRecursion IsRequest v.items
        × (are_job_requests v.items ≡ true) × (texts.now ≡ map line_of v.items)) }
    ensures refused { IfErr result (RefusedLine ((asks : List Asks)
        → AllByRecursion IsRequest asks → are_job_requests asks ≡ true
        → texts.now ≢ map line_of asks)) }
{
    let requests: Vec<Request> = all_spelled(alloc, texts)?;
    if !are_job_requests(requests.as_slice()) {
        return Err(BenchFault::Line);
    }
    Ok(requests)
}

impl<'a> FromText<Option<Text<'a>>> for Name {
    ghost spelling = { λ n. n };

    ghost IsLawful = { λ n. can_be_shown n ≡ true };

    fn spelled_by(alloc: Global, name: &Option<Text<'a>>) -> Result<Name, BenchFault> {
        match name {
            None => Ok(Name::of(None)),
            Some(text) => {
                if !is_name(text.as_str()) {
                    return Err(BenchFault::Line);
                }
                let own = String::from_str(alloc, text.as_str())?;
                Ok(Name::of(Some(own)))
            }
        }
    }
}

impl<'a> FromText<JobTexts<'a>> for TimedJob {
    ghost spelling = { job_texts };

    ghost IsLawful = { IsTimedJob };

    fn spelled_by(alloc: Global, texts: &JobTexts<'a>) -> Result<TimedJob, BenchFault> {
        let at = or_line(parse_address(texts.at.as_str()));
        let requests = parse_requests(alloc, texts.requests.as_slice());
        let name = Name::spelled_by(alloc, &texts.name);
        match (at, requests, name) {
            (Ok(at), Ok(requests), Ok(name)) => Ok(TimedJob {
                at,
                cost: texts.cost,
                deadline: texts.deadline,
                requests,
                name,
            }),
            (Err(fault), ..) | (_, Err(fault), _) | (.., Err(fault)) => Err(fault),
        }
    }
}

impl<'a> FromText<EventTexts<'a>> for TimedEvent {
    ghost spelling = { event_texts };

    ghost IsLawful = { IsTimedEvent };

    fn spelled_by(alloc: Global, texts: &EventTexts<'a>) -> Result<TimedEvent, BenchFault> {
        let requests: Result<Vec<Request>, BenchFault> = all_spelled(
            alloc,
            texts.requests.as_slice(),
        );
        let after = Name::spelled_by(alloc, &texts.after);
        let name = Name::spelled_by(alloc, &texts.name);
        match (requests, after, name) {
            (Ok(requests), Ok(after), Ok(name)) => Ok(TimedEvent {
                at: texts.at,
                after,
                base: EventBase {
                    alarm: None,
                    from: 0,
                },
                requests,
                every: texts.every,
                until: texts.until,
                name,
            }),
            (Err(fault), ..) | (_, Err(fault), _) | (.., Err(fault)) => Err(fault),
        }
    }
}

/// The events that texts spell, each with the centisecond from which it counts.
#[tactic(auto, using(crate::proofs::Counted::counted_events))]
fn events_of(alloc: Global, texts: &[EventTexts<'_>]) -> Result<Vec<TimedEvent>, BenchFault>
    ensures found { IfOk result (λ v. AllByRecursion IsTimedEvent v.items
        × (texts.now ≡ map event_texts v.items) × (with_bases [] v.items ≡ v.items)) }
    ensures refused { IfErr result (RefusedLine
        ((es : List Event) → AllByRecursion IsTimedEvent es → texts.now ≢ map event_texts es)) }
{
    let mut events: Vec<TimedEvent> = all_spelled(alloc, texts)?;
    count(&mut events);
    Ok(events)
}

/// How time passes, as its texts spell it.
pub(crate) fn timing_of(alloc: Global, texts: TimingTexts<'_>) -> Result<Timing, BenchFault>
    ensures found { IfOk result (λ t. IsTimed t × (texts.entry ≡ timing_texts t)) }
    ensures refused { IfErr result (RefusedLine
        ((t : Timed) → IsTimed t → texts.entry ≢ timing_texts t)) }
{
    let title = Name::spelled_by(alloc, &texts.title);
    let jobs = all_spelled(alloc, texts.jobs.as_slice());
    let events = events_of(alloc, texts.events.as_slice());
    match (title, jobs, events) {
        (Ok(title), Ok(jobs), Ok(events)) => Ok(Timing {
            seconds: texts.seconds,
            title,
            seed: texts.seed,
            stolen: texts.stolen,
            jobs,
            events,
        }),
        (Err(fault), ..) | (_, Err(fault), _) | (.., Err(fault)) => Err(fault),
    }
}
