//! The warnings about a bench.
use crate::gathered::Gathered;
use crate::items::{Item, items_of};
use crate::messages::{MOST_TOLD, Message, NONE, message_of, plain};
use crate::run_counts::RunCounts;
use crate::scenario::note_timing;
use agc_document::rows::{ALLOWANCE, LIMIT};
use agc_document::{Bench, Location};
use agc_plan::{Group, Phase, PhaseEntry, Task};
use agc_run::Subject;
use agc_session::{asks_nothing, line_name};
use agc_text::Field::{Number, Octal, Text};
use agc_word::Word;
use std::alloc::{AllocError, Global};
use std::collections::{BTreeMap, BTreeSet};

const NO_ROW: &str = "no task row has {} in bank {}, so nothing is done when it fires";

const OTHER_BANK: &str = "no task row has {} in bank {}, but one has that address in bank {}";

/// The first of these is a request's number.
pub(crate) const LOG_FULL: &str = "request {} is the first that is refused: log full (limit {})";

/// A task's address and bank.
fn numbers_of(task: &Task) -> (u16, u16) {
    (task.at.get(), task.bank.bits())
}

/// A warning: something in a bench that is no fault, but does nothing, or less than was meant. It
/// has the place of the cause, and the sentence.
#[derive(Clone, Copy)]
pub(crate) struct Warning {
    pub(crate) place: Location,
    pub(crate) message: Message<'static>,
    /// The numbers for which the warning is given only once, if it is.
    once: Option<(u16, u16)>,
}

/// A warning that may be given of the same thing again.
fn repeatable(place: Location, message: Message<'static>) -> Warning {
    Warning {
        place,
        message,
        once: None,
    }
}

/// The warnings so far.
pub(crate) type Warnings = Gathered<Warning>;

/// Adds a warning, if there is one; unless it was given before for the same numbers, or there are
/// as many as there may be.
fn note_once(
    found: &mut Warnings,
    place: Location,
    message: Option<Message<'static>>,
    once: Option<(u16, u16)>,
) {
    let Some(message) = message else {
        return;
    };
    let is_told = |one: &Warning| once.is_some() && one.once == once && one.message.0 == message.0;
    if found.list.len() < MOST_TOLD && !found.list.iter().any(is_told) {
        found.add(Warning {
            place,
            message,
            once,
        });
    }
}

/// Adds a warning that may be given of the same thing again, if there is one.
pub(crate) fn note(found: &mut Warnings, place: Location, message: Option<Message<'static>>) {
    note_once(found, place, message, None);
}

/// The tasks of a bench by their numbers: whether each has a row, and whether anything but its own
/// actions lists it; and the bank of the first row at each address.
#[derive(Drop)]
struct Tasks {
    known: BTreeSet<(bool, (u16, u16))>,
    banks: BTreeMap<u16, Word>,
}

/// The tasks of a bench that has these items.
fn tasks_of(alloc: Global, items: &[(Location, Item)]) -> Result<Tasks, AllocError> {
    let mut tasks = Tasks {
        known: BTreeSet::new(alloc),
        banks: BTreeMap::new(alloc),
    };
    for (_place, item) in items {
        let (is_row, task) = match *item {
            Item::Lists(task, row) if row != Some(task) => (false, task),
            Item::Row(task) => (true, task),
            _ => continue,
        };
        tasks.known.insert((is_row, numbers_of(&task)))?;
        if is_row {
            tasks.banks.entry(task.at.get())?.or_insert(task.bank);
        }
    }
    Ok(tasks)
}

/// The warning about a task that is listed, if there is one.
fn task_message(tasks: &Tasks, (at, bank): (u16, u16)) -> Option<Message<'static>> {
    if tasks.banks.is_empty() {
        return Some(plain("the bench has no task row, so nothing is done when a task fires"));
    }
    if tasks.known.contains(&(true, (at, bank))) {
        return None;
    }
    let (text, other) = match tasks.banks.get(&at) {
        None => (NO_ROW, NONE),
        Some(other) => (OTHER_BANK, Octal(other.bits())),
    };
    Some((text, [Octal(at), Octal(bank), other, NONE, NONE]))
}

/// The warning about a phase that is set, if there is one.
fn phase_message(bench: &Bench, group: Group, phase: Phase) -> Option<Message<'static>> {
    let is_entry = |entry: &PhaseEntry| entry.group() == group && entry.phase() == phase;
    if phase.get() == 0 || bench.entries().iter().any(is_entry) {
        return None;
    }
    let (group, phase) = (u64::from(group.get()), u64::from(phase.get()));
    let text = "group {} has no entry for phase {}, so nothing begins again in it";
    Some(message_of(text, Number(group), Number(phase)))
}

/// Notes the warning about an item of a bench, if there is one.
fn note_item(found: &mut Warnings, bench: &Bench, tasks: &Tasks, (place, item): (Location, Item)) {
    match item {
        Item::Lists(task, _row) => {
            let numbers = numbers_of(&task);
            let once = if tasks.banks.is_empty() {
                (0, 0)
            } else {
                numbers
            };
            note_once(found, place, task_message(tasks, numbers), Some(once));
        }
        Item::Sets(group, phase) => {
            let once = (u16::from(group.get()), u16::from(phase.get()));
            note_once(found, place, phase_message(bench, group, phase), Some(once));
        }
        Item::Row(task) => {
            let is_alone = !tasks.known.contains(&(false, numbers_of(&task)));
            let message = plain("nothing else lists this task, so it never fires");
            note(found, place, is_alone.then_some(message));
        }
        Item::Device(line) => {
            let text = "a pulse asks for nothing, since the action of {} is nothing";
            let message = message_of(text, Text(line_name(line)), NONE);
            note(found, place, asks_nothing(bench, line).then_some(message));
        }
    }
}

/// Adds the warnings about the first requests of a run that were refused, and about a run that was
/// cut short.
fn add_run(found: &mut Warnings, bench: &Bench, ran: &RunCounts) {
    if let Some(first) = ran.log_full {
        let limit = Number(u64::from(bench.limit().get()));
        let message = message_of(LOG_FULL, Number(first), limit);
        found.add(repeatable(Location::Value(LIMIT), message));
    }
    if let Some(first) = ran.spent {
        let text = "request {} is the first that is refused: spent (allowance {}, all served)";
        let message = message_of(text, Number(first), Number(bench.allowance()));
        found.add(repeatable(Location::Value(ALLOWANCE), message));
    }
    if ran.is_cut {
        let text = "only the first 1000000 requests were run, so a later one may be refused too";
        found.add(repeatable(Location::Whole, plain(text)));
    }
}

/// The warnings about a bench or a scenario with this summary of its run: up to twenty about a
/// scenario's jobs and events, and about parts that have no effect, in the order of the bench's
/// keys; and after them all warnings about the run.
pub(crate) fn warnings_of(
    alloc: Global,
    subject: Subject<'_>,
    ran: &RunCounts,
) -> Result<Vec<Warning>, AllocError> {
    let mut found = Gathered::new(alloc);
    if let Subject::Scenario(scenario) = subject {
        note_timing(alloc, &mut found, scenario)?;
    }
    let bench = subject.bench();
    let items = items_of(alloc, subject)?;
    let tasks = tasks_of(alloc, items.as_slice())?;
    for item in items.as_slice() {
        note_item(&mut found, bench, &tasks, *item);
    }
    add_run(&mut found, bench, ran);
    found.into_list()
}
