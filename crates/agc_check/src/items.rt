//! The items that a bench lists and sets, with their places.
use crate::gathered::Gathered;
use agc_document::rows::{
    ACTION, DEVICES, KEY, LINE, LISTING, PHASES, RADAR, REQUESTS, SCRIPT, TASKS, WORKERS,
};
use agc_document::{Bench, Location};
use agc_plan::{Action, Group, Line, Phase, Request, Task};
use agc_run::Subject;
use agc_scenario::Timing;
use agc_scenario::rows::{DO, EVENTS, JOBS, THEN};
use std::alloc::{AllocError, Global};

/// An item of a bench at one place.
#[derive(Clone, Copy)]
pub(crate) enum Item {
    /// A task is listed, perhaps by an action of this task's row.
    Lists(Task, Option<Task>),
    /// A phase is set.
    Sets(Group, Phase),
    /// A task has a row.
    Row(Task),
    /// A device sends pulses on this line.
    Device(Line),
}

type Items = Gathered<(Location, Item)>;

/// Adds the items of requests, which are those of the array at a place.
fn add_requests(items: &mut Items, at: Location, requests: &[Request]) {
    for (number, request) in (1u64..).zip(requests) {
        let place = at.of_item(number);
        match *request {
            Request::List(_delay, task) => items.add((place, Item::Lists(task, None))),
            Request::SetPhase(group, phase) => items.add((place, Item::Sets(group, phase))),
            _ => {}
        }
    }
}

/// Adds the items of the actions at a place, perhaps those of a task's row. A single action has no
/// place of its own.
fn add_actions(items: &mut Items, at: Location, row: &Option<Task>, actions: &[Action]) {
    for (number, action) in (1u64..).zip(actions) {
        if let Action::List(_delay, task) = *action {
            let place = match actions {
                [_] => at,
                _ => at.of_item(number),
            };
            items.add((place, Item::Lists(task, *row)));
        }
    }
}

/// Adds the rows of tasks and the phase entries.
fn add_plan(items: &mut Items, bench: &Bench) {
    for (number, (task, actions)) in (1u64..).zip(bench.rows()) {
        let at = Location::Field(TASKS, number, ACTION);
        add_actions(items, at, &Some(*task), actions.as_slice());
        items.add((Location::Table(TASKS, number), Item::Row(*task)));
    }
    for (number, entry) in (1u64..).zip(bench.entries()) {
        if let Some((_delay, task)) = entry.task() {
            let place = Location::Field(PHASES, number, LISTING);
            items.add((place, Item::Lists(task, None)));
        }
    }
}

/// Adds the items of a bench, in the order of its keys.
fn add_bench(items: &mut Items, bench: &Bench) {
    add_actions(items, Location::Value(KEY), &None, bench.key().as_slice());
    add_actions(
        items,
        Location::Value(RADAR),
        &None,
        bench.radar().as_slice(),
    );
    add_requests(items, Location::Value(SCRIPT), bench.script());
    add_plan(items, bench);
    for (number, worker) in (1u64..).zip(bench.workers()) {
        let at = Location::Field(WORKERS, number, REQUESTS);
        add_requests(items, at, worker.as_slice());
    }
    for (number, (line, _pulses)) in (1u64..).zip(bench.devices()) {
        items.add((Location::Field(DEVICES, number, LINE), Item::Device(*line)));
    }
}

/// Adds the items of a scenario's jobs and events.
fn add_timed(items: &mut Items, timing: &Timing) {
    for (number, job) in (1u64..).zip(timing.jobs()) {
        add_requests(items, Location::Field(JOBS, number, THEN), job.requests());
    }
    for (number, event) in (1u64..).zip(timing.all_events()) {
        add_requests(items, Location::Field(EVENTS, number, DO), event.requests());
    }
}

/// The items of a bench, and then those of a scenario's jobs and events.
pub(crate) fn items_of(
    alloc: Global,
    subject: Subject<'_>,
) -> Result<Vec<(Location, Item)>, AllocError> {
    let mut items = Gathered::new(alloc);
    add_bench(&mut items, subject.bench());
    if let Some(timing) = subject.timing() {
        add_timed(&mut items, timing);
    }
    items.into_list()
}
