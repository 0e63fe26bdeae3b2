// The members of a trace's objects in JSON that its other forms don't have.
use crate::columns::Columns;
use crate::names::ItemKind;
use agc_exec::Seat;
use agc_plan::Task;
use agc_run::{Event, Scene, Since};
use agc_table::{Row, left};
use agc_text::Field::{Number, Octal, Priority, Seconds, Text};

/// Adds an object to an array.
fn put_item(row: &mut Row, item: &mut Row, before: &str) {
    row.text.text(before);
    item.put_object(&mut row.text);
    item.clear();
}

/// Adds a number, if it is there.
fn fill_number(row: &mut Row, key: &'static str, number: Option<u16>) {
    let number = number.map(|number| Number(u64::from(number)));
    row.option(left("", key, 0), number);
}

/// Adds the request since which something is there, if that is known.
fn fill_since(item: &mut Row, since: Option<Since>) {
    if let Some(Since { request, restart }) = since {
        item.cell(left("", "since", 0), Number(request));
        if restart {
            item.text.text("true");
            item.end_plain(left("", "restart", 0));
        }
    }
}

/// Adds the job of a core set.
fn fill_seat(item: &mut Row, columns: &Columns, seat: Seat) {
    fill_number(item, "job", Some(seat.number));
    item.cell(left("", "at", 0), Octal(seat.at));
    let name = columns.names.of(ItemKind::Job(seat.at));
    item.option(left("", "name", 0), name.map(Text));
    item.cell(left("", "priority", 0), Priority(seat.priority));
    item.text.text(if seat.asleep { "true" } else { "false" });
    item.end_plain(left("", "asleep", 0));
    fill_number(item, "area", Some(seat.area));
}

/// Adds a task.
fn fill_task(item: &mut Row, columns: &Columns, task: Task) {
    item.cell(left("", "at", 0), Octal(task.at.get()));
    item.cell(left("", "bank", 0), Octal(task.bank.bits()));
    let name = columns.names.of(ItemKind::Task(task));
    item.option(left("", "name", 0), name.map(Text));
}

/// Adds the core sets, with the request since which each job is there, if that is known.
fn fill_seats(
    row: &mut Row,
    item: &mut Row,
    columns: &Columns,
    (scene, event): (&Scene, Option<&Event>),
) {
    let mut before = "[";
    for seat in scene.seats() {
        match *seat {
            None => {
                row.text.text(before);
                row.text.text("null");
            }
            Some(seat) => {
                fill_seat(item, columns, seat);
                fill_since(item, event.and_then(|event| event.jobs.of_job(seat.number)));
                put_item(row, item, before);
            }
        }
        before = ",";
    }
    row.text.text("]");
    row.end_plain(left("", "sets", 0));
}

/// Adds the tasks that wait, with the request since which each waits, if that is known.
fn fill_waits(
    row: &mut Row,
    item: &mut Row,
    columns: &Columns,
    (scene, event): (&Scene, Option<&Event>),
) {
    row.text.text("[");
    for (k, wait) in scene.waits().iter().enumerate() {
        fill_task(item, columns, wait.task);
        let distance = Seconds(u64::from(wait.distance));
        item.cell(left("", "in", 0), distance);
        let listing = event.and_then(|event| event.tasks.as_slice().get(k));
        fill_since(item, listing.and_then(|listing| Some(listing.since)));
        put_item(row, item, if k == 0 { "" } else { "," });
    }
    row.text.text("]");
    row.end_plain(left("", "tasks", 0));
}

/// Adds the phases of the groups that are active.
fn fill_phases(row: &mut Row, item: &mut Row, columns: &Columns, scene: &Scene) {
    row.text.text("[");
    let mut is_first = true;
    for (group, phase) in (1..7_usize).zip(scene.phases().iter()) {
        if phase.get() > 0 {
            item.cell(left("", "group", 0), Number(group as u64));
            fill_number(item, "phase", Some(u16::from(phase.get())));
            let name = columns.names.of(ItemKind::Phase(group, *phase));
            item.option(left("", "name", 0), name.map(Text));
            put_item(row, item, if is_first { "" } else { "," });
            is_first = false;
        }
    }
    row.text.text("]");
    row.end_plain(left("", "phases", 0));
}

/// Adds the tables of a scene.
pub(crate) fn fill_scene(
    row: &mut Row,
    item: &mut Row,
    columns: &Columns,
    (scene, event): (&Scene, Option<&Event>),
) {
    let running = scene.running().map(|job| Number(u64::from(job.get())));
    row.option(left("", "running", 0), running);
    fill_number(row, "newjob", scene.next_job());
    fill_seats(row, item, columns, (scene, event));
    let mut before = "[";
    for area in 1..6u16 {
        let owner = scene.owner(area).map(|number| Number(u64::from(number)));
        row.text.fill(before, owner.unwrap_or(Text("null")));
        before = ",";
    }
    row.text.text("]");
    row.end_plain(left("", "areas", 0));
    fill_waits(row, item, columns, (scene, event));
    fill_phases(row, item, columns, scene);
}

/// Adds the tasks that fired.
pub(crate) fn fill_fired(row: &mut Row, item: &mut Row, columns: &Columns, event: Option<&Event>) {
    row.text.text("[");
    if let Some(event) = event {
        for k in 0..event.fired.len() {
            if let Some(task) = event.fired.get(k) {
                fill_task(item, columns, task);
                put_item(row, item, if k == 0 { "" } else { "," });
            }
        }
    }
    row.text.text("]");
    row.end_plain(left("", "fired", 0));
}
