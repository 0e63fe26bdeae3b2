// The account of an alarm: the table that was full, the request that raised it, the jobs that held
// it, and those that begin again.
use crate::columns::Columns;
use crate::page::Page;
use agc_exec::Seat;
use agc_plan::{Alarm, Plan, Task, action_request};
use agc_run::{Event, Scene, Since};
use agc_text::Field::{Number, Priority, Text};
use agc_text::{Buffer, alarm_code, request_text};

/// The name of the table that was full, and how full, in a scene.
fn full_table(alarm: Alarm, scene: &Scene) -> &'static str {
    match alarm {
        Alarm::A1201 => "all five VAC areas are owned",
        Alarm::A1202 if scene.seats().len() == 8 => "all eight core sets are in use",
        Alarm::A1202 => "all seven core sets are in use",
        Alarm::A1203 => "nine tasks wait",
    }
}

/// Adds the task whose action raised the alarm, and that action, by its number where the task has
/// several.
fn put_raiser(page: &mut Page, plan: &Plan, task: Task, number: usize) {
    let actions = plan.actions(&task);
    if actions.len() > 1 {
        let number = [Number(number as u64)];
        page.table
            .lines
            .put("        raised by action {} of task ", &number);
    } else {
        page.table.lines.text("        raised by task ");
    }
    page.columns.put_task(&mut page.table.lines, task);
    let action = actions.get(number.saturating_sub(1));
    match action.and_then(|action| action_request(*action)) {
        None => page.table.lines.text(": nothing\n"),
        Some(request) => {
            let text = request_text(&request);
            page.table.lines.put(": {}\n", &[Text(text.as_str())]);
        }
    }
}

/// Ends a line with the request since which something is there, if that is known.
fn end_known(buffer: &mut Buffer, since: Option<Since>) {
    match since {
        None => buffer.text("\n"),
        Some(Since { request: 0, .. }) => buffer.text(", since power-up\n"),
        Some(Since { request, restart }) => {
            let restarted = if restart { "the restart of " } else { "" };
            buffer.put(
                ", since {}request {}\n",
                &[Text(restarted), Number(request)],
            );
        }
    }
}

/// Adds the line of the job in core set k.
fn put_job(buffer: &mut Buffer, columns: &Columns, k: usize, seat: Seat) {
    let fillings = [
        Number(k as u64),
        Number(u64::from(seat.number)),
        Priority(seat.priority),
        Text(if seat.asleep { "asleep at" } else { "at" }),
    ];
    buffer.put("          set {}: job {}, priority {}, {} ", &fillings);
    columns.put_place(buffer, seat.at);
    if seat.area > 0 {
        buffer.fill(", area ", Number(u64::from(seat.area)));
    }
}

/// Adds the lines of all jobs in core sets.
fn put_jobs(page: &mut Page, event: &Event) {
    for (k, seat) in event.scene.seats().iter().enumerate() {
        if let Some(seat) = *seat {
            put_job(&mut page.table.lines, &page.columns, k, seat);
            end_known(&mut page.table.lines, event.jobs.of_job(seat.number));
        }
    }
}

/// Adds the lines of all tasks that wait.
fn put_tasks(page: &mut Page, event: &Event) {
    for (k, wait) in event.scene.waits().iter().enumerate() {
        page.table.lines.text("          task ");
        page.columns.put_task(&mut page.table.lines, wait.task);
        let distance = Number(u64::from(wait.distance));
        page.table.lines.put(", due in {} cs", &[distance]);
        let since = event.tasks.as_slice().get(k).map(|one| one.since);
        end_known(&mut page.table.lines, since);
    }
}

/// Adds the account of an event's alarm, if it has one, with the phases with which the era begins,
/// and its scene.
pub(crate) fn put_account(page: &mut Page, plan: &Plan, event: &Event) {
    let Some(alarm) = event.alarm() else {
        return;
    };
    let full = Text(full_table(alarm, &event.scene));
    let told = [Text(alarm_code(alarm)), full];
    page.table.lines.put("        alarm {}: {}\n", &told);
    if let Some(task) = event.fired.get(event.fired.len().saturating_sub(1)) {
        put_raiser(page, plan, task, event.raised);
    }
    match alarm {
        Alarm::A1201 | Alarm::A1202 => put_jobs(page, event),
        Alarm::A1203 => put_tasks(page, event),
    }
    if let Some(era) = &event.era {
        page.put_era(&event.scene, era);
    }
}
