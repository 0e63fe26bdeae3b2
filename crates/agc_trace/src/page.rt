// A part of a trace that is written at once, with its rows.
use crate::columns::Columns;
use crate::json;
use crate::names::ItemKind;
use agc_exec::Seat;
use agc_run::{Event, Scene};
use agc_session::Source;
use agc_table::{Row, Table, TableForm, left};
use agc_text::Field::{Bytes, Number, Octal, Priority, Seconds, Text};
use agc_text::{Buffer, Output, alarm_code, answer_text, request_text};
use std::alloc::{AllocError, Global};
use std::io::Write;

/// The columns of core sets and areas in CSV.
const SETS: [&str; 8] = [
    "set0", "set1", "set2", "set3", "set4", "set5", "set6", "set7",
];

const AREAS: [&str; 5] = ["area1", "area2", "area3", "area4", "area5"];

/// What a row of a trace shows: power-up with this reply, or a request.
#[derive(Clone, Copy)]
pub(crate) enum TraceEntry<'a> {
    Power(&'static str),
    Request(Source, &'a Event),
}

/// A part of a trace that is written at once: its table, its columns, and the rows of an object of
/// JSON within a row, and of one within that.
#[derive(Drop)]
pub(crate) struct Page {
    pub(crate) table: Table,
    pub(crate) columns: Columns,
    inner: Row,
    item: Row,
}

/// Adds the job of a core set and its priority, in brackets if it sleeps, and after `>` if NEWJOB
/// names it.
fn put_seat(buffer: &mut Buffer, columns: &Columns, named: Option<u16>, seat: Seat) {
    let (before, behind) = if seat.asleep {
        (" (", ")")
    } else if named == Some(seat.number) {
        (" >", "")
    } else {
        (" ", "")
    };
    buffer.fill(before, Number(u64::from(seat.number)));
    columns.put_name(buffer, ItemKind::Job(seat.at));
    buffer.put("/{}{}", &[Priority(seat.priority), Text(behind)]);
}

/// Adds all tasks in order, each with the centiseconds that are left to it.
fn put_waits(buffer: &mut Buffer, columns: &Columns, scene: &Scene) {
    if scene.waits().is_empty() {
        buffer.text(" -");
    }
    for wait in scene.waits() {
        buffer.fill(" ", Octal(wait.task.at.get()));
        columns.put_name(buffer, ItemKind::Task(wait.task));
        buffer.fill("+", Number(u64::from(wait.distance)));
    }
}

/// Adds a column of CSV with a job's name or, if it has none, its address.
fn fill_job(row: &mut Row, columns: &Columns, key: &'static str, seat: Option<Seat>) {
    let job = seat.map(|seat| match columns.names.of(ItemKind::Job(seat.at)) {
        None => Octal(seat.at),
        Some(name) => Text(name),
    });
    row.option(left("", key, 0), job.or(Some(Text(""))));
}

/// How many core sets and VAC areas are taken.
fn count_taken(scene: &Scene) -> (u64, u64) {
    let (mut sets, mut areas) = (0_u64, 0_u64);
    for seat in scene.seats() {
        if let Some(seat) = *seat {
            sets = sets.saturating_add(1);
            areas = areas.saturating_add(u64::from(seat.area > 0));
        }
    }
    (sets, areas)
}

/// The job that owns an area, from its core set.
fn owner(scene: &Scene, area: u16) -> Option<Seat> {
    let seats = scene.seats().iter().flatten();
    seats.copied().find(|seat| seat.area == area)
}

/// Adds the columns of a scene in CSV: the running job and its priority, how many core sets, VAC
/// areas and tasks are taken, and the jobs in core sets and areas.
fn fill_values(row: &mut Row, columns: &Columns, scene: &Scene) {
    let (sets, areas) = count_taken(scene);
    let (number, priority) = match (scene.running(), scene.seats()) {
        (Some(number), [Some(seat), ..]) => {
            let number = Number(u64::from(number.get()));
            (Some(number), Some(Priority(seat.priority)))
        }
        _ => (None, None),
    };
    row.option(left("", "running", 0), number);
    row.option(left("", "priority", 0), priority);
    row.cell(left("", "sets_used", 0), Number(sets));
    row.cell(left("", "areas_used", 0), Number(areas));
    let tasks = Number(scene.waits().len() as u64);
    row.cell(left("", "tasks_waiting", 0), tasks);
    for (k, key) in SETS.iter().enumerate() {
        let seat = scene.seats().get(k).copied().flatten();
        fill_job(row, columns, key, seat);
    }
    for (area, key) in (1..6u16).zip(AREAS.iter()) {
        fill_job(row, columns, key, owner(scene, area));
    }
}

/// Adds the tables of a scene in text.
fn fill_tables(row: &mut Row, columns: &Columns, scene: &Scene) {
    let running = scene.running().map(|job| Number(u64::from(job.get())));
    row.cell(left("running", "", 7), running.unwrap_or(Text("-")));
    for seat in scene.seats() {
        match *seat {
            None => row.text.text(" ."),
            Some(seat) => put_seat(&mut row.text, columns, scene.next_job(), seat),
        }
    }
    row.end(left(" sets", "", 56));
    for area in 1..6u16 {
        match scene.owner(area) {
            None => row.text.text(" ."),
            Some(number) => row.text.fill(" ", Number(u64::from(number))),
        }
    }
    row.end(left(" areas", "", 10));
    put_waits(&mut row.text, columns, scene);
    row.end(left(" tasks", "", 0));
}

impl Page {
    /// An empty page.
    pub(crate) fn new(
        alloc: Global,
        columns: Columns,
        form: TableForm,
    ) -> Result<Page, AllocError> {
        match (Table::new(alloc, form), Row::new(alloc), Row::new(alloc)) {
            (Ok(table), Ok(inner), Ok(item)) => Ok(Page {
                table,
                columns,
                inner,
                item,
            }),
            _ => Err(AllocError),
        }
    }

    /// Writes the page, and empties it.
    pub(crate) fn send<W: Write>(&mut self, writer: &mut W) -> Result<(), Output> {
        self.table.send(writer)
    }

    /// Adds the source of the request; power-up has none.
    fn fill_source(&mut self, entry: TraceEntry<'_>) {
        let is_text = self.table.is_text();
        let by = left("by", "by", self.columns.source.unwrap_or(0)).below();
        let row = &mut self.table.row;
        match entry {
            TraceEntry::Power(_) if is_text => row.cell(by, Text("")),
            TraceEntry::Power(_) => row.option(by, None),
            TraceEntry::Request(source, _) => match self.columns.event(source) {
                Some(name) if !is_text => row.cell(by, Text(name)),
                _ => {
                    self.columns.put_source(&mut row.text, source);
                    row.end(by);
                }
            },
        }
    }

    /// Adds the number, in text with a `!` if the request was refused, and the times.
    fn fill_times(&mut self, entry: TraceEntry<'_>) {
        let (number, time, total, is_refused) = match entry {
            TraceEntry::Power(_) => (0, 0, 0, false),
            TraceEntry::Request(_, event) => {
                let is_refused = event.answer.is_err();
                (event.number, event.time, event.total, is_refused)
            }
        };
        let has_mark = is_refused && self.table.is_text();
        let row = &mut self.table.row;
        if has_mark {
            row.text.put("{}!", &[Number(number)]);
            row.end(left("no", "no", 8));
        } else {
            row.cell(left("no", "no", 8), Number(number));
        }
        row.cell(left("time", "time", 8), Seconds(time));
        row.cell(left("total", "total", 8), Seconds(total));
    }

    /// Adds the cells in front of the tables.
    fn fill_front(&mut self, entry: TraceEntry<'_>) {
        let has_source = self.columns.source.is_some() || !self.table.is_text();
        self.fill_times(entry);
        if has_source {
            self.fill_source(entry);
        }
        let row = &mut self.table.row;
        let (request, reply) = (left("request", "request", 22), left("reply", "reply", 28));
        match entry {
            TraceEntry::Power(outcome) => {
                row.cell(request, Text("power-up"));
                row.cell(reply, Text(outcome));
            }
            TraceEntry::Request(_, event) => {
                row.cell(request, Text(request_text(&event.request).as_str()));
                let answer = answer_text(&event.answer, &event.fired);
                row.cell(reply, Bytes(answer.as_slice()));
            }
        }
        row.below();
    }

    /// Adds the cells of a scene.
    fn fill_scene(&mut self, entry: TraceEntry<'_>, scene: &Scene) {
        let (row, columns) = (&mut self.table.row, &self.columns);
        let event = match entry {
            TraceEntry::Power(_) => None,
            TraceEntry::Request(_, event) => Some(event),
        };
        let alarm = event.and_then(|event| event.alarm());
        let alarm = alarm.map(|alarm| Text(alarm_code(alarm)));
        match self.table.form {
            TableForm::Wide | TableForm::Within(_) => fill_tables(row, columns, scene),
            TableForm::Csv => {
                row.option(left("", "alarm", 0), alarm);
                fill_values(row, columns, scene);
            }
            TableForm::JsonLines => {
                row.option(left("", "alarm", 0), alarm);
                json::fill_fired(row, &mut self.item, columns, event);
                json::fill_scene(row, &mut self.item, columns, (scene, event));
                let era = event.and_then(|event| event.era.as_ref());
                if let Some(era) = era {
                    json::fill_scene(&mut self.inner, &mut self.item, columns, (era, None));
                    self.inner.put_object(&mut row.text);
                    self.inner.clear();
                    row.end_plain(left("", "era", 0));
                } else {
                    row.option(left("", "era", 0), None);
                }
            }
        }
    }

    /// Adds the title, if there is one, and the heading.
    pub(crate) fn put_heading(&mut self, scene: &Scene) {
        if self.table.is_text() {
            if let Some(title) = self.columns.names.of(ItemKind::Title) {
                self.table.lines.put("{}\n", &[Text(title)]);
            }
        }
        self.fill_front(TraceEntry::Power(""));
        self.fill_scene(TraceEntry::Power(""), scene);
        self.table.end_heading();
    }

    /// Adds the row of power-up, with the scene with which the first era begins, or of a request.
    pub(crate) fn put(&mut self, entry: TraceEntry<'_>, scene: &Scene) {
        self.fill_front(entry);
        self.fill_scene(entry, scene);
        self.table.end_row();
    }

    /// Adds a row of the tables with which an era begins, after its phases, those of this scene.
    pub(crate) fn put_era(&mut self, scene: &Scene, era: &Scene) {
        let whole = self.columns.front_width();
        let row = &mut self.table.row;
        self.columns.put_phases(&mut row.text, &scene.phases());
        row.end(left("", "", whole));
        row.below();
        fill_tables(row, &self.columns, era);
        self.table.end_row();
    }
}
