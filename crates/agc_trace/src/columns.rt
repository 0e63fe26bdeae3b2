// The columns of rows, and the names in them.
use crate::names::{ItemKind, Names};
use agc_plan::{Phase, Task};
use agc_run::Subject;
use agc_scenario::Scenario;
use agc_session::{Source, count_requests, line_name};
use agc_table::width_of;
use agc_text::Buffer;
use agc_text::Field::{Number, Octal, Text};
use std::alloc::{AllocError, Global};

/// How many letters of a name are shown at most.
const MOST_LETTERS: usize = 24;

/// The width of the column that says who asks, unless a name in it is longer.
const SOURCE_WIDTH: usize = 9;

/// The columns of rows: the width of the one that says who asks, if there is one; and the names
/// that are shown.
#[derive(Drop)]
pub struct Columns {
    pub(crate) source: Option<usize>,
    pub(crate) names: Names,
}

/// The width of the column that says who asks in a scenario: that of the longest name of an event.
fn source_width(names: &Names, events: usize) -> usize {
    let mut width = SOURCE_WIDTH;
    for event in 0..events {
        let letters = match names.of(ItemKind::Event(event)) {
            None if event < 999 => SOURCE_WIDTH,
            None => SOURCE_WIDTH + 1,
            Some(name) => width_of(front_of(name)),
        };
        width = width.max(letters);
    }
    width
}

impl Columns {
    /// The columns of a bench or script; one of them says who asks, or none does.
    pub fn of_bench(alloc: Global, has_sources: bool) -> Columns {
        Columns {
            source: if has_sources {
                Some(SOURCE_WIDTH)
            } else {
                None
            },
            names: Names::none(alloc),
        }
    }

    /// The columns of a scenario: one of them says who asks, and its names are shown.
    fn of_scenario(alloc: Global, scenario: &Scenario) -> Result<Columns, AllocError> {
        let names = Names::of_scenario(alloc, scenario)?;
        let events = scenario.timing().all_events().len();
        Ok(Columns {
            source: Some(source_width(&names, events)),
            names,
        })
    }

    /// The columns of a bench, where one says who asks if several do; or of a scenario, where one
    /// always does, and names are shown.
    pub(crate) fn of(alloc: Global, subject: Subject<'_>) -> Result<Columns, AllocError> {
        match subject {
            Subject::Bench(bench) => {
                Ok(Columns::of_bench(alloc, count_requests(bench).is_shared))
            }
            Subject::Scenario(scenario) => Columns::of_scenario(alloc, scenario),
        }
    }

    /// The width of the columns in front of the tables, without the last two blanks.
    pub(crate) fn front_width(&self) -> usize {
        match self.source {
            None => 82,
            Some(width) => width.saturating_add(84),
        }
    }

    /// The name of the event that makes a request.
    pub(crate) fn event(&self, source: Source) -> Option<&str> {
        match source {
            Source::Event(event) => self.names.of(ItemKind::Event(event)),
            _ => None,
        }
    }

    /// Adds who asks: an event by its name, or else by its number from 1.
    pub(crate) fn put_source(&self, buffer: &mut Buffer, source: Source) {
        match source {
            Source::Script => buffer.text("script"),
            Source::Worker(number) => buffer.fill("worker ", Number(number)),
            Source::Pulse(line) => buffer.text(line_name(line)),
            Source::Clock => buffer.text("clock"),
            Source::Event(event) => match self.names.of(ItemKind::Event(event)) {
                None => buffer.fill("event ", Number(event.saturating_add(1) as u64)),
                Some(name) => put_joined(buffer, name),
            },
        }
    }

    /// Adds a thing's name to a cell, after a colon, if it has one.
    pub(crate) fn put_name(&self, buffer: &mut Buffer, what: ItemKind) {
        if let Some(name) = self.names.of(what) {
            buffer.text(":");
            put_joined(buffer, name);
        }
    }

    /// Adds where a job is: its name, if it has one, and its address.
    pub(crate) fn put_place(&self, buffer: &mut Buffer, at: u16) {
        match self.names.of(ItemKind::Job(at)) {
            None => buffer.add(Octal(at)),
            Some(name) => buffer.put("{} ({})", &[Text(name), Octal(at)]),
        }
    }

    /// Adds a task: its name, if it has one, its address and its bank.
    pub(crate) fn put_task(&self, buffer: &mut Buffer, task: Task) {
        let (at, bank) = (task.at.get(), task.bank.bits());
        match self.names.of(ItemKind::Task(task)) {
            None => buffer.put("{}/{}", &[Octal(at), Octal(bank)]),
            Some(name) => buffer.put("{} ({}/{})", &[Text(name), Octal(at), Octal(bank)]),
        }
    }

    /// Adds the phases of a scene, each with its name, if it has one.
    pub(crate) fn put_phases(&self, buffer: &mut Buffer, phases: &[Phase]) {
        buffer.text("        restart by phases");
        for (k, phase) in phases.iter().enumerate() {
            buffer.fill(" ", Number(u64::from(phase.get())));
            if let Some(name) = self.names.of(ItemKind::Phase(k.saturating_add(1), *phase)) {
                buffer.put(" ({})", &[Text(name)]);
            }
        }
    }
}

/// The part of a name that is shown.
fn front_of(name: &str) -> &str {
    match name.char_indices().nth(MOST_LETTERS) {
        None => name,
        Some((place, _letter)) => name.get(..place).unwrap_or(name),
    }
}

/// Adds the part of a name that is shown to a cell, without blanks.
fn put_joined(buffer: &mut Buffer, name: &str) {
    for letter in front_of(name).chars() {
        let letter = if letter == ' ' { '_' } else { letter };
        buffer.text(letter.encode_utf8(&mut [0; 4]));
    }
}
