// A run's trace, row by row.
use crate::alarms::put_account;
use crate::brief::{Quiet, quiet_of};
use crate::chart::Chart;
use crate::columns::Columns;
use crate::ends::{RefusalCounts, put_idle, put_power, put_refused};
use crate::page::{Page, TraceEntry};
use agc_clock::Clock;
use agc_document::Bench;
use agc_machine::Refusal;
use agc_plan::{Reply, Request};
use agc_run::{Event, ObservedRun, Scene};
use agc_session::Source;
use agc_table::TableForm;
use agc_text::Field::{Number, Text};
use agc_text::Output;
use std::alloc::{AllocError, Global};
use std::io::Write;

/// The form of a trace.
#[derive(Clone, Copy, PartialEq, Eq)]
pub enum TraceFormat {
    /// A row for each request, and in text accounts of alarms.
    Rows(TableForm),
    /// One object of JSON, whose events are a chart.
    Chart,
}

/// The form of a trace, and the requests that it shows: those that meet all of these conditions.
#[derive(Clone, Copy)]
pub struct TraceOptions {
    pub form: TraceFormat,
    /// Only those that raised an alarm.
    pub alarms: bool,
    /// Only those from this centisecond on.
    pub from: Option<u64>,
    /// Only those up to this one.
    pub to: Option<u64>,
    /// Quiet requests, after which only the time has changed, are counted together if they follow
    /// each other. In forms without lines they are left out.
    pub brief: bool,
}

impl TraceOptions {
    /// Whether a request at this centisecond has a row, given whether it raised an alarm.
    fn tells(&self, time: u64, is_alarmed: bool) -> bool {
        (is_alarmed || !self.alarms)
            && self.from.unwrap_or(0) <= time
            && time <= self.to.unwrap_or(u64::MAX)
    }
}

/// Quiet requests in a row that have not been written yet.
#[derive(Clone, Copy)]
struct QuietRun {
    quiet: Quiet,
    count: u64,
}

/// The rows of a run: which requests have one; the page for them, and the chart; the scene before
/// the next request, if the trace is brief; the quiet requests that are not written yet; and how
/// many were refused.
#[derive(Drop)]
pub struct Rows {
    choice: TraceOptions,
    page: Page,
    chart: Chart,
    before: Option<Scene>,
    left: Option<QuietRun>,
    refused: RefusalCounts,
}

impl Rows {
    /// The rows of a run, before the first.
    ///
    /// # Errors
    ///
    /// If memory runs out.
    pub fn new(alloc: Global, choice: TraceOptions, columns: Columns) -> Result<Rows, AllocError> {
        let form = match choice.form {
            TraceFormat::Rows(form) => form,
            TraceFormat::Chart => TableForm::JsonLines,
        };
        Ok(Rows {
            choice,
            page: Page::new(alloc, columns, form)?,
            chart: Chart::new(),
            before: None,
            left: None,
            refused: RefusalCounts::default(),
        })
    }

    /// Adds the number of quiet requests since the last row, if there are any.
    fn put_left(&mut self) {
        match self.left {
            Some(QuietRun { quiet, count }) if self.page.table.is_text() => {
                let told = [Text(quiet.words()), Number(count)];
                self.page.table.lines.put("        {} x {}\n", &told);
            }
            _ => {}
        }
        self.left = None;
    }

    /// Counts one more quiet request, and first writes those that were quiet in another way.
    fn put_quiet(&mut self, quiet: Quiet) {
        let before = self.left.filter(|left| left.quiet == quiet);
        if before.is_none() {
            self.put_left();
        }
        let count = before.map_or(1, |left| left.count.saturating_add(1));
        self.left = Some(QuietRun { quiet, count });
    }

    /// Counts a refused request.
    fn count_refused(&mut self, answer: &Result<Reply, Refusal>) {
        let RefusalCounts { log_full, spent } = self.refused;
        match answer {
            Ok(_reply) => {}
            Err(Refusal::Spent) => self.refused.spent = spent.saturating_add(1),
            Err(Refusal::LogFull) => self.refused.log_full = log_full.saturating_add(1),
        }
    }

    /// Keeps the scene before the next request, if the trace is brief.
    fn keep_scene(&mut self, run: &ObservedRun<'_>) {
        if self.choice.brief {
            self.before = Some(run.scene());
        }
    }

    /// Adds the heading, and the outcome of power-up, if a bench has phase words.
    pub fn begin(&mut self, run: &ObservedRun<'_>, bench: &Bench) {
        self.keep_scene(run);
        let scene = run.scene();
        match self.choice.form {
            TraceFormat::Rows(_form) => {
                self.page.put_heading(&scene);
                if let Some(words) = bench.power() {
                    put_power(&mut self.page, &words, &scene);
                }
            }
            TraceFormat::Chart => {
                let is_whole = self.choice.from.is_none();
                self.chart.begin(&mut self.page, is_whole.then_some(&scene));
            }
        }
    }

    /// Notes the clock's place after a request.
    pub(crate) fn pass(&mut self, request: &Request, clock: Option<&Clock>) {
        if let Some(clock) = clock {
            self.chart.pass(request, clock);
        }
    }

    /// Adds the row of an event, or what a chart shows of it.
    fn put_row_of(&mut self, run: &ObservedRun<'_>, source: Source, event: &Event) {
        match self.choice.form {
            TraceFormat::Rows(_form) => {
                self.page
                    .put(TraceEntry::Request(source, event), &event.scene);
                if self.page.table.is_text() {
                    put_account(&mut self.page, run.machine().plan(), event);
                }
            }
            TraceFormat::Chart => self.chart.tell(&mut self.page, source, event),
        }
    }

    /// Adds the row of a machine's last event, with its source and the account of its alarm, if it
    /// is chosen.
    pub fn add(&mut self, run: &ObservedRun<'_>, source: Source, event: &Event) {
        self.count_refused(&event.answer);
        if self.choice.tells(event.total, event.alarm().is_some()) {
            let before = self.before.as_ref();
            if let Some(quiet) = before.and_then(|before| quiet_of(before, event)) {
                self.put_quiet(quiet);
            } else {
                self.put_left();
                self.put_row_of(run, source, event);
            }
        }
        self.keep_scene(run);
    }

    /// Writes all that was added.
    ///
    /// # Errors
    ///
    /// If a write fails, or there was no memory for a long row.
    pub fn send<W: Write>(&mut self, writer: &mut W) -> Result<(), Output> {
        self.page.send(writer)
    }

    /// Adds the lines after the last request of a bench: how many requests were refused, and the
    /// devices whose pulses make no requests.
    pub fn end(&mut self, bench: &Bench) {
        self.put_left();
        match self.choice.form {
            TraceFormat::Rows(_form) if self.page.table.is_text() => {
                put_refused(&mut self.page.table.lines, self.refused, bench);
                put_idle(&mut self.page.table.lines, bench);
            }
            TraceFormat::Rows(_form) => {}
            TraceFormat::Chart => self.chart.end(&mut self.page),
        }
    }
}
