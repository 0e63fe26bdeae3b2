//! The machine of a play, and what the player sees of it.
ghost use Rattle.std.specs.Prelude.{◌≡◌, IfOk};
ghost use Rattle.std.specs.List.{fold};
ghost use Rattle.agc_run.specs.Events.{watched, watching_from};
ghost use Rattle.agc_session.specs.Runs.{bench_machine};

use agc_document::Bench;
use agc_exec::Seat;
use agc_machine::{Machine, Refusal};
use agc_phase::code_word;
use agc_plan::{Reply, Request};
use agc_run::{Event, ObservedRun, PendingRequests, Run, Scene};
use agc_session::{RunFault, Source, Walk, machine_of};
use agc_table::TableForm;
use agc_text::Field::{Number, Octal, Priority, Seconds, Text};
use agc_text::{Buffer, Output};
use agc_trace::{Columns, Rows, TraceFormat, TraceOptions};
use std::alloc::{AllocError, Global};
use std::io::Write;
use std::marker::Model;

/// The outcome of a request, beside its row.
#[derive(Clone, Copy)]
pub(crate) enum Effect {
    /// There is nothing more to say.
    Served,
    /// A tick in which nothing happened.
    Quiet,
    /// An era began without an alarm, so that the row has no tables.
    Begun,
    Refused(Refusal),
}

/// The number of the last request, the time after it in the era and since the start, in
/// centiseconds, and its outcome.
#[derive(Clone, Copy)]
struct LastRequest {
    number: u64,
    time: u64,
    total: u64,
    effect: Effect,
}

/// The machine of a play, the rows of its requests, and the last request. Contracts see the
/// machine.
#[derive(Drop)]
pub(crate) struct Player {
    run: ObservedRun<'static>,
    rows: Rows,
    last: LastRequest,
}

impl Model for Player {
    ghost use Rattle.agc_run.specs.Events.{Watching};

    ghost Value = { Watching };

    ghost view = { λ p. p.run.watching };
}

/// The outcome of an event, beside its row.
fn effect_of(event: &Event) -> Effect {
    match &event.answer {
        Err(refusal) => Effect::Refused(*refusal),
        Ok(Reply::Ticked(None)) if event.fired.len() == 0 => Effect::Quiet,
        Ok(_reply) if event.era.is_some() && event.alarm().is_none() => Effect::Begun,
        Ok(_reply) => Effect::Served,
    }
}

/// The part of an event that is kept.
fn last_of(event: &Event) -> LastRequest {
    LastRequest {
        number: event.number,
        time: if event.era.is_some() { 0 } else { event.time },
        total: event.total,
        effect: effect_of(event),
    }
}

/// A run of which nothing is pending.
fn run_by_hand(machine: Machine) -> ObservedRun<'static>
    ensures { result.watching ≡ watching_from machine }
{
    let none = PendingRequests::of_walk(Walk::of_script(&[]));
    ObservedRun::new(Run::new(machine, none))
}

/// A new machine after these requests, and the last of them.
fn replay(machine: Machine, requests: &[Request]) -> (ObservedRun<'static>, LastRequest)
    ensures { result.0.watching ≡ fold watched (watching_from machine) requests.now }
{
    let mut last = LastRequest {
        number: 0,
        time: 0,
        total: 0,
        effect: Effect::Served,
    };
    let mut run = run_by_hand(machine);
    for request in requests {
        last = last_of(&run.ask(request));
    }
    (run, last)
}

/// Adds the job of a core set.
fn put_seat(buffer: &mut Buffer, k: usize, seat: Seat) {
    let fillings = [
        Number(k as u64),
        Number(u64::from(seat.number)),
        Priority(seat.priority),
        Text(if seat.asleep { "asleep at" } else { "at" }),
        Octal(seat.at),
    ];
    buffer.put("    set {}: job {}, priority {}, {} {}", &fillings);
    if seat.area > 0 {
        buffer.fill(", area ", Number(u64::from(seat.area)));
    }
    buffer.text("\n");
}

/// Adds which job is running, and the job in each core set.
fn put_jobs(buffer: &mut Buffer, scene: &Scene) {
    match scene.running() {
        None => buffer.text("    no job is running\n"),
        Some(number) => buffer.put(
            "    job {} is running\n",
            &[Number(u64::from(number.get()))],
        ),
    }
    if let Some(number) = scene.next_job() {
        buffer.put(
            "    NEWJOB names job {}, which is more urgent\n",
            &[Number(u64::from(number))],
        );
    }
    for (k, seat) in scene.seats().iter().enumerate() {
        if let Some(seat) = *seat {
            put_seat(buffer, k, seat);
        }
    }
}

/// Adds how many core sets and areas are free.
fn put_free(buffer: &mut Buffer, scene: &Scene) {
    let seats = scene.seats();
    let free = seats.iter().filter(|seat| seat.is_none()).count();
    let areas = (1..6u16)
        .filter(|area| scene.owner(*area).is_none())
        .count();
    let fillings = [
        Number(free as u64),
        Number(seats.len() as u64),
        Number(areas as u64),
    ];
    buffer.put(
        "    {} of {} core sets and {} of 5 VAC areas are free\n",
        &fillings,
    );
}

/// Adds the tasks that wait, the phases and the codes.
fn put_rest(buffer: &mut Buffer, scene: &Scene) {
    if scene.waits().is_empty() {
        buffer.text("    no task waits\n");
    }
    for wait in scene.waits() {
        let (at, bank) = (wait.task.at.get(), wait.task.bank.bits());
        let distance = Number(u64::from(wait.distance));
        buffer.put(
            "    task {}/{}, due in {} cs\n",
            &[Octal(at), Octal(bank), distance],
        );
    }
    buffer.text("    phases");
    for phase in scene.phases() {
        buffer.fill(" ", Number(u64::from(phase.get())));
    }
    buffer.text("\n    FAILREG");
    for code in scene.codes() {
        buffer.fill(" ", Octal(code_word(code).bits()));
    }
    buffer.text("\n");
}

/// The rows of all requests, in this form.
fn rows_of(alloc: Global, form: TableForm) -> Result<Rows, AllocError> {
    let choice = TraceOptions {
        form: TraceFormat::Rows(form),
        alarms: false,
        from: None,
        to: None,
        brief: false,
    };
    Rows::new(alloc, choice, Columns::of_bench(alloc, false))
}

impl Player {
    /// A bench's machine after these requests, of which no rows are written; those of others have
    /// this form.
    ///
    /// # Errors
    ///
    /// `NoMemory`.
    pub(crate) fn after(
        alloc: Global,
        bench: &Bench,
        requests: &[Request],
        form: TableForm,
    ) -> Result<Player, RunFault>
        ensures { IfOk result (λ p.
            p ≡ fold watched (watching_from (bench_machine bench.now)) requests.now) }
    {
        let rows = rows_of(alloc, form)?;
        let machine = machine_of(alloc, bench)?;
        let (run, last) = replay(machine, requests);
        Ok(Player { run, rows, last })
    }

    /// Adds the heading, and what came of power-up, if the bench has phase words.
    ///
    /// # Errors
    ///
    /// `NoMemory`.
    pub(crate) fn put_heading(&mut self, alloc: Global, bench: &Bench) -> Result<(), RunFault>
        ensures { self.new ≡ self.old }
    {
        let first = run_by_hand(machine_of(alloc, bench)?);
        self.rows.begin(&first, bench);
        Ok(())
    }

    /// Writes the rows that were added.
    ///
    /// # Errors
    ///
    /// If a write fails.
    pub(crate) fn send<W: Write>(&mut self, writer: &mut W) -> Result<(), Output>
        ensures { self.new ≡ self.old }
    {
        self.rows.send(writer)
    }

    /// Asks for one request; its row and account are added, but where only rows are wanted in which
    /// something happened, and in this nothing did.
    pub(crate) fn ask(&mut self, request: &Request, is_told: bool)
        ensures { self.new ≡ watched self.old request.now }
    {
        let event = self.run.ask(request);
        self.last = last_of(&event);
        if is_told || !matches!(self.last.effect, Effect::Quiet) {
            self.rows.add(&self.run, Source::Script, &event);
        }
    }

    /// The outcome of the last request.
    pub(crate) fn effect(&self) -> Effect {
        self.last.effect
    }

    /// Adds all that is shown of the state: after which request, when, and the tables.
    pub(crate) fn put_state(&self, buffer: &mut Buffer, bench: &Bench) {
        let LastRequest {
            number,
            time,
            total,
            ..
        } = self.last;
        buffer.put(
            "after request {}: time {} of the era, {} in all\n",
            &[Number(number), Seconds(time), Seconds(total)],
        );
        let scene = self.run.scene();
        put_jobs(buffer, &scene);
        put_free(buffer, &scene);
        put_rest(buffer, &scene);
        let stored = u64::from(self.run.machine().log_len());
        let limit = u64::from(bench.limit().get());
        buffer.put(
            "    the log has {} of {} requests\n",
            &[Number(stored), Number(limit)],
        );
    }
}
