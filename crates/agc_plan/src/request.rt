ghost use Rattle.std.specs.Prelude.{◌≡◌, ◌<◌, ◌↔◌, IsSome, IfSome};
ghost use Rattle.agc_plan.specs.Ranges.{IsEntry, IsRequest, IsTask};
ghost use Rattle.agc_plan.specs.Steps.{is_tick};

use crate::number::{Address, Delay, Group, Phase, Place, Priority};
use agc_word::Word;
use std::marker::Model;

/// Where a job begins: its address, and the word for its bank. Source: the listings' EXECUTIVE
/// section.
#[derive(Clone, Copy, PartialEq, Eq)]
pub struct Entry {
    /// Where the job begins.
    pub at: Address,
    /// The word for its bank, kept in BANKSET as it was given.
    pub bank: Word,
}

/// A task of the Waitlist: its address, and the word for its bank. Source: the listings' WAITLIST
/// section.
#[derive(Clone, Copy, PartialEq, Eq)]
pub struct Task {
    /// Where the task begins.
    pub at: Address,
    /// The word for its bank, kept in LST2 as it was given.
    pub bank: Word,
}

/// An action of a plan, for a task that fires, or for a key or radar pulse.
#[derive(Clone, Copy, PartialEq, Eq)]
pub enum Action {
    /// Nothing is done.
    Nothing,
    /// A job without a VAC area is established, of this priority.
    Novac(Priority, Entry),
    /// A job with a VAC area is established, of this priority.
    Findvac(Priority, Entry),
    /// The least-numbered sleeper of this address is awakened.
    Rouse(Address),
    /// A task is listed, due this many centiseconds from now.
    List(Delay, Task),
}

/// How the job of a phase is established: without a VAC area, or with one.
#[derive(Clone, Copy, PartialEq, Eq)]
pub enum JobStart {
    /// Without a VAC area, of this priority.
    Novac(Priority, Entry),
    /// With a VAC area, of this priority.
    Findvac(Priority, Entry),
}

/// A request to the machine. Source: at each request.
#[derive(Clone, Copy, PartialEq, Eq)]
pub enum Request {
    /// Establish a job without a VAC area, of this priority. Source: the listings' EXECUTIVE
    /// section, as for all up to `Change`.
    Novac(Priority, Entry),
    /// Establish a job with a VAC area, of this priority.
    Findvac(Priority, Entry),
    /// End the running job.
    EndOfJob,
    /// Put the running job to sleep, to be awakened at this address.
    Sleep(Address),
    /// Awaken the least-numbered sleeper of this address. Which of several: profile.
    Rouse(Address),
    /// Set the running job's priority. That a more urgent job then runs at once: profile.
    Prio(Priority),
    /// Change to a strictly more urgent job, if one is awake.
    Change,
    /// Set one work word of the running job.
    Store(Place, Word),
    /// List a task, due this many centiseconds from now. Source: the listings' WAITLIST section.
    List(Delay, Task),
    /// A centisecond passes: TIME3 counts up, and while a task is due it fires and the plan's
    /// action for it is done, up to an alarm. Source: the listings' WAITLIST section; actions:
    /// profile.
    Tick,
    /// Set the phase of a restart group, 0 for inactive. Source: the listings' PHASE TABLE
    /// MAINTENANCE section.
    SetPhase(Group, Phase),
    /// The software restart: an era begins with phases and codes as they stand. Source: the
    /// listings' FRESH START AND RESTART section.
    Restart,
    /// The fresh start: an era begins with six phases 0 and no codes. Source: the listings' FRESH
    /// START AND RESTART section.
    Fresh,
}

/// An entry's numbers are in the ranges of their types.
fn entry_is_in_range(entry: Entry)
    ensures { IsEntry entry }
{
    let _ = (entry.at.get(), entry.bank.bits());
}

/// A task's numbers are.
fn task_is_in_range(task: Task)
    ensures { IsTask task }
{
    let _ = (task.at.get(), task.bank.bits());
}

impl Request {
    /// Whether a centisecond passes.
    pub fn is_tick(&self) -> bool
        ensures { result ≡ is_tick self.now }
    {
        *self == Request::Tick
    }

    /// A law: the numbers of a request are in the ranges of their types.
    pub fn is_in_range(&self)
        ensures { IsRequest self.now }
    {
        match *self {
            Request::Novac(priority, entry) | Request::Findvac(priority, entry) => {
                let _ = priority.get();
                entry_is_in_range(entry);
            }
            Request::Sleep(at) | Request::Rouse(at) => {
                let _ = at.get();
            }
            Request::Prio(priority) => {
                let _ = priority.get();
            }
            Request::Store(place, word) => {
                let _ = (place.get(), word.bits());
            }
            Request::List(delay, task) => {
                let _ = delay.get();
                task_is_in_range(task);
            }
            Request::SetPhase(group, phase) => {
                let _ = (group.get(), phase.get());
            }
            Request::EndOfJob => {}
            Request::Change => {}
            Request::Tick => {}
            Request::Restart => {}
            Request::Fresh => {}
        }
    }
}

/// An entry of a plan: a job, a task, both or neither, which begin again with a restart while a
/// group is in a phase. Contracts see its four parts.
#[derive(Clone, Copy, PartialEq, Eq)]
pub struct PhaseEntry {
    group: Group,
    phase: Phase,
    job: Option<JobStart>,
    task: Option<(Delay, Task)>,
}

impl Model for PhaseEntry {
    ghost use Rattle.std.specs.Prelude.{◌<◌};
    ghost use Rattle.agc_plan.specs.Begins.{Begins};

    ghost Value = { Begins };

    ghost view = { λ e. record { group = e.group; phase = e.phase; job = e.job; task = e.task } };

    ghost invariant = { λ e. 0 < e.phase };

    ghost inverse = { λ b. record { group = b.group; phase = b.phase; job = b.job; task = b.task } };
}

impl PhaseEntry {
    /// An entry of these parts. None for phase 0, in which a group is inactive.
    pub fn new(
        group: Group,
        phase: Phase,
        job: Option<JobStart>,
        task: Option<(Delay, Task)>,
    ) -> Option<PhaseEntry>
        ensures valid { IsSome result ↔ (0 < phase) }
        ensures value { IfSome result (λ e. e
            ≡ record { group = group; phase = phase; job = job; task = task }) }
    {
        if phase.get() == 0 {
            None
        } else {
            Some(PhaseEntry {
                group,
                phase,
                job,
                task,
            })
        }
    }

    /// The restart group.
    pub fn group(&self) -> Group
        ensures { result ≡ self.now.group }
    {
        self.group
    }

    /// The phase, which isn't 0.
    pub fn phase(&self) -> Phase
        ensures value { result ≡ self.now.phase }
        ensures active { 0 < result }
    {
        self.phase
    }

    /// The job that begins again, if one does.
    pub fn job(&self) -> Option<JobStart>
        ensures { result ≡ self.now.job }
    {
        self.job
    }

    /// The task that is listed again, if one is, and its delay in centiseconds from the beginning
    /// of the era.
    pub fn task(&self) -> Option<(Delay, Task)>
        ensures { result ≡ self.now.task }
    {
        self.task
    }
}
