ghost use Rattle.std.specs.Prelude.{◌≡◌};
ghost use Rattle.agc_plan.specs.Steps.{alarm_of, begins};

use crate::number::JobNo;

/// An alarm: which table a request, or the action of a task in a tick, found full. Source: the
/// listings' EXECUTIVE and WAITLIST sections.
#[derive(Clone, Copy, PartialEq, Eq, Debug)]
pub enum Alarm {
    /// No VAC area is free: all five are owned.
    A1201,
    /// No core set is free: as many jobs live as there are.
    A1202,
    /// The Waitlist is full: nine tasks wait.
    A1203,
}

/// An alarm code as FAILREG holds it: 01107, 01201, 01202 or 01203. Source: the listings' FRESH
/// START AND RESTART section.
#[derive(Clone, Copy, PartialEq, Eq)]
pub enum Code {
    /// The phase words that were found at power-up don't agree, or a phase is above 127.
    C1107,
    /// No VAC area was free.
    C1201,
    /// No core set was free.
    C1202,
    /// The Waitlist was full.
    C1203,
}

/// The reply to a request, without the tasks that fired in a tick: those go into a list that the
/// caller lends, so that a reply is small.
#[derive(Clone, Copy, PartialEq, Eq)]
pub enum Reply {
    /// A job with this number was established.
    Established(JobNo),
    /// The running job ended or sleeps; this one runs now, if any.
    Left(Option<JobNo>),
    /// The job with this number was awakened.
    Roused(JobNo),
    /// No job sleeps at that address.
    NoSleeper,
    /// Nobody runs, so there is no job to act on.
    NoJob,
    /// The job that runs now.
    Runs(JobNo),
    /// A work word was set.
    Stored,
    /// A task was listed.
    Listed,
    /// A centisecond passed, and what was due fired: the alarm that ended it, which the action of
    /// the task that fired last raised, if it did.
    Ticked(Option<Alarm>),
    /// A phase was set.
    Phased,
    /// An era began, by restart or fresh start.
    Restarted,
    /// The table was full. In a machine's answer: and an era began.
    Alarmed(Alarm),
}

impl Reply {
    /// The alarm of the reply: that of the request itself, or of an action in a tick. None if there
    /// was no alarm.
    pub fn alarm(&self) -> Option<Alarm>
        ensures { result ≡ alarm_of self.now }
    {
        match self {
            Reply::Alarmed(alarm) => Some(*alarm),
            Reply::Ticked(alarm) => *alarm,
            _ => None,
        }
    }

    /// Whether an era begins with the reply: with every alarm, restart and fresh start.
    pub fn begins(&self) -> bool
        ensures { result ≡ begins self.now }
    {
        match self {
            Reply::Restarted => true,
            _ => self.alarm().is_some(),
        }
    }
}
