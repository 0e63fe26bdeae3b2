//! The jobs that are alive, and how the life of each is over.
ghost use Rattle.std.specs.Prelude.{◌≡◌, ℕ, ◌+◌, ◌<◌, List, ◌∷◌, None, length, option_map};
ghost use Rattle.std.specs.Prelude.{slice_index_or, if◌then◌else◌};
ghost use Rattle.std.specs.Option.{option_or};
ghost use Rattle.agc_word.specs.Layout.{IsSized};
ghost use Rattle.agc_exec.specs.Seats.{seats_in};
ghost use Rattle.agc_stats.specs.ObservedJobs.{activity_of, states_in, state_here};
ghost use Rattle.agc_stats.specs.Lives.{alive_job, gone, is_same_activity, release_in, state_in};
ghost use Rattle.agc_stats.specs.Following.{gone_on, released_with};
ghost use Rattle.agc_stats.specs.declared.live_jobs.Snapshot.{Snapshot};

use agc_exec::{Seat, job_at};
use agc_word::Erasable;

/// The most jobs that can be alive.
pub(crate) const MOST: usize = 8;

/// A time of a run, in hundredths of a centisecond since its start.
pub type Hundredths = u64;

/// The state of a job: it runs in core set 0, waits in another, or sleeps.
#[derive(Clone, Copy)]
pub(crate) enum Activity {
    Runs,
    Waits,
    Sleeps,
}

/// A job as the words show it: its address, and its state.
#[derive(Clone, Copy)]
pub(crate) struct ObservedJob {
    pub(crate) at: u16,
    pub(crate) activity: Activity,
}

/// The jobs by their numbers from 1.
pub(crate) type ObservedJobs = [Option<ObservedJob>; MOST];

/// How the life of a job is over: it ended, was lost as an era began, or is alive at the end of the
/// run.
#[derive(Clone, Copy)]
pub(crate) enum LifeEnd {
    Ended,
    Lost,
    Alive,
}

/// The jobs by their numbers at a time of a run; how much time passed since the snapshot before,
/// and how much of it was computed; and how the lives are over of those jobs that were alive in
/// that snapshot and aren't in this one.
#[derive(Clone, Copy)]
pub(crate) struct Snapshot {
    pub(crate) time: Hundredths,
    pub(crate) passed: u64,
    pub(crate) computed: u64,
    pub(crate) end: LifeEnd,
    pub(crate) jobs: ObservedJobs,
}

/// A job that is alive: the address at which it was released, and when; its state; its computing
/// time and the time that it slept, in hundredths of a centisecond; and how often it was preempted.
#[derive(Clone, Copy)]
pub(crate) struct LiveJob {
    pub(crate) at: u16,
    pub(crate) activity: Activity,
    pub(crate) released: Hundredths,
    pub(crate) computed: u64,
    pub(crate) slept: u64,
    pub(crate) preempted: u64,
}

/// The life of a job, and when and how it was over.
#[derive(Clone, Copy)]
pub(crate) struct JobLife {
    pub(crate) job: LiveJob,
    pub(crate) time: Hundredths,
    pub(crate) end: LifeEnd,
}

/// This number if both states are the same, else 0.
fn if_same(one: Activity, other: Activity, number: u64) -> u64
    ensures { result ≡ (if is_same_activity one other then number else 0) }
{
    match (one, other) {
        (Activity::Runs, Activity::Runs)
        | (Activity::Waits, Activity::Waits)
        | (Activity::Sleeps, Activity::Sleeps) => number,
        _ => 0,
    }
}

impl LiveJob {
    /// A job that is released.
    fn release(job_state: ObservedJob, time: Hundredths) -> LiveJob
        ensures { result ≡ released_with job_state time }
    {
        LiveJob {
            at: job_state.at,
            activity: job_state.activity,
            released: time,
            computed: 0,
            slept: 0,
            preempted: 0,
        }
    }

    /// The job after what has passed up to a snapshot, in which it has this state.
    fn go_on(self, snapshot: &Snapshot, activity: Activity) -> LiveJob
        ensures { result ≡ gone_on snapshot.now activity self }
    {
        let computed = if_same(self.activity, Activity::Runs, snapshot.computed);
        let slept = if_same(self.activity, Activity::Sleeps, snapshot.passed);
        let waits = if_same(activity, Activity::Waits, 1);
        let preempted = if_same(self.activity, Activity::Runs, waits);
        LiveJob {
            at: self.at,
            activity,
            released: self.released,
            computed: self.computed.saturating_add(computed),
            slept: self.slept.saturating_add(slept),
            preempted: self.preempted.saturating_add(preempted),
        }
    }
}

/// The job of a number after a snapshot that shows this state of it, if it was this one before.
pub(crate) fn follow(
    live_job: Option<LiveJob>,
    snapshot: &Snapshot,
    job_state: Option<ObservedJob>,
) -> Option<LiveJob>
    ensures { (n : ℕ) (past : List Snapshot) → live_job ≡ alive_job n past
        → job_state ≡ state_in n snapshot.now → result ≡ alive_job n (snapshot.now ∷ past) }
{
    match (live_job, job_state) {
        (_, None) => None,
        (None, Some(state)) => Some(LiveJob::release(state, snapshot.time)),
        (Some(living), Some(state)) => Some(living.go_on(snapshot, state.activity)),
    }
}

/// The address of a job that was released, if the number wasn't in use before.
pub(crate) fn release(live_job: Option<LiveJob>, job_state: Option<ObservedJob>) -> Option<u16>
    ensures { (n : ℕ) (s : Snapshot) (past : List Snapshot) → live_job ≡ alive_job n past
        → job_state ≡ state_in n s → result ≡ release_in n s past }
{
    match (live_job, job_state) {
        (None, Some(state)) => Some(state.at),
        _ => None,
    }
}

/// The life that is over with a snapshot.
pub(crate) fn leave(
    live_job: Option<LiveJob>,
    snapshot: &Snapshot,
    job_state: Option<ObservedJob>,
) -> Option<JobLife>
    ensures { (n : ℕ) (past : List Snapshot) → live_job ≡ alive_job n past
        → job_state ≡ state_in n snapshot.now → result ≡ gone n snapshot.now past }
{
    match (live_job, job_state) {
        (Some(living), None) => Some(JobLife {
            job: living.go_on(snapshot, living.activity),
            time: snapshot.time,
            end: snapshot.end,
        }),
        _ => None,
    }
}

/// The state of the job in a core set.
fn activity_in(set: usize, seat: Seat) -> Activity
    ensures { result ≡ activity_of set seat }
{
    if seat.asleep {
        Activity::Sleeps
    } else if set == 0 {
        Activity::Runs
    } else {
        Activity::Waits
    }
}

/// Notes the job in a core set.
fn put_seat(jobs: &mut ObservedJobs, set: usize, seat: Option<Seat>)
    requires { length jobs.old ≡ 8 }
    ensures length { length jobs.new ≡ 8 }
    ensures each { (n : ℕ) → n < 8 → slice_index_or jobs.new n None
        ≡ option_or (state_here (n + 1) set seat) (slice_index_or jobs.old n None) }
{
    match seat {
        None => {}
        Some(seat) => {
            if seat.number == 0 || seat.number > 8 {
                return;
            }
            let activity = activity_in(set, seat);
            jobs[usize::from(seat.number) - 1] = Some(ObservedJob {
                at: seat.at,
                activity,
            });
        }
    }
}

/// The jobs in the core sets.
pub(crate) fn jobs_in(words: &Erasable) -> ObservedJobs
    requires { IsSized words.now }
    ensures { result ≡ states_in (seats_in words.now) }
{
    let mut jobs: ObservedJobs = [None; MOST];
    for set in 0..words.sets().count() {
        put_seat(&mut jobs, set, job_at(words, set));
    }
    jobs
}
