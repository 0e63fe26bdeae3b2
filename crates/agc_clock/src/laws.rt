//! Laws of time that passes: each is the contract of a function that does nothing. They hold for a
//! machine in any state, and for any timetable.
ghost use Rattle.std.specs.Prelude.{◌≡◌, ◌<◌, ◌≤◌, ℕ, ◌+◌, ◌-◌, nat_le, nat_lt, ◌&&◌, List, map};
ghost use Rattle.std.specs.Prelude.{Option, Some, None, length, replicate};
ghost use Rattle.agc_machine.specs.Machines.{Machined, after_all};
ghost use Rattle.agc_plan.specs.Jobs.{Jobs};
ghost use Rattle.agc_plan.specs.declared.reply.Alarm.{Alarm};
ghost use Rattle.agc_clock.specs.declared.alarms.Alarms.{Alarms};
ghost use Rattle.agc_clock.specs.declared.counting.JobCost.{JobCost};
ghost use Rattle.agc_clock.specs.declared.times.TheConstants.{LAST_TIME};
ghost use Rattle.agc_clock.specs.declared.timetable.Cost.{Cost};
ghost use Rattle.agc_clock.specs.declared.timetable.Stolen.{Stolen};
ghost use Rattle.agc_clock.specs.Alarms.{came, first_came, times_after};
ghost use Rattle.agc_clock.specs.Clocks.{next_of};
ghost use Rattle.agc_clock.specs.Coming.{Coming, comes};
ghost use Rattle.agc_clock.specs.Counts.{Counts, begun, given_to};
ghost use Rattle.agc_clock.specs.Instants.{Instant, Works, by_clock, centisecond};
ghost use Rattle.agc_clock.specs.Laws.{Begins, LeavesByItsCost, comes_at, drawn, hundredths_given};
ghost use Rattle.agc_clock.specs.Laws.{hundredths_left, own_ticks};
ghost use Rattle.agc_clock.specs.Runs.{Standing, by_machine, lived_all, run};
ghost use Rattle.agc_clock.specs.Runs.{scenario_requests, standing_at};
ghost use Rattle.agc_clock.specs.Timetables.{Schedule, asked_of, holds, needs, next_lot, step_at};
ghost use Rattle.agc_clock.specs.Timetables.{stolen_at};

/// The run of a scenario is the machine's run over exactly the requests that the scenario asks for.
pub fn a_run_is_that_of_its_requests()
    ensures { (table : Schedule) (seed : ℕ) (m : Machined) → (run by_machine table seed m).state
        ≡ after_all m
        (map (λ asked. asked.request) (scenario_requests by_machine table seed m)) }
{}

/// The clock asks for as many ticks as there are centiseconds.
pub fn a_run_has_a_tick_each_centisecond()
    ensures { (table : Schedule) (seed : ℕ) (m : Machined)
        → own_ticks (scenario_requests by_machine table seed m) ≡ table.lasts }
{}

/// Each hundredth of a centisecond that isn't stolen is given exactly once, to the running job, or
/// no job with a cost is running at it.
pub fn each_hundredth_is_given_once()
    ensures { (table : Schedule) (time : ℕ) (at : Standing Machined)
        → hundredths_given by_machine table.costs at (centisecond table time)
        + hundredths_left by_machine table.costs at (centisecond table time)
        ≡ 100 - stolen_at table.stolen time }
{}

/// A row of stolen time that comes again holds as long each time as the first time, and comes each
/// time that is at most its last.
pub fn stolen_time_comes_again()
    ensures { (row : Stolen) (times after : ℕ) → after < row.every
        → holds row (comes_at row times + after)
        ≡ (nat_lt after (row.to - row.from) && nat_le (comes_at row times) row.until) }
{}

/// If a job is asked to end, or to sleep, because its cost is used up, the computing time that it
/// was given, and what a lot spared it, is exactly what it needs, and a hundredth more for each
/// step before: at each hundredth, whatever came before.
pub fn a_job_leaves_when_its_cost_is_used_up()
    ensures { (costs : List Cost) (seed : ℕ) (m : Machined) (before : List Instant)
        → (at : Standing Machined) → at ≡ lived_all by_machine costs (standing_at seed m) before
        → LeavesByItsCost costs (by_machine.jobs at.state) at.counts }
{}

/// A job that begins to compute is asked for its first request with the hundredth that uses up what
/// was drawn for it, and with none before.
pub fn a_job_computes_as_long_as_is_drawn()
    ensures asked { (costs : List Cost) (jobs : Jobs) (worker : JobCost) (counts : Counts)
        → Begins costs jobs worker counts
        → (next_of costs jobs (replicate (drawn worker.cost (next_lot counts.lot)) Works)
        counts).asked
        ≡ Some (by_clock (asked_of (step_at worker.cost 0) worker.cost.then)) }
    ensures before { (costs : List Cost) (jobs : Jobs) (worker : JobCost) (counts : Counts)
        → Begins costs jobs worker counts
        → (next_of costs jobs (replicate (drawn worker.cost (next_lot counts.lot) - 1) Works)
        counts).asked
        ≡ None }
{}

/// The draw of a job is at least 1, at most its need, and less by no more than its spread.
pub fn a_lot_is_drawn_between()
    ensures some { (cost : Cost) (lot : ℕ) → 1 ≤ drawn cost lot }
    ensures most { (cost : Cost) (lot : ℕ) → drawn cost lot ≤ needs cost }
    ensures least { (cost : Cost) (lot : ℕ) → needs cost ≤ drawn cost lot + cost.spread }
{}

/// A job draws no lot if its cost isn't by lot, or if it has begun.
pub fn who_has_begun_draws_nothing()
    ensures plain { (worker : JobCost) (counts : Counts) → worker.cost.spread ≡ 0
        → begun worker counts ≡ counts }
    ensures once { (worker : JobCost) (counts : Counts) → 1 ≤ given_to worker.number counts
        → begun worker counts ≡ counts }
{}

/// An alarm moves none of the events that count from it up to its own centisecond, and in that one
/// neither: what they ask for comes later.
pub fn an_alarm_moves_nothing_that_came()
    ensures { (times : Coming) (code : Alarm) (alarm : Option Alarm) (alarms : Alarms)
        → (now time : ℕ) → time ≤ now
        → comes (times_after (first_came code (came alarm now alarms)) times) time
        ≡ comes (times_after (first_came code alarms) times) time }
{}

/// An event that counts from an alarm comes so long after the first of its code as another comes
/// after the start.
pub fn an_event_comes_as_long_after_an_alarm()
    ensures { (times : Coming) (first after : ℕ) → 1 ≤ times.at → 1 ≤ times.until
        → first + times.at ≤ LAST_TIME → first + times.until ≤ LAST_TIME
        → comes (times_after (Some first) times) (first + after) ≡ comes times after }
{}
