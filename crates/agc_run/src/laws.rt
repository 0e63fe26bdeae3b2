//! A law of running scenarios: the contract of a function that does nothing.
ghost use Rattle.std.specs.Prelude.{◌≡◌, None, map};
ghost use Rattle.std.specs.List.{AllByRecursion};
ghost use Rattle.agc_clock.specs.Alarms.{none_came};
ghost use Rattle.agc_clock.specs.Runs.{by_machine, scenario_requests};
ghost use Rattle.agc_machine.specs.Machines.{Machined};
ghost use Rattle.agc_scenario.specs.Scenarios.{Timed, schedule_of, seed_of};
ghost use Rattle.agc_run.specs.Runs.{clock_asks, in_time};

/// If no event of a scenario counts from an alarm, its run is the clock's run of one timetable.
pub fn without_alarms_there_is_one_timetable()
    ensures { (timed : Timed) (m : Machined)
        → AllByRecursion (λ e. e.base.alarm ≡ None) timed.events → clock_asks timed m
        ≡ map in_time
        (scenario_requests by_machine (schedule_of timed none_came) (seed_of timed) m) }
{}
