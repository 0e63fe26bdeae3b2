//! Laws of every trace, whatever the run.

ghost use Rattle.std.specs.Prelude.{◌≡◌, Some};
ghost use Rattle.agc_plan.specs.declared.request.Request.{Request};
ghost use Rattle.agc_machine.specs.Machines.{after, plain_of, places_of};
ghost use Rattle.agc_run.specs.Events.{Watching, event_of, scene_now};
ghost use Rattle.agc_trace.specs.declared.brief.Quiet.{Quiet};
ghost use Rattle.agc_trace.specs.Brief.{later_by, quiet_of, time_of};

/// After a request that is quiet, which a trace in brief counts, nothing has changed but the time,
/// and that by one centisecond if it is a tick: the same jobs live, run and sleep, each in its core
/// set, with its priority and its area, the same tasks are due when they were, and the phases and
/// the codes stay.
pub fn quiet_request_changes_the_time_alone()
    ensures state { (w : Watching) (asked : Request) (quiet : Quiet)
        → quiet_of (scene_now w.machine) (event_of w asked) ≡ Some quiet
        → plain_of (after w.machine asked) ≡ later_by (time_of quiet) (plain_of w.machine) }
    ensures core_sets { (w : Watching) (asked : Request) (quiet : Quiet)
        → quiet_of (scene_now w.machine) (event_of w asked) ≡ Some quiet
        → places_of (after w.machine asked) ≡ places_of w.machine }
{}
