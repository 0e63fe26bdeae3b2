//! Laws of a machine's texts: each is the contract of a function that does nothing.

ghost use Rattle.std.specs.Prelude.{◌≡◌, ℕ, List};
ghost use Rattle.agc_plan.specs.declared.request.Request.{Request};
ghost use Rattle.agc_machine.specs.Image.{HandsOut};
ghost use Rattle.agc_machine.specs.Machines.{Machined};
ghost use Rattle.agc_text.specs.Report.{report_text};
ghost use Rattle.agc_session.specs.Session.{IsSession};

/// A machine has just one report, whatever words of it are handed out. Words may differ only in a
/// free core set, of which the report shows that it is free.
pub fn machine_has_one_report()
    ensures { (m : Machined) (these those : List ℕ) → HandsOut m these → HandsOut m those
        → report_text m.plan.sets these m.totals ≡ report_text m.plan.sets those m.totals }
{}

/// A session has just one text.
pub fn session_has_one_text()
    ensures { (machine : Machined) (requests : List Request) (these those : List ℕ)
        → IsSession machine requests these → IsSession machine requests those → these ≡ those }
{}
