ghost use Rattle.std.specs.Prelude.{◌≡◌, ◌+◌, ◌<◌, ◌^◌};
ghost use Rattle.agc_machine.specs.Told.{nothing, add, reply_told};

use agc_plan::Alarm;

/// Counts of served requests: a machine's since it was made, or those whose answers the holder of a
/// share was told; each at most the allowance.
#[derive(Clone, Copy, PartialEq, Eq)]
pub struct Totals {
    /// All requests that were served. Refused ones are not counted.
    pub served: u64,
    /// Requests that raised alarm 1201, no VAC area was free, by themselves or inside a tick.
    pub a1201: u64,
    /// Requests that raised alarm 1202, no core set was free, by themselves or inside a tick.
    pub a1202: u64,
    /// Requests that raised alarm 1203, the Waitlist was full.
    pub a1203: u64,
    /// Requests with which an era began: an alarm, a restart or a fresh start.
    pub restarts: u64,
}

impl Totals {
    ghost use Rattle.std.specs.Option.{option_map_or};
    ghost use Rattle.agc_plan.specs.declared.reply.Reply.TheVariants.{NoJob, Restarted};
    ghost use Rattle.agc_machine.specs.Told.{alarm_told};

    /// All 0.
    pub(crate) fn zero() -> Totals
        ensures { result ≡ nothing }
    {
        Totals {
            served: 0,
            a1201: 0,
            a1202: 0,
            a1203: 0,
            restarts: 0,
        }
    }

    /// One more request was served, and an era began with it, after this alarm, if one was raised.
    /// It is rare, and stands apart so that other requests don't pay for it.
    #[inline(never)]
    pub(crate) fn count_era(&mut self, alarm: Option<Alarm>)
        requires { (self.old.served + 1 < 2 ^ 64) × (self.old.a1201 + 1 < 2 ^ 64)
            × (self.old.a1202 + 1 < 2 ^ 64) × (self.old.a1203 + 1 < 2 ^ 64)
            × (self.old.restarts + 1 < 2 ^ 64) }
        ensures { self.new ≡ add self.old
            (option_map_or alarm_told alarm (reply_told Restarted)) }
    {
        self.served += 1;
        self.restarts += 1;
        match alarm {
            Some(Alarm::A1201) => self.a1201 += 1,
            Some(Alarm::A1202) => self.a1202 += 1,
            Some(Alarm::A1203) => self.a1203 += 1,
            None => {}
        }
    }

    /// One more request was served, with no alarm, and no era began.
    pub(crate) fn count_served(&mut self)
        requires { self.old.served + 1 < 2 ^ 64 }
        ensures { self.new ≡ add self.old (reply_told NoJob) }
    {
        self.served += 1;
    }
}
