ghost use Rattle.std.specs.Prelude.{◌<◌, None, length};
ghost use Rattle.agc_latch.specs.Accounts.{IsOf};
ghost use Rattle.agc_desk.specs.Draining.{Drains};
ghost use Rattle.agc_plan.specs.Pulses.{pulse_requests};
ghost use Rattle.agc_desk.specs.Stages.{DrainsLine};

use crate::desk::{Desk, Share};
use crate::names::Names;
use agc_latch::{Latch, Line};
use agc_machine::Refusal;
use agc_plan::pulse_request;

/// The outcome of a drain.
#[derive(Clone, Copy, PartialEq, Eq)]
pub struct Drained {
    /// How many pulses were taken, per line: the timer's, the keyboard's, the radar's.
    pub taken: [u64; 3],
    /// How many were applied, of these and of those that were owed before.
    pub applied: [u64; 3],
    /// Why no more were applied; none where nothing is owed any more.
    pub refused: Option<Refusal>,
}

impl<N: Names> Desk<N> {
    // Asks for what owed pulses of a line ask for, up to the first request that is refused.
    fn ask_owed(&mut self, line: Line, share: &mut Share<N>) -> (u64, Option<Refusal>)
        requires { 0 < length (pulse_requests self.old.machine.plan line) }
        ensures { DrainsLine None self.old.machine.plan line
            self.old share.old result.0 result.1 self.new share.new }
    {
        let owed = self.owed_on(line);
        while let Some(request) = self.next_request(line) {
            let answer = self.ask_for(share, request, Some(line));
            match answer.result() {
                Ok(_reply) => {}
                Err(refusal) => return (owed - self.owed_on(line), Some(refusal)),
            }
        }
        (owed, None)
    }

    // Applies what is owed on a line, up to the first request that is refused; nothing where a
    // request of an earlier line was.
    fn drain_line(
        &mut self,
        line: Line,
        refused: Option<Refusal>,
        share: &mut Share<N>,
    ) -> (u64, Option<Refusal>)
        ensures { DrainsLine refused self.old.machine.plan line
            self.old share.old result.0 result.1 self.new share.new }
    {
        if refused.is_some() {
            return (0, refused);
        }
        if pulse_request(self.machine().plan(), line, 0).is_some() {
            return self.ask_owed(line, share);
        }
        let pulses = self.owed_on(line);
        self.mark_applied(line, pulses);
        (pulses, None)
    }

    /// Takes what devices posted on the timer's, the keyboard's and the radar's line, and adds it
    /// to what is owed; a desk without a taker takes nothing. Then applies what is owed, all of the
    /// timer's pulses first, then the keyboard's, then the radar's. A timer pulse asks for a tick,
    /// a key or radar pulse for the plan's actions, one request after the other; it is applied when
    /// the last is served, and one that asks for nothing is applied by no request. The first
    /// request that is refused ends the drain: the rest stays owed, a pulse of which some requests
    /// were served with what it still asks for. An alarm stops nothing. The requests, the refused
    /// one too, are asked with this share. The latch has to be the taker's.
    pub fn drain(&mut self, latch: &Latch, share: &mut Share<N>) -> Drained
        requires { IsOf latch.now self.old.lines.taker }
        ensures { Drains self.old share.old result self.new share.new }
    {
        let taken = self.collect(latch);
        self.count_drain(share);
        let (timer, refused) = self.drain_line(Line::Timer, None, share);
        let (key, refused) = self.drain_line(Line::Key, refused, share);
        let (radar, refused) = self.drain_line(Line::Radar, refused, share);
        Drained {
            taken,
            applied: [timer, key, radar],
            refused,
        }
    }
}
