ghost use Rattle.std.specs.Prelude.{◌≡◌, ℕ, List, length, take, true};
ghost use Rattle.agc_plan.specs.declared.request.Request.{Request};
ghost use Rattle.std.proofs.Props.{props};
ghost use Rattle.agc_latch.specs.Accounts.{IsOf};
ghost use Rattle.agc_desk.specs.Draining.{Attends};
ghost use Rattle.agc_desk.specs.Keeping.{IsLent};
ghost use Rattle.agc_desk.specs.Runs.{Asks, AsksAll, IsFront};

use crate::console::{Console, Gate, drive};
use crate::desk::{Desk, Share};
use crate::drain::Drained;
use crate::names::Sharing;
use agc_latch::Latch;
use agc_machine::Answer;
use agc_plan::Request;
use std::sync::{Mutex, Wait};

/// A desk as it is under the lock. Whenever the lock is free, as many of the desk's shares are
/// given out as may be there, its history begins with the calls that the type names, its taker, if
/// it has one, is of the latch that the type names, and its accounts of lines stay as far as the
/// type says how.
#[derive(Drop)]
pub struct Held<N: Sharing> {
    /// The desk that is asked.
    pub desk: Desk<N>,
    ghost given: { N.may_share desk.given ≡ true },
    ghost begun: { take (length N.begun) desk.history ≡ N.begun },
    ghost latch: { IsOf N.latch desk.lines.taker } by { Prim.hlevel props },
    ghost lent: { IsLent N.lent desk.lines } by { Prim.hlevel props },
}

/// A desk that several threads share, under a lock.
pub type Shared<N> = Mutex<Held<N>>;

/// Asks the machine of the locked desk, with this share: the request and its answer come into the
/// desk's history under its number. A refusal is the answer's result. It may wait for the lock.
pub fn ask<N: Sharing, W: Wait>(
    rt: &W,
    shared: &Shared<N>,
    share: &mut Share<N>,
    request: Request,
) -> Answer
    ensures { Asks N.first share.old request result share.new }
{
    shared.lock(rt).desk.serve(share, request)
}

/// Drains the locked desk, with this share: what devices posted is taken, and what is owed is
/// applied, as [`Desk::drain`] says. The latch is the one that the desk's type names. It may wait
/// for the lock.
pub fn attend<N: Sharing, W: Wait>(
    rt: &W,
    shared: &Shared<N>,
    latch: &Latch,
    share: &mut Share<N>,
) -> Drained
    requires { latch.now ≡ N.latch }
    ensures { Attends N.first N.latch share.old result share.new }
{
    let mut held = shared.lock(rt);
    held.desk.tell_law();
    let drained = held.desk.drain(latch, share);
    held.desk.tell_law();
    drained
}

/// A shared desk with the share of one who asks: a [`Console`].
#[derive(Drop)]
pub struct Caller<'a, N: Sharing> {
    /// The desk that is asked.
    pub shared: &'a Shared<N>,
    /// The share, with all answers so far.
    pub share: Share<N>,
}

impl<N: Sharing> Console for Caller<'_, N> {
    ghost leads = { λ old asked said new. Asks N.first old.share asked said new.share };

    fn ask(&mut self, rt: &impl Wait, request: Request) -> Answer {
        ask(rt, self.shared, &mut self.share, request)
    }
}

/// Asks the requests in order at the shared desk, either all of them or those before a call at
/// which the gate may stop. Returns the share, whose holder has asked exactly these; the gate is
/// given each answer. `worker` is the number that the gate gets. It may wait for the lock, and
/// wherever its gate waits.
pub fn work<N: Sharing, G: Gate, W: Wait>(
    rt: &W,
    shared: &Shared<N>,
    share: Share<N>,
    worker: usize,
    requests: &[Request],
    gate: &G,
) -> Share<N>
    ensures { (asked : List Request)
        × IsFront (λ call answer. G.may_answer gate.now worker call answer) requests.now asked
        × AsksAll N.first (λ call said. G.is_told gate.now worker call said) share asked result }
{
    let mut caller = Caller { shared, share };
    drive(rt, &mut caller, worker, requests, gate);
    let Caller { shared: _, share } = caller;
    share
}
