ghost use Rattle.std.specs.Prelude.{◌≡◌, ◌+◌, ◌<◌, ◌≤◌, ◌^◌, ◌↔◌, ◌⊎◌, All, None, IfErr, IfNone};
ghost use Rattle.std.specs.Prelude.{IfOk, IfSome, IsNone, IsOk, OnErr, OnOk};
ghost use Rattle.agc_latch.specs.Accounts.{AreAll, Applies, Begins, Collects, Gives, Settles};
ghost use Rattle.agc_latch.specs.Accounts.{IsKept, IsOf, given_of, no_accounts, with_taker};
ghost use Rattle.agc_latch.specs.Ends.{new_device};
ghost use Rattle.agc_latch.specs.Lines.{on};
ghost use Rattle.agc_plan.specs.declared.line.Line.{Line};

use crate::device::Device;
use crate::latch::Latch;
use crate::taker::{AttachedTaker, Taker};
use agc_plan::Line;
use std::marker::Model;

/// How many devices are given out at most.
const DEVICES: u32 = 64;

// The sums, line by line.
fn sums(some: [u64; 3], more: [u64; 3]) -> [u64; 3]
    requires { (line : Line) → on line some + on line more < 2 ^ 64 }
    ensures { (line : Line) → on line result ≡ on line some + on line more }
{
    [some[0] + more[0], some[1] + more[1], some[2] + more[2]]
}

/// The accounts of lines: the taker of a latch, if one is attached, how many devices were given out
/// in all, and per line the pulses that are applied, that are owed, and that were posted on the
/// latches that were settled; and how far the first one is begun that is owed.
///
/// Of all accounts it holds that on each line what is applied and what is owed are the pulses of
/// settled latches and those that the taker took, and that none is begun where none is owed.
#[derive(Drop)]
pub struct Accounts {
    taker: Option<AttachedTaker>,
    devices: u32,
    applied: [u64; 3],
    owed: [u64; 3],
    begun: [u64; 3],
    settled: [u64; 3],
}

impl Model for Accounts {
    ghost use Rattle.agc_latch.specs.Accounts.{LineAccounts, IsKept};

    ghost Value = { LineAccounts };

    ghost view = { λ a. record {
      taker = a.taker;
      devices = a.devices;
      applied = a.applied;
      owed = a.owed;
      begun = a.begun;
      settled = a.settled;
    } };

    ghost invariant = { λ a. IsKept record {
      taker = a.taker;
      devices = a.devices;
      applied = a.applied;
      owed = a.owed;
      begun = a.begun;
      settled = a.settled;
    } };
}

impl Accounts {
    /// Accounts without a taker, under which no device was given out, and on which no pulse is.
    pub fn new() -> Accounts
        ensures { result ≡ no_accounts }
    {
        Accounts {
            taker: None,
            devices: 0,
            applied: [0; 3],
            owed: [0; 3],
            begun: [0; 3],
            settled: [0; 3],
        }
    }

    /// Attaches a taker; where there is one already, the new one is handed back and nothing
    /// changes.
    pub fn attach(&mut self, taker: Taker) -> Option<Taker>
        ensures none { IsNone result ↔ (self.old.taker ≡ None) }
        ensures attached { IfNone result (self.new ≡ with_taker taker self.old) }
        ensures back { IfSome result (λ t. (t ≡ taker) × (self.new ≡ self.old)) }
    {
        if self.taker.is_some() {
            return Some(taker);
        }
        self.taker = Some(taker.into_attached());
        None
    }

    /// A new device of the taker's latch, which may post so many pulses; none where there is no
    /// taker, or where 64 devices were given out.
    pub fn device(&mut self, latch: &Latch, posts: u32) -> Option<Device>
        requires { IsOf latch.now self.old.taker }
        ensures none { IsNone result ↔ ((self.old.taker ≡ None) ⊎ (self.old.devices ≡ 64)) }
        ensures device { IfSome result (λ d. d ≡ new_device latch.now posts) }
        ensures given { IfSome result (λ _. Gives self.old self.new) }
        ensures same { IfNone result (self.new ≡ self.old) }
    {
        if self.devices == DEVICES {
            return None;
        }
        let Some(taker) = &mut self.taker else {
            return None;
        };
        let device = taker.device(latch, posts);
        self.devices += 1;
        Some(device)
    }

    /// Takes what was posted, each line once, and answers how many pulses per line: the timer's,
    /// the keyboard's, the radar's, which are taken in this order (the latch's rule,
    /// [`steps_keep_the_rule`](crate::laws::steps_keep_the_rule)). They are owed from now on.
    /// Without a taker it takes nothing; one that there is has to be the latch's.
    pub fn collect(&mut self, latch: &Latch) -> [u64; 3]
        requires { IsOf latch.now self.old.taker }
        ensures { Collects result self.old self.new }
    {
        let Some(taker) = &mut self.taker else {
            return [0; 3];
        };
        let found = taker.take_each(latch);
        self.owed = sums(self.owed, found);
        found
    }

    /// How many pulses of a line are owed.
    pub fn owed_on(&self, line: Line) -> u64
        ensures { result ≡ on line self.now.owed }
    {
        self.owed[line.word()]
    }

    /// Applies this many pulses of a line that were owed; the next one isn't begun.
    pub fn apply(&mut self, line: Line, pulses: u64)
        requires { pulses ≤ on line self.old.owed }
        ensures applies { Applies line pulses self.old self.new }
        ensures begun { on line self.new.begun ≡ 0 }
    {
        let word = line.word();
        self.owed[word] -= pulses;
        self.applied[word] += pulses;
        self.begun[word] = 0;
    }

    /// How many of the requests for which the first owed pulse of a line asks were served, 0 to 3.
    pub fn begun_on(&self, line: Line) -> u64
        ensures value { result ≡ on line self.now.begun }
        ensures range { result < 4 }
    {
        self.begun[line.word()]
    }

    /// One more of these requests was served, and the pulse, which has to be owed, still asks for
    /// others: so fewer than three were served before.
    pub fn begin(&mut self, line: Line)
        requires owed { 1 ≤ on line self.old.owed }
        requires few { on line self.old.begun < 3 }
        ensures { Begins line self.old self.new }
    {
        let word = line.word();
        self.begun[word] += 1;
    }

    /// The pulses that were applied, per line: the timer's, the keyboard's, the radar's.
    pub fn applied(&self) -> [u64; 3]
        ensures applied { result ≡ self.now.applied }
        ensures kept { IsKept self.now }
    {
        self.applied
    }

    /// The pulses that were taken and not yet applied, per line.
    pub fn owed(&self) -> [u64; 3]
        ensures owed { result ≡ self.now.owed }
        ensures kept { IsKept self.now }
    {
        self.owed
    }

    // How many devices were given out under the taker.
    fn given(&self) -> u32
        ensures { result ≡ given_of self.now.taker }
    {
        match &self.taker {
            Some(taker) => taker.given(),
            None => 0,
        }
    }

    /// Settles the latch: takes the devices back, takes each line once more into what is owed, and
    /// closes the latch. The accounts have no taker then. The taker and the devices have to be the
    /// latch's.
    ///
    /// # Errors
    ///
    /// `Unjoined` exactly where there is no taker or not as many devices come as were given out
    /// under it; then nothing changes, and latch and devices come back as they were.
    pub fn settle(&mut self, latch: Latch, devices: Vec<Device>) -> Result<Settled, Unjoined>
        requires taker { IsOf latch self.old.taker }
        requires devices { All (λ d. d.latch ≡ latch) devices.items }
        ensures ok { IsOk result ↔ AreAll devices.items self.old.taker }
        ensures accounts { OnOk result (Settles devices.items self.old self.new) }
        ensures posted { IfOk result (λ s. s.posted ≡ self.new.settled) }
        ensures applied { IfOk result (λ s. s.applied ≡ self.new.applied) }
        ensures owed { IfOk result (λ s. s.owed ≡ self.new.owed) }
        ensures same { OnErr result (self.new ≡ self.old) }
        ensures back { IfErr result (λ u. (u.latch ≡ latch) × (u.devices ≡ devices)) }
    {
        if devices.len() != self.given() as usize {
            return Err(Unjoined { latch, devices });
        }
        let Some(taker) = self.taker.take() else {
            return Err(Unjoined { latch, devices });
        };
        let last = taker.end(latch, devices);
        self.owed = sums(self.owed, last);
        self.settled = sums(self.applied, self.owed);
        Ok(Settled {
            posted: self.settled,
            applied: self.applied,
            owed: self.owed,
        })
    }
}

/// The accounts of all latches that were settled: per line, the pulses that were posted, applied
/// and are owed.
#[derive(Clone, Copy)]
pub struct Settled {
    /// How many were posted.
    pub posted: [u64; 3],
    /// How many of these were applied.
    pub applied: [u64; 3],
    /// How many are still owed.
    pub owed: [u64; 3],
}

/// The parts that [`Accounts::settle`] hands back if it refuses: there is no taker, or not as many
/// devices came as were given out under it.
#[derive(Drop)]
pub struct Unjoined {
    /// The latch as it was.
    pub latch: Latch,
    /// The devices as they were, in their order.
    pub devices: Vec<Device>,
}
