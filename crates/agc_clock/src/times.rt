// When an event comes.
ghost use Rattle.std.specs.Prelude.{◌≡◌, ◌<◌, ◌↔◌, IsSome, IfSome};
ghost use Rattle.agc_clock.specs.Alarms.{never, times_after};
ghost use Rattle.agc_clock.specs.Coming.{comes};

use std::marker::Model;

/// The last centisecond of a day, which no timetable goes beyond.
pub const LAST_TIME: u32 = 8_640_000;

/// When an event comes, in centiseconds since the start: at a time, and again each so many
/// centiseconds, up to a last time and at that too.
#[derive(Clone, Copy)]
pub struct Times {
    at: u32,
    every: u32,
    until: u32,
}

impl Model for Times {
    ghost use Rattle.std.specs.Prelude.{◌<◌};
    ghost use Rattle.agc_clock.specs.Coming.{Coming};

    ghost Value = { Coming };

    ghost view = { λ t. record { at = t.at; every = t.every; until = t.until } };

    ghost invariant = { λ t. 0 < t.every };

    ghost inverse = { λ t. record { at = t.at; every = t.every; until = t.until } };
}

impl Times {
    /// At this time alone.
    pub fn once(at: u32) -> Times
        ensures { result ≡ record { at = at; every = 1; until = at } }
    {
        Times {
            at,
            every: 1,
            until: at,
        }
    }

    /// At this time, and again each so many centiseconds, up to `until` and at that too. None where
    /// `every` is 0.
    pub fn repeated(at: u32, every: u32, until: u32) -> Option<Times>
        ensures valid { IsSome result ↔ (0 < every) }
        ensures value { IfSome result (λ t. t
            ≡ record { at = at; every = every; until = until }) }
    {
        if every == 0 {
            None
        } else {
            Some(Times { at, every, until })
        }
    }

    /// At no time.
    fn never() -> Times
        ensures { result ≡ never }
    {
        Times {
            at: 1,
            every: 1,
            until: 0,
        }
    }

    /// These times, as distances from the first alarm of a code, which came at this time: a
    /// distance of 0 counts as 1. At no time where no such alarm came, and at none after a day.
    pub fn after(&self, first: Option<u32>) -> Times
        ensures { result ≡ times_after first self.now }
    {
        let first = match first {
            None => return Times::never(),
            Some(first) => first,
        };
        let at = first.saturating_add(self.at.max(1));
        if at > LAST_TIME {
            return Times::never();
        }
        Times {
            at,
            every: self.every,
            until: first.saturating_add(self.until.max(1)).min(LAST_TIME),
        }
    }

    /// The first time.
    pub fn at(&self) -> u32
        ensures { result ≡ self.now.at }
    {
        self.at
    }

    /// After how many centiseconds it comes again, at least 1; 1 where it comes once.
    pub fn every(&self) -> u32
        ensures value { result ≡ self.now.every }
        ensures some { 0 < result }
    {
        self.every
    }

    /// The last time at which it may come; the first where it comes once.
    pub fn until(&self) -> u32
        ensures { result ≡ self.now.until }
    {
        self.until
    }

    /// Whether it comes at this time.
    pub fn comes(&self, time: u32) -> bool
        ensures { result ≡ comes self.now time }
    {
        self.at <= time && time <= self.until && (time - self.at) % self.every == 0
    }
}
