// The clock.
ghost use Rattle.std.specs.Prelude.{◌≡◌, ◌≤◌, ◌<◌, ◌+◌, ◌*◌, ◌-◌, ◌^◌, ◌==◌, true, false, length};
ghost use Rattle.std.specs.Prelude.{IfSome, None, Some, if◌then◌else◌, slice_get};
ghost use Rattle.agc_exec.specs.Image.{IsLawfulWords, jobs_in};
ghost use Rattle.agc_plan.specs.Jobs.{Jobs};
ghost use Rattle.agc_clock.specs.Clocks.{AsksNext, Clocked, at_start};
ghost use Rattle.agc_clock.specs.Counts.{begun, kept, worker_of};
ghost use Rattle.agc_clock.specs.Elapsing.{Elapses, computes, elapsed_between};
ghost use Rattle.agc_clock.specs.Reading.{AsksOrPasses, first_of};
ghost use Rattle.agc_clock.specs.Timetables.{Schedule};

use crate::asked::{Asked, Source, by_clock};
use crate::counting::{JobCost, is_by_lot, kept, needs, next_lot, share_at, spared, spend, worker};
use crate::elapsed::Elapsed;
use crate::timetable::Timetables;
use agc_exec::named_job;
use agc_plan::Request;
use agc_word::Erasable;
use std::marker::Model;

/// A clock that lets time pass by a timetable: it says what a machine is asked next, counts the
/// computing time that each job was given since it was established or roused, and draws lots. It
/// takes no memory.
#[repr(C)]
#[derive(Clone, Copy)]
pub struct Clock {
    time: u32,
    event: usize,
    asked: usize,
    looks: bool,
    left: u32,
    given: [u32; 8],
    lot: u32,
}

impl Model for Clock {
    ghost use Rattle.std.specs.Prelude.{◌≡◌, length};
    ghost use Rattle.agc_clock.specs.Clocks.{Clocked};

    ghost Value = { Clocked };

    ghost view = { λ c. record {
      time = c.time;
      event = c.event;
      asked = c.asked;
      looks = c.looks;
      left = c.left;
      counts = record { given = c.given; lot = c.lot };
    } };

    ghost invariant = { λ c. length c.given ≡ 8 };

    ghost inverse = { λ c. record {
      time = c.time;
      event = c.event;
      asked = c.asked;
      looks = c.looks;
      left = c.left;
      given = c.counts.given;
      lot = c.counts.lot;
    } };
}

/// The next request of an event at this time.
fn request_of<T: Timetables>(table: &T, event: usize, asked: usize, time: u32) -> Option<Request>
    ensures first { result
        ≡ first_of time asked (slice_get (T.set_down table.now).events event) }
    ensures room { IfSome result (λ _. asked + 1 < 2 ^ 64) }
{
    match table.times(event) {
        None => None,
        Some(times) => {
            if times.comes(time) && asked < table.requests(event) {
                table.request(event, asked)
            } else {
                None
            }
        }
    }
}

impl Clock {
    /// A clock at centisecond 0, which draws lots from this seed on; with seed 0, each lot is 0.
    pub fn new(seed: u32) -> Clock
        ensures { result ≡ at_start seed }
    {
        Clock {
            time: 0,
            event: 0,
            asked: 0,
            looks: false,
            left: 0,
            given: [0; 8],
            lot: seed,
        }
    }

    /// The centisecond that passes, from 1; 0 before the first tick.
    pub fn time(&self) -> u32
        ensures { result ≡ self.now.time }
    {
        self.time
    }

    /// How many hundredths of this centisecond's computing time are left.
    pub fn left(&self) -> u32
        ensures { result ≡ self.now.left }
    {
        self.left
    }

    /// How many hundredths of a centisecond of computing time each job was given since it was
    /// established or roused, by its number from 1; what a lot spared it is counted as given.
    pub fn given(&self) -> &[u32; 8]
        ensures { result.now ≡ self.now.counts.given }
    {
        &self.given
    }

    /// The next request of the events at this time.
    fn next_event<T: Timetables>(&mut self, table: &T) -> Option<Asked>
        ensures stage { (jobs : Jobs)
            → AsksOrPasses (T.set_down table.now) jobs self.old result self.new }
        ensures passed { result ≡ None → length (T.set_down table.now).events ≤ self.new.event }
        ensures time { self.new.time ≡ self.old.time }
        ensures left { self.new.left ≡ self.old.left }
    {
        let mut asked = self.asked;
        for event in self.event..table.events() {
            match request_of(table, event, asked, self.time) {
                None => asked = 0,
                Some(request) => {
                    self.event = event;
                    self.asked = asked + 1;
                    return Some(Asked {
                        request,
                        source: Source::Event(event),
                    });
                }
            }
        }
        self.event = table.events();
        self.asked = 0;
        None
    }

    /// A change of job, if the running job has yet to look at NEWJOB, and NEWJOB names a core set.
    fn look(&mut self, words: &Erasable) -> Option<Asked>
        requires { IsLawfulWords words.now }
        ensures stage { (table : Schedule) → length table.events ≤ self.old.event
            → AsksOrPasses table (jobs_in words.now) self.old result self.new }
        ensures looked { self.new.looks ≡ false }
        ensures events { self.new.event ≡ self.old.event }
        ensures time { self.new.time ≡ self.old.time }
        ensures left { self.new.left ≡ self.old.left }
    {
        let looks = self.looks;
        self.looks = false;
        if looks && named_job(words).is_some() {
            Some(by_clock(Request::Change))
        } else {
            None
        }
    }

    /// A job whose cost is by lot draws it, if it has not begun.
    fn begin(&mut self, worker: &JobCost)
        requires { (1 ≤ worker.now.number) × (worker.now.number ≤ 8) }
        ensures { self.new ≡ record self.old { counts = begun worker.now self.old.counts } }
    {
        let place = usize::from(worker.number) - 1;
        if self.given[place] == 0 && is_by_lot(&worker.cost) {
            self.lot = next_lot(self.lot);
            self.given[place] = spared(&worker.cost, self.lot);
        }
    }

    /// Gives the computing time that is left to a job that has begun, up to the next request.
    fn give(&mut self, worker: &JobCost) -> Option<Asked>
        requires number { (1 ≤ worker.now.number) × (worker.now.number ≤ 8) }
        requires looked { self.old.looks ≡ false }
        requires some { 0 < self.old.left }
        ensures stage { (table : Schedule) (jobs : Jobs) (before : Clocked)
            → length table.events ≤ before.event → worker_of table.costs jobs ≡ Some worker.now
            → self.old ≡ record before { counts = begun worker.now before.counts }
            → AsksOrPasses table jobs before result self.new }
        ensures worked { result ≡ None → self.new.left ≡ 0 }
        ensures looked { self.new.looks ≡ false }
        ensures events { self.new.event ≡ self.old.event }
        ensures time { self.new.time ≡ self.old.time }
        ensures left { self.new.left ≤ self.old.left }
    {
        let place = usize::from(worker.number) - 1;
        let given = self.given[place];
        let needed = needs(&worker.cost);
        let rest = needed.saturating_sub(given).max(1);
        if rest <= self.left {
            let more = given.saturating_sub(needed - 1);
            let spent = spend(&worker.cost, more);
            self.left -= rest;
            self.given[place] = spent.counted;
            Some(by_clock(spent.request))
        } else {
            self.given[place] = given + self.left;
            self.left = 0;
            None
        }
    }

    /// Gives the running job what is left of the computing time, until its cost is used up. What no
    /// job computes stays left.
    fn work<T: Timetables>(&mut self, words: &Erasable, table: &T) -> Option<Asked>
        requires lawful { IsLawfulWords words.now }
        requires passed { length (T.set_down table.now).events ≤ self.old.event }
        requires looked { self.old.looks ≡ false }
        ensures stage { AsksOrPasses (T.set_down table.now) (jobs_in words.now) self.old result
            self.new }
        ensures worked { computes (T.set_down table.now) (jobs_in words.now) ≡ true
            → result ≡ None → self.new.left ≡ 0 }
        ensures nobody { computes (T.set_down table.now) (jobs_in words.now) ≡ false
            → (result ≡ None) × (self.new.left ≡ self.old.left) }
        ensures looked { self.new.looks ≡ false }
        ensures events { self.new.event ≡ self.old.event }
        ensures time { self.new.time ≡ self.old.time }
        ensures left { self.new.left ≤ self.old.left }
    {
        let worker = match worker(table, words) {
            Some(worker) => worker,
            None => return None,
        };
        if self.left == 0 {
            return None;
        }
        self.begin(&worker);
        self.give(&worker)
    }

    /// The next centisecond's tick, if there is one, and how much of that centisecond is stolen.
    /// What is left of the one before passes, without a job that computes.
    fn tick<T: Timetables>(&mut self, table: &T) -> (Option<Asked>, u32)
        requires passed { length (T.set_down table.now).events ≤ self.old.event }
        requires looked { self.old.looks ≡ false }
        ensures next { (jobs : Jobs)
            → (0 < self.old.left → worker_of (T.set_down table.now).costs jobs ≡ None)
            → AsksNext (T.set_down table.now) jobs self.old result.0 self.new }
        ensures stolen { result.1
            ≡ (if self.old.time == self.new.time then 0 else 100 - self.new.left) }
        ensures time { (100 * self.old.time + self.new.left) + result.1 ≡ 100 * self.new.time }
    {
        self.left = 0;
        if self.time >= table.lasts() {
            return (None, 0);
        }
        self.time += 1;
        self.event = 0;
        self.asked = 0;
        self.looks = true;
        self.left = share_at(table, self.time);
        (Some(by_clock(Request::Tick)), 100 - self.left)
    }

    /// The next request, and who asks for it, with these words of the machine, which were not
    /// changed since the last [`served`](Clock::served) was told of them; None when the time is
    /// over. Each centisecond: a tick; the events of its time; where NEWJOB names a set, a change
    /// of job; then what the running job does, each time its cost is used up. With it comes the
    /// time that passed since the request before.
    pub fn next<T: Timetables>(&mut self, words: &Erasable, table: &T) -> (Option<Asked>, Elapsed)
        requires { IsLawfulWords words.now }
        ensures next { AsksNext (T.set_down table.now) (jobs_in words.now) self.old result.0
            self.new }
        ensures elapsed { result.1
            ≡ elapsed_between (computes (T.set_down table.now) (jobs_in words.now)) self.old
            self.new }
        ensures all_elapsed { Elapses self.old result.1 self.new }
    {
        let asked = self.next_event(table);
        if asked.is_some() {
            return (asked, Elapsed::none());
        }
        let asked = self.look(words);
        if asked.is_some() {
            return (asked, Elapsed::none());
        }
        let left = self.left();
        let asked = self.work(words, table);
        let idle = self.left();
        if asked.is_some() {
            return (
                asked,
                Elapsed {
                    computed: left - idle,
                    stolen: 0,
                    idle: 0,
                },
            );
        }
        let (asked, stolen) = self.tick(table);
        (
            asked,
            Elapsed {
                computed: left - idle,
                stolen,
                idle,
            },
        )
    }

    /// Takes the outcome of a request: the machine's words after it, and whether an era began with
    /// it, as with every alarm, restart and fresh start. The time of a job that ended or that
    /// sleeps, and with a new era that of every job, is counted from 0 again. Call it after each
    /// request, including those of other callers. A request that was refused changes nothing, so it
    /// need not be reported.
    pub fn served(&mut self, words: &Erasable, began: bool)
        requires { IsLawfulWords words.now }
        ensures { self.new ≡ record self.old {
          counts = kept began (jobs_in words.now) self.old.counts;
        } }
    {
        self.given = kept(words, began, &self.given);
    }
}
