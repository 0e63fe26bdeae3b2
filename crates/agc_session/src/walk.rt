// A walk over a bench or a script that is pulled, piece by piece.
ghost use Rattle.std.specs.Prelude.{◌≡◌, ◌≤◌, ◌∷◌, length, true, false, IfSome};
ghost use Rattle.std.specs.List.{flat_map};
ghost use Rattle.agc_session.specs.Pieces.{Advances, Takes, asks_in, bench_pieces, is_in_time};
ghost use Rattle.agc_session.specs.Pieces.{pulse_piece, rest, script_piece, to_come};

use crate::following::pulse_asks;
use crate::source::{PendingRequest, Source};
use agc_document::Bench;
use agc_plan::{Action, Line, Request};
use std::marker::Model;

/// A walk over a bench or a script: it is at requests of one source, of which some were taken.
/// Contracts see the pieces that are still to come.
#[derive(Drop)]
pub struct Walk<'a> {
    script: &'a [Request],
    workers: &'a [Vec<Request>],
    devices: &'a [(Line, u32)],
    key: &'a [Action],
    radar: &'a [Action],
    lent: &'a [Request],
    pulse: [Request; 4],
    count: usize,
    at: usize,
    source: Source,
    left: u32,
    begun: bool,
    worker: usize,
    device: usize,
}

impl<'a> Model for Walk<'a> {
    ghost use Rattle.std.specs.Prelude.{◌≡◌, ◌≤◌, false, length, map, take};
    ghost use Rattle.agc_session.specs.Pieces.{Walked, is_in_time, requests_here};

    ghost Value = { Walked };

    ghost view = { λ w. record {
      script = w.script.now;
      workers = map (λ requests. requests.items) w.workers.now;
      devices = w.devices.now;
      key = w.key.now;
      radar = w.radar.now;
      here = record {
        source = w.source;
        requests = requests_here w.source w.lent.now (take w.count w.pulse);
      };
      at = w.at;
      left = w.left;
      begun = w.begun;
      worker = w.worker;
      device = w.device;
    } };

    ghost invariant = { λ w. (w.count ≤ 4) × (length w.pulse ≡ 4) × (length w.key.now ≤ 4)
        × (length w.radar.now ≤ 4) × (is_in_time w.source ≡ false) };
}

impl<'a> Walk<'a> {
    /// A walk over a bench, before the first piece.
    pub fn new(bench: &'a Bench) -> Walk<'a>
        ensures pieces { to_come result ≡ bench_pieces bench.now }
        ensures all { rest result ≡ flat_map asks_in (bench_pieces bench.now) }
    {
        Walk {
            script: bench.script(),
            workers: bench.workers(),
            devices: bench.devices(),
            key: bench.key().as_slice(),
            radar: bench.radar().as_slice(),
            lent: &[],
            pulse: [Request::Tick; 4],
            count: 0,
            at: 0,
            source: Source::Script,
            left: 0,
            begun: false,
            worker: 0,
            device: 0,
        }
    }

    /// A walk over a script, before the first piece.
    pub fn of_script(script: &'a [Request]) -> Walk<'a>
        ensures { rest result ≡ asks_in (script_piece script.now) }
    {
        Walk {
            script,
            workers: &[],
            devices: &[],
            key: &[],
            radar: &[],
            lent: &[],
            pulse: [Request::Tick; 4],
            count: 0,
            at: 0,
            source: Source::Script,
            left: 0,
            begun: false,
            worker: 0,
            device: 0,
        }
    }

    /// The source of the requests at which it is.
    pub fn source(&self) -> Source
        ensures { result ≡ self.now.here.source }
    {
        self.source
    }

    /// The requests at which it is.
    pub fn requests(&self) -> &[Request]
        ensures { result.now ≡ self.now.here.requests }
    {
        match self.source {
            Source::Pulse(_line) => &self.pulse[..self.count],
            Source::Script => self.lent,
            Source::Worker(_number) => self.lent,
            Source::Clock => self.lent,
            Source::Event(_number) => self.lent,
        }
    }

    /// Goes on to the requests of the next worker.
    fn next_worker(&mut self) -> bool
        requires left { self.old.left ≡ 0 }
        requires begun { self.old.begun ≡ true }
        ensures some { result ≡ true → to_come self.old ≡ self.new.here ∷ to_come self.new }
        ensures none { result ≡ false
            → (self.new ≡ self.old) × (length self.old.workers ≤ self.old.worker) }
    {
        let workers = self.workers;
        if self.worker < workers.len() {
            self.lent = workers[self.worker].as_slice();
            self.worker += 1;
            self.source = Source::Worker(self.worker as u64);
            true
        } else {
            false
        }
    }

    /// Goes to the first of `left` pulses of a line.
    fn stand(&mut self, line: Line, left: u32)
        ensures { self.new ≡ record self.old {
          here = pulse_piece self.old.key self.old.radar line;
          left = left;
        } }
    {
        let (requests, count) = pulse_asks(self.key, self.radar, line);
        self.pulse = requests;
        self.count = count;
        self.source = Source::Pulse(line);
        self.left = left;
    }

    /// Goes on to the next device's first pulse.
    fn next_device(&mut self) -> bool
        requires left { self.old.left ≡ 0 }
        requires begun { self.old.begun ≡ true }
        requires walked { length self.old.workers ≤ self.old.worker }
        ensures { Advances self.old result self.new }
    {
        let devices = self.devices;
        while self.device < devices.len() {
            let (line, pulses) = devices[self.device];
            self.device += 1;
            if pulses > 0 {
                self.stand(line, pulses - 1);
                return true;
            }
        }
        false
    }

    /// Goes on to the next piece. Returns whether there was one.
    #[inline]
    pub fn advance(&mut self) -> bool
        ensures { Advances self.old result self.new }
    {
        if self.left > 0 {
            self.left -= 1;
            return true;
        }
        if !self.begun {
            self.begun = true;
            self.source = Source::Script;
            self.lent = self.script;
            return true;
        }
        if self.next_worker() {
            return true;
        }
        self.next_device()
    }

    /// The next request and its source, piece by piece. None once all were taken.
    pub fn next(&mut self) -> Option<PendingRequest>
        ensures next { Takes self.old result self.new }
        ensures untimed { IfSome result (λ pending. is_in_time pending.source ≡ false) }
    {
        while self.at >= self.requests().len() {
            if !self.advance() {
                self.at = self.requests().len();
                return None;
            }
            self.at = 0;
        }
        let (at, source) = (self.at, self.source);
        let request = self.requests()[at];
        self.at = at + 1;
        Some(PendingRequest { source, request })
    }
}
