// A run that is watched: events are pulled from it.
ghost use Rattle.std.specs.Prelude.{◌≡◌, ◌&&◌, true, if◌then◌else◌, Some, None, IfOk};
ghost use Rattle.std.specs.Prelude.{option_map};
ghost use Rattle.std.specs.Result.{is_ok};
ghost use Rattle.agc_machine.specs.Image.{AreLawful};
ghost use Rattle.agc_machine.specs.Machines.{Machined, after, starts_over};
ghost use Rattle.agc_plan.specs.declared.request.Request.{Request};
ghost use Rattle.agc_plan.specs.Steps.{begins, is_tick};
ghost use Rattle.agc_run.specs.Events.{event_of, jobs_begun, one_more_if, scene_at};
ghost use Rattle.agc_run.specs.Events.{scene_now, tasks_begun, watched, watching_from};
ghost use Rattle.agc_run.specs.Events.{watching_on};
ghost use Rattle.agc_run.specs.Reading.{IsServed};
ghost use Rattle.agc_run.specs.Runs.{Comes, asks_after};

use crate::event::{Event, begins_with};
use crate::listings::{Listings, left_by, listings_after};
use crate::origins::{Origins, Since, origins_after};
use crate::run::Run;
use crate::scene::{Scene, scene_of};
use agc_clock::Clock;
use agc_machine::{Machine, Refusal, starts_over};
use agc_plan::{Fired, Reply, Request};
use agc_session::{PendingRequest, Source};
use std::marker::Model;

/// A run that is watched: the number of requests, the ticks that were served since the era began
/// and since the start, and the request since which each job and each task is there.
#[derive(Drop)]
pub struct ObservedRun<'a> {
    run: Run<'a>,
    asked: u64,
    time: u64,
    total: u64,
    jobs: Origins,
    tasks: Listings,
}

impl<'a> Model for ObservedRun<'a> {
    ghost use Rattle.agc_run.specs.Runs.{WatchingRun};

    ghost Value = { WatchingRun };

    ghost view = { λ r. record {
      watching = record {
        machine = r.run.machine;
        asked = r.asked;
        time = r.time;
        total = r.total;
        jobs = r.jobs;
        tasks = r.tasks;
      };
      pending = r.run.pending;
    } };
}

/// One more, if the condition holds.
fn one_more_if(is: bool, count: u64) -> u64
    ensures { result ≡ one_more_if is count }
{
    if is { count.saturating_add(1) } else { count }
}

/// Whether the request is a tick, and was served.
fn is_ticked(request: &Request, answer: &Result<Reply, Refusal>) -> bool
    ensures { result ≡ (is_tick request.now && is_ok answer.now) }
{
    request.is_tick() && answer.is_ok()
}

/// The scene of a machine.
fn scene_now(machine: &Machine) -> Scene
    ensures { result ≡ scene_now machine.now }
{
    scene_of(machine.erasable())
}

/// The scene of a machine, if it is wanted.
fn scene_if(is: bool, machine: &Machine) -> Option<Scene>
    ensures { result ≡ (if is then Some (scene_now machine.now) else None) }
{
    if is { Some(scene_now(machine)) } else { None }
}

/// The scene in which a run's last request was answered: the one before it, if that is to be shown,
/// or else that of the words as the request left them.
fn scene_shown(before: Option<Scene>, run: &Run<'_>, answer: &Result<Reply, Refusal>) -> Scene
    requires { IfOk answer.now
        (λ reply. begins reply ≡ true → AreLawful run.now.snapshot.words) }
    ensures { (m : Machined) (asked : Request) → before
        ≡ (if starts_over asked then Some (scene_now m) else None)
        → IsServed m asked run.now.machine answer.now run.now.snapshot
        → result ≡ scene_at m asked }
{
    match before {
        Some(scene) => scene,
        None => scene_of(run.words_left(answer)),
    }
}

/// The same tasks.
fn copy_of(fired: &Fired) -> Fired
    ensures { result ≡ fired.now }
{
    let mut copy = Fired::new();
    for k in 0..fired.len() {
        match fired.get(k) {
            Some(task) => copy.push(task),
            None => {}
        }
    }
    copy
}

/// The origins of the jobs with which an era begins.
fn jobs_begun(request: u64, scene: &Scene) -> Origins
    ensures { result ≡ jobs_begun request scene.now }
{
    let restart = true;
    origins_after(Since { request, restart }, &Origins::new(), scene)
}

/// The listings with which an era begins.
fn tasks_begun(request: u64, scene: &Scene) -> Listings
    ensures { result ≡ tasks_begun request scene.now }
{
    let restart = true;
    listings_after(Since { request, restart }, &Listings::new(), scene)
}

impl<'a> ObservedRun<'a> {
    /// A run with whose machine an era has just begun, before the first request.
    pub fn new(run: Run<'a>) -> ObservedRun<'a>
        ensures watched { result.watching ≡ watching_from run.entry.machine }
        ensures pending { result.pending ≡ run.entry.pending }
    {
        let scene = scene_now(run.machine());
        ObservedRun {
            run,
            asked: 0,
            time: 0,
            total: 0,
            jobs: jobs_begun(0, &scene),
            tasks: tasks_begun(0, &scene),
        }
    }

    /// The machine.
    pub fn machine(&self) -> &Machine
        ensures { result.now ≡ self.now.watching.machine }
    {
        self.run.machine()
    }

    /// The scene as it is now.
    pub fn scene(&self) -> Scene
        ensures { result ≡ scene_now self.now.watching.machine }
    {
        scene_now(self.run.machine())
    }

    /// The clock as it is, if time passes by itself.
    pub fn clock(&self) -> Option<&Clock>
        ensures { option_map (λ clock. clock.now) result
            ≡ option_map (λ _. self.now.pending.clock) self.now.pending.timing }
    {
        self.run.clock()
    }

    /// The event of a request: the machine is asked, but nothing is noted yet.
    fn event(&mut self, asked: &PendingRequest) -> Event
        ensures event { result ≡ event_of self.old.watching asked.now.request }
        ensures watching { self.new.watching ≡ record self.old.watching {
          machine = after self.old.watching.machine asked.now.request;
        } }
        ensures pending { self.new.pending
            ≡ asks_after self.old.watching.machine self.old.pending asked.now }
    {
        let before = scene_if(starts_over(&asked.request), self.run.machine());
        let answer = self.run.ask(asked);
        let scene = scene_shown(before, &self.run, &answer);
        let fired = copy_of(self.run.tasks_fired());
        let number = self.asked.saturating_add(1);
        let ticked = is_ticked(&asked.request, &answer);
        let now = Since {
            request: number,
            restart: false,
        };
        let jobs = origins_after(now, &self.jobs, &scene);
        let tasks = listings_after(now, &left_by(ticked, fired.len(), &self.tasks), &scene);
        Event {
            number,
            time: one_more_if(ticked, self.time),
            total: one_more_if(ticked, self.total),
            request: asked.request,
            answer,
            fired,
            raised: self.run.raised(),
            scene,
            era: scene_if(begins_with(&answer), self.run.machine()),
            jobs,
            tasks,
        }
    }

    /// Notes an event.
    fn note(&mut self, event: &Event)
        ensures watching { self.new.watching
            ≡ watching_on self.old.watching.machine event.now }
        ensures pending { self.new.pending ≡ self.old.pending }
    {
        self.asked = event.number;
        self.total = event.total;
        match &event.era {
            None => {
                self.time = event.time;
                self.jobs = event.jobs.duplicate();
                self.tasks = event.tasks.duplicate();
            }
            Some(scene) => {
                self.time = 0;
                self.jobs = jobs_begun(event.number, scene);
                self.tasks = tasks_begun(event.number, scene);
            }
        }
    }

    /// Makes one request, and returns its event. No memory is taken.
    fn serve(&mut self, asked: &PendingRequest) -> Event
        ensures event { result ≡ event_of self.old.watching asked.now.request }
        ensures watching { self.new.watching ≡ watched self.old.watching asked.now.request }
        ensures pending { self.new.pending
            ≡ asks_after self.old.watching.machine self.old.pending asked.now }
    {
        let event = self.event(asked);
        self.note(&event);
        event
    }

    /// Asks for a request that isn't one of the run's own, and returns its event. Source: of the
    /// answer as of `Machine::ask`; of the rest profile.
    pub fn ask(&mut self, request: &Request) -> Event
        ensures event { result ≡ event_of self.old.watching request.now }
        ensures watching { self.new.watching ≡ watched self.old.watching request.now }
    {
        self.serve(&PendingRequest {
            source: Source::Script,
            request: *request,
        })
    }

    /// Makes the next request, and returns its source and its event. None once all have been made.
    pub fn next(&mut self) -> Option<(Source, Event)>
        ensures { Comes self.old result self.new }
    {
        match self.run.next() {
            None => None,
            Some(asked) => {
                let event = self.serve(&asked);
                Some((asked.source, event))
            }
        }
    }
}
