// A chart as browsers open it: the events of tracks, in JSON.
use crate::lanes::{AREAS, LANES, Lanes, TASKS, TrackContent, is_same, lanes_of};
use crate::names::ItemKind;
use crate::page::Page;
use agc_clock::Clock;
use agc_plan::Request;
use agc_run::{Event, Scene};
use agc_session::Source;
use agc_text::Field::{Json, Number, Octal, Priority, Seconds, Text};
use agc_text::{Buffer, alarm_code, request_text};

/// The counters, by their numbers.
const COUNTERS: [&str; 4] = ["core sets", "VAC areas", "tasks", "stolen percent"];

/// The state of a chart: the contents of lanes and counters, the present microsecond, and how many
/// hundredths of the present centisecond were stolen and how many have passed.
#[derive(Drop)]
pub(crate) struct Chart {
    lanes: Lanes,
    counts: [u64; 4],
    now: u64,
    stolen: u64,
    gone: u64,
}

/// Adds the front of an event of this phase, on the track of this number.
fn begin_event(buffer: &mut Buffer, phase: &str, track: usize, now: u64) {
    let event = [Text(phase), Number(track as u64), Number(now)];
    buffer.put(",\n{\"ph\":\"{}\",\"pid\":1,\"tid\":{},\"ts\":{}", &event);
}

/// The track of a lane; track 1 is that of alarms.
fn track_of(lane: usize) -> usize {
    lane.saturating_add(2)
}

/// The name of a track, and its place in the order of tracks.
const TRACK: &str = ",
{\"ph\":\"M\",\"pid\":1,\"tid\":{},\"ts\":0,\"name\":\"thread_name\",\
    \"args\":{\"name\":\"{} {}\"}},
{\"ph\":\"M\",\"pid\":1,\"tid\":{},\"ts\":0,\"name\":\"thread_sort_index\",\
    \"args\":{\"sort_index\":{}}}";

/// The beginning of every chart: its heading, and track 1.
const HEADING: &str = "{\"displayTimeUnit\":\"ms\",\"traceEvents\":[
{\"ph\":\"M\",\"pid\":1,\"tid\":1,\"ts\":0,\"name\":\"process_name\",\"args\":{\"name\":\"{}\"}},
{\"ph\":\"M\",\"pid\":1,\"tid\":1,\"ts\":0,\"name\":\"thread_name\",\
    \"args\":{\"name\":\"alarms\"}}";

/// Adds the name of a track.
fn put_track(buffer: &mut Buffer, lane: usize) {
    let (kind, number) = if lane >= TASKS {
        ("task", lane.saturating_sub(TASKS).saturating_add(1))
    } else if lane >= AREAS {
        ("VAC area", lane.saturating_sub(AREAS).saturating_add(1))
    } else {
        ("core set", lane)
    };
    let track = Number(track_of(lane) as u64);
    let number = Number(number as u64);
    buffer.put(TRACK, &[track, Text(kind), number, track, track]);
}

/// How many lanes hold something, from one on, up to another.
fn count_taken(lanes: &Lanes, from: usize, to: usize) -> u64 {
    lanes.iter().take(to).skip(from).flatten().count() as u64
}

/// Adds a name, or else an address, and that a job sleeps.
fn put_name(buffer: &mut Buffer, name: Option<&str>, at: u16, asleep: bool) {
    match name {
        None => buffer.add(Octal(at)),
        Some(name) => buffer.add(Json(name)),
    }
    buffer.text(if asleep { " asleep" } else { "" });
    buffer.text("\",\"args\":{");
}

/// Adds the contents of a lane: their name, and further members.
fn put_content(page: &mut Page, held: &TrackContent) {
    let (buffer, names) = (&mut page.table.lines, &page.columns.names);
    match *held {
        TrackContent::Job {
            number,
            at,
            priority,
            asleep,
        } => {
            put_name(buffer, names.of(ItemKind::Job(at)), at, asleep);
            let rest = [Number(u64::from(number)), Octal(at), Priority(priority)];
            buffer.put("\"job\":{},\"at\":\"{}\",\"priority\":\"{}\"", &rest);
        }
        TrackContent::Owner { number, at } => {
            put_name(buffer, names.of(ItemKind::Job(at)), at, false);
            let rest = [Number(u64::from(number)), Octal(at)];
            buffer.put("\"job\":{},\"at\":\"{}\"", &rest);
        }
        TrackContent::Task(task, due) => {
            let (at, bank) = (task.at.get(), task.bank.bits());
            put_name(buffer, names.of(ItemKind::Task(task)), at, false);
            let rest = [Octal(at), Octal(bank), Seconds(due)];
            buffer.put("\"at\":\"{}\",\"bank\":\"{}\",\"due\":{}", &rest);
        }
    }
    buffer.text("}}");
}

/// Adds who asks, as a value.
fn put_source(page: &mut Page, source: Source) {
    page.table.lines.text("\"");
    match page.columns.event(source) {
        None => page.columns.put_source(&mut page.table.lines, source),
        Some(name) => page.table.lines.add(Json(name)),
    }
    page.table.lines.text("\"");
}

impl Chart {
    /// A chart without events.
    pub(crate) fn new() -> Chart {
        Chart {
            lanes: [None; LANES],
            counts: [u64::MAX; 4],
            now: 0,
            stolen: 0,
            gone: 0,
        }
    }

    /// Adds the ends and beginnings of events, now that the lanes hold this.
    fn put_lanes(&mut self, page: &mut Page, lanes: &Lanes) {
        for lane in 0..LANES {
            if !is_same(&self.lanes[lane], &lanes[lane]) {
                if self.lanes[lane].is_some() {
                    begin_event(&mut page.table.lines, "E", track_of(lane), self.now);
                    page.table.lines.text("}");
                }
                if let Some(held) = &lanes[lane] {
                    begin_event(&mut page.table.lines, "B", track_of(lane), self.now);
                    page.table.lines.text(",\"name\":\"");
                    put_content(page, held);
                }
            }
            self.lanes[lane] = lanes[lane];
        }
    }

    /// Adds the counters that have changed.
    fn put_counts(&mut self, buffer: &mut Buffer, counts: &[u64; 4]) {
        for counter in 0..4usize {
            if self.counts[counter] != counts[counter] {
                begin_event(buffer, "C", 0, self.now);
                let now = [Text(COUNTERS[counter]), Number(counts[counter])];
                buffer.put(",\"name\":\"{}\",\"args\":{\"now\":{}}}", &now);
            }
        }
        self.counts = *counts;
    }

    /// Adds the changes that a scene at a centisecond brings.
    fn put_scene(&mut self, page: &mut Page, scene: &Scene, time: u64) {
        let lanes = lanes_of(&self.lanes, scene, time);
        self.put_lanes(page, &lanes);
        let (sets, areas) = (
            count_taken(&lanes, 0, AREAS),
            count_taken(&lanes, AREAS, TASKS),
        );
        let counts = [sets, areas, count_taken(&lanes, TASKS, LANES), self.stolen];
        self.put_counts(&mut page.table.lines, &counts);
    }

    /// Notes how many hundredths of a centisecond have passed on a clock after this request: with a
    /// tick they are the stolen ones; before the first tick, none.
    pub(crate) fn pass(&mut self, request: &Request, clock: &Clock) {
        if clock.time() > 0 {
            self.gone = 100_u64.saturating_sub(u64::from(clock.left()));
        }
        if *request == Request::Tick {
            self.stolen = self.gone;
        }
    }

    /// Adds the heading, and the first scene, if there is one to show.
    pub(crate) fn begin(&mut self, page: &mut Page, scene: Option<&Scene>) {
        let title = page.columns.names.of(ItemKind::Title).unwrap_or("AGC");
        page.table.lines.put(HEADING, &[Json(title)]);
        for lane in 0..LANES {
            put_track(&mut page.table.lines, lane);
        }
        if let Some(scene) = scene {
            self.put_scene(page, scene, 0);
        }
    }

    /// Adds that an era begins with a request.
    fn put_era(&mut self, page: &mut Page, source: Source, event: &Event) {
        begin_event(&mut page.table.lines, "i", 1, self.now);
        page.table.lines.text(",\"s\":\"p\",\"name\":\"");
        match event.alarm() {
            None => page.table.lines.text(request_text(&event.request).as_str()),
            Some(alarm) => page.table.lines.fill("alarm ", Text(alarm_code(alarm))),
        }
        page.table.lines.put(
            "\",\"args\":{\"request\":{},\"by\":",
            &[Number(event.number)],
        );
        put_source(page, source);
        page.table.lines.text("}}");
        self.put_lanes(page, &[None; LANES]);
    }

    /// Adds the events of a request.
    pub(crate) fn tell(&mut self, page: &mut Page, source: Source, event: &Event) {
        let now = event.total.saturating_mul(100).saturating_add(self.gone);
        self.now = now.saturating_mul(100).max(self.now);
        self.put_scene(page, &event.scene, event.total);
        if let Some(era) = &event.era {
            self.put_era(page, source, event);
            self.put_scene(page, era, event.total);
        }
    }

    /// Ends the events of all lanes, and the chart.
    pub(crate) fn end(&mut self, page: &mut Page) {
        self.put_lanes(page, &[None; LANES]);
        page.table.lines.text("\n]}\n");
    }
}
