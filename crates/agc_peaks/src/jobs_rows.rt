//! The table of a run's jobs.
use agc_scenario::{TimedJob, Timing};
use agc_stats::{AddressStatistics, EraTime, JobStatistics};
use agc_table::{Row, Table, left, right, width_of};
use agc_text::Field;
use agc_text::Field::{Number, Octal, Seconds, Text};

/// Hundredths of a centisecond as seconds, to the nearest hundredth.
pub(crate) fn seconds(hundredths: u64) -> Field<'static> {
    Seconds(hundredths.saturating_add(50) / 100)
}

/// Hundredths of a centisecond as seconds, rounded up to a hundredth.
fn seconds_up(hundredths: u64) -> Field<'static> {
    Seconds(hundredths.saturating_add(99) / 100)
}

/// Adds to a row how many jobs of an address there were, how long they took, and how much of it
/// they computed, waited and slept, and their share of the time that the run took, if that is
/// known. Response times that jobs don't exceed are rounded up, so that a late job is seen to be.
pub(crate) fn fill_times(row: &mut Row, jobs: &AddressStatistics, time: Option<u64>) {
    let times = jobs.responses.as_slice();
    let mean = jobs.mean_times();
    let (least, most) = (times.first().copied(), times.last().copied());
    row.cell(right("began", "began", 5), Number(jobs.released));
    row.cell(right("ended", "ended", 5), Number(times.len() as u64));
    row.cell(right("lost", "lost", 5), Number(jobs.lost));
    row.cell(right("alive", "alive", 5), Number(jobs.alive));
    row.option(right("least", "least", 7), least.map(seconds));
    let response = mean.map(|mean| seconds(mean.response));
    row.option(right("mean", "mean", 7), response);
    let percentile = jobs.percentile(95).map(seconds_up);
    row.option(right("95%", "p95", 7), percentile);
    row.option(right("most", "most", 7), most.map(seconds_up));
    row.below();
    let computed = mean
        .filter(|_mean| time.is_some())
        .map(|mean| seconds(mean.computed));
    row.option(right("computing", "computing", 9), computed);
    let waited = mean.map(|mean| seconds(mean.waited));
    row.option(right("waiting", "waiting", 7), waited);
    let slept = mean.map(|mean| seconds(mean.slept));
    row.option(right("sleeping", "sleeping", 8), slept);
    let preempted = Number(jobs.preempted);
    row.cell(right("taken over", "taken_over", 10), preempted);
    let share = right("share", "share", 6);
    match time {
        None => row.option(share, None),
        Some(time) => row.share(share, jobs.computed, time),
    }
}

/// The centisecond, as a trace counts them, within which a job gets late that had to end at this
/// moment. Nothing is computed in centisecond 0, so the first hundredth is one of centisecond 1.
fn late_from(due: u64) -> Field<'static> {
    Seconds((due / 100).saturating_add(1))
}

/// Adds to a row how many jobs of an address missed their deadline, and when the first did.
pub(crate) fn fill_deadline(row: &mut Row, jobs: &AddressStatistics) {
    let (missed, first) = match (jobs.deadline, jobs.first_missed) {
        (None, _) => (None, None),
        (Some(_deadline), None) => (Some(Number(0)), None),
        (Some(_deadline), Some(first)) => (Some(Number(jobs.missed)), Some(late_from(first))),
    };
    row.option(right("missed", "missed", 6), missed);
    row.option(right("first missed", "first_missed", 12), first);
}

/// The scenario's row for an address, if it has one.
pub(crate) fn job_at(timing: Option<&Timing>, at: u16) -> Option<&TimedJob> {
    timing?.jobs().iter().find(|job| job.at().get() == at)
}

/// The name of an address's jobs, if a scenario gives one.
pub(crate) fn name_at(timing: Option<&Timing>, at: u16) -> Option<&str> {
    job_at(timing, at)?.name()
}

/// The width of the column of names: that of the longest.
fn name_width(statistics: &JobStatistics<'_>, timing: Option<&Timing>) -> usize {
    let mut width = 8;
    for row in statistics.rows.iter() {
        if let Some(name) = name_at(timing, row.at) {
            width = width_of(name).max(width);
        }
    }
    width
}

/// A table of the jobs of addresses: the width of the names, the time that the run is known to
/// have taken, and whether deadlines are shown.
#[derive(Clone, Copy)]
struct JobsTableLayout {
    width: usize,
    time: Option<u64>,
    has_deadline: bool,
}

/// Adds the cells of an address's jobs to a row.
fn fill(row: &mut Row, layout: JobsTableLayout, jobs: &AddressStatistics, name: Option<&str>) {
    let job = name.map_or(Octal(jobs.at), Text);
    row.cell(left("job", "job", layout.width), job);
    fill_times(row, jobs, layout.time);
    if layout.has_deadline {
        fill_deadline(row, jobs);
    }
}

/// Adds the heading, and the row of each address.
fn put_rows(table: &mut Table, statistics: &JobStatistics<'_>, timing: Option<&Timing>) {
    let has_deadline = statistics.rows.iter().any(|row| row.deadline.is_some());
    let layout = JobsTableLayout {
        width: name_width(statistics, timing),
        time: timing.map(|_timing| statistics.instant),
        has_deadline: has_deadline || !table.is_text(),
    };
    fill(&mut table.row, layout, &statistics.no_address(), None);
    table.end_heading();
    for row in statistics.rows.iter() {
        fill(&mut table.row, layout, row, name_at(timing, row.at));
        table.end_row();
    }
}

/// Adds the cells of an era, which ended at this centisecond, to a row: without shares if no time
/// is known to have passed.
fn fill_era(row: &mut Row, number: u64, era: &EraTime, ended: u64) {
    let lasts = ended.saturating_sub(era.began);
    let time = era
        .computed
        .saturating_add(era.stolen)
        .saturating_add(era.idle);
    row.cell(right("era", "era", 4), Number(number));
    row.cell(right("begins", "begins", 8), Seconds(era.began));
    row.cell(right("lasts", "lasts", 8), Seconds(lasts));
    let parts = [
        (right("computed", "computed", 8), era.computed),
        (right("stolen", "stolen", 6), era.stolen),
        (right("idle", "idle", 6), era.idle),
    ];
    for (column, part) in parts {
        if time == 0 {
            row.option(column, None);
        } else {
            row.share(column, part, time);
        }
    }
}

/// Adds how the time of each era was used.
fn put_eras(table: &mut Table, statistics: &JobStatistics<'_>) {
    let eras = statistics.eras.as_slice();
    if let Some(first) = eras.first() {
        fill_era(&mut table.row, 1, first, 0);
        table.end_heading();
    }
    for (k, era) in eras.iter().enumerate() {
        let next = eras.get(k.saturating_add(1));
        let ended = next.map_or(statistics.time, |next| next.began);
        let number = (k as u64).saturating_add(1);
        fill_era(&mut table.row, number, era, ended);
        table.end_row();
    }
}

/// Adds the statistics of jobs by their addresses or, if these are asked for and in a text of a
/// scenario behind them, how the time of each era was used.
pub(crate) fn put_jobs(
    table: &mut Table,
    statistics: &JobStatistics<'_>,
    timing: Option<&Timing>,
    eras: bool,
) {
    if !eras {
        put_rows(table, statistics, timing);
        if timing.is_none() || !table.is_text() {
            return;
        }
        table.lines.text("\n");
    }
    put_eras(table, statistics);
}
