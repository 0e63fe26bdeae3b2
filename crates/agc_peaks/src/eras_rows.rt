//! The table of a run's eras.
use crate::jobs_rows::seconds;
use agc_stats::{EndedEra, EraBoundary};
use agc_table::{Table, left, right};
use agc_text::Field::{Number, Seconds, Text};
use agc_text::alarm_code;

/// The reason why an era begins.
fn begin_text(boundary: EraBoundary) -> &'static str {
    match boundary {
        EraBoundary::Start => "start",
        EraBoundary::Alarm(alarm) => alarm_code(alarm),
        EraBoundary::Restart | EraBoundary::FreshStart => "restart",
        EraBoundary::End => "the end",
    }
}

/// The reason why an era ends.
fn end_text(boundary: EraBoundary) -> &'static str {
    match boundary {
        EraBoundary::FreshStart => "fresh start",
        other => begin_text(other),
    }
}

/// How many centiseconds an era lasted.
fn length_of(ended: &EndedEra) -> u64 {
    ended.ended.saturating_sub(ended.statistics.began)
}

/// The percentage of an era's ticks at which no job was running.
fn idle_percent(ended: &EndedEra) -> u64 {
    ended.statistics.idle.saturating_mul(100) / length_of(ended).max(1)
}

/// Adds the cells of an era's row to a table, given how many requests were made in it. The
/// computing that was lost, and the percentage of ticks at which no job was running, are known only
/// if time passes by itself, and are in each table for other programs.
pub(crate) fn fill_era(ended: &EndedEra, made: u64, has_time: bool, table: &mut Table) {
    let era = &ended.statistics;
    let is_text = table.is_text();
    let row = &mut table.row;
    row.cell(right("era", "era", 4), Number(ended.number));
    row.cell(right("begins", "begins", 8), Seconds(era.began));
    row.cell(left("began by", "began_by", 8), Text(begin_text(ended.by)));
    row.cell(right("lasts", "lasts", 8), Seconds(length_of(ended)));
    row.cell(right("served", "served", 8), Number(era.requests));
    let refused = made.saturating_sub(era.requests);
    row.cell(right("refused", "refused", 7), Number(refused));
    row.cell(right("began", "began", 5), Number(era.jobs_begun));
    row.cell(right("ended", "ended", 5), Number(era.jobs_ended));
    row.below();
    row.cell(right("most sets", "most_sets", 9), Number(era.sets.count));
    row.cell(right("since", "sets_since", 7), Seconds(era.sets.since));
    let areas = right("most areas", "most_areas", 10);
    row.cell(areas, Number(era.areas.count));
    row.cell(right("since", "areas_since", 7), Seconds(era.areas.since));
    let tasks = right("most tasks", "most_tasks", 10);
    row.cell(tasks, Number(era.tasks.count));
    row.cell(right("since", "tasks_since", 7), Seconds(era.tasks.since));
    let no_job = right("no job", "no_job", 6);
    let lost_time = right("lost time", "lost_time", 9);
    if has_time {
        row.percent(no_job, idle_percent(ended));
        row.cell(lost_time, seconds(ended.lost));
    } else if !is_text {
        row.option(no_job, None);
        row.option(lost_time, None);
    }
    row.cell(left("ended by", "ended_by", 0), Text(end_text(ended.end)));
}
