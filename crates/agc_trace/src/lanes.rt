// The lanes of a chart: what each core set and each VAC area holds, and the tasks that wait.
use agc_plan::Task;
use agc_run::Scene;

/// The number of lanes: eight core sets, five areas and nine tasks.
pub(crate) const LANES: usize = 22;

/// The first lane of an area, and the first of a task.
pub(crate) const AREAS: usize = 8;

pub(crate) const TASKS: usize = 13;

/// The contents of a lane.
#[derive(Clone, Copy, PartialEq, Eq)]
pub(crate) enum TrackContent {
    /// A job, of this number, at this address.
    Job {
        number: u16,
        at: u16,
        priority: u16,
        asleep: bool,
    },
    /// The job that owns an area.
    Owner {
        number: u16,
        at: u16,
    },
    /// A task, and the centisecond at which it is due.
    Task(Task, u64),
}

/// The contents of all lanes.
pub(crate) type Lanes = [Option<TrackContent>; LANES];

/// Whether a lane holds the same as another.
pub(crate) fn is_same(one: &Option<TrackContent>, other: &Option<TrackContent>) -> bool {
    match (one, other) {
        (None, None) => true,
        (Some(one), Some(other)) => one == other,
        _ => false,
    }
}

/// Keeps a task in the lane that it had, if it had one.
fn keep(lanes: &mut Lanes, before: &Lanes, task: TrackContent) -> bool {
    let wanted = Some(task);
    for k in TASKS..LANES {
        if lanes[k].is_none() && is_same(&before[k], &wanted) {
            lanes[k] = before[k];
            return true;
        }
    }
    false
}

/// Puts a task into the first lane that has none.
fn add(lanes: &mut Lanes, task: TrackContent) {
    for k in TASKS..LANES {
        if lanes[k].is_none() {
            lanes[k] = Some(task);
            return;
        }
    }
}

/// Puts the tasks of a scene at a centisecond into lanes: first those that had one, and then the
/// others.
fn hold_tasks(lanes: &mut Lanes, before: &Lanes, scene: &Scene, time: u64) {
    let mut kept = [false; LANES];
    for (wait, is_kept) in scene.waits().iter().zip(kept.iter_mut()) {
        let due = time.saturating_add(u64::from(wait.distance));
        *is_kept = keep(lanes, before, TrackContent::Task(wait.task, due));
    }
    for (wait, is_kept) in scene.waits().iter().zip(kept.iter()) {
        if !*is_kept {
            let due = time.saturating_add(u64::from(wait.distance));
            add(lanes, TrackContent::Task(wait.task, due));
        }
    }
}

/// Changes the contents of a lane.
fn hold(lanes: &mut Lanes, k: usize, held: TrackContent) {
    if let Some(lane) = lanes.get_mut(k) {
        *lane = Some(held);
    }
}

/// The contents of all lanes in a scene at a centisecond, given those before it.
pub(crate) fn lanes_of(before: &Lanes, scene: &Scene, time: u64) -> Lanes {
    let mut lanes: Lanes = [None; LANES];
    for (k, seat) in scene.seats().iter().enumerate() {
        if let Some(seat) = *seat {
            let (number, at) = (seat.number, seat.at);
            let job = TrackContent::Job {
                number,
                at,
                priority: seat.priority,
                asleep: seat.asleep,
            };
            hold(&mut lanes, k, job);
            if seat.area > 0 {
                let area = usize::from(seat.area).saturating_sub(1);
                let owner = TrackContent::Owner { number, at };
                hold(&mut lanes, AREAS.saturating_add(area), owner);
            }
        }
    }
    hold_tasks(&mut lanes, before, scene, time);
    lanes
}
