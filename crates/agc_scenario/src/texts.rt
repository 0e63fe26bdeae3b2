//! The numbers and texts of a scenario, which borrow from its document.
use crate::timing::CostRange;
use agc_clock::Stolen;
use agc_document::{EntryTexts, RowTexts, Text, TextList, Texts};
use std::marker::Model;

/// A task's row or a phase entry, and its name.
#[derive(Drop)]
pub(crate) struct Named<'a, T> {
    pub(crate) item: T,
    pub(crate) name: Option<Text<'a>>,
}

impl<'a, T> Model for Named<'a, T> {
    ghost use Rattle.agc_scenario.specs.Texts.{Named as NamedItem};

    ghost Value = { NamedItem T };

    ghost view = { λ n. record { item = n.item; name = n.name } };
}

/// The tasks and phases of a scenario.
#[derive(Drop)]
pub(crate) struct NamedTexts<'a> {
    pub(crate) rows: Vec<Named<'a, RowTexts<'a>>>,
    pub(crate) entries: Vec<Named<'a, EntryTexts<'a>>>,
}

impl<'a> Model for NamedTexts<'a> {
    ghost use Rattle.agc_scenario.specs.Texts.{NamedTexts as Named};

    ghost Value = { Named };

    ghost view = { λ n. record { rows = n.rows.items; entries = n.entries.items } };
}

/// A row of stolen time.
#[derive(Drop)]
pub(crate) struct StolenRow {
    pub(crate) row: Stolen,
}

impl Model for StolenRow {
    ghost use Rattle.agc_clock.specs.declared.timetable.Stolen.{Stolen as Row};

    ghost Value = { Row };

    ghost view = { λ s. s.row };
}

/// A job: its numbers, and the texts of its address, of each request and of its name.
#[derive(Drop)]
pub(crate) struct JobTexts<'a> {
    pub(crate) at: Text<'a>,
    pub(crate) cost: CostRange,
    pub(crate) deadline: Option<u32>,
    pub(crate) requests: TextList<'a>,
    pub(crate) name: Option<Text<'a>>,
}

impl<'a> Model for JobTexts<'a> {
    ghost use Rattle.std.specs.Prelude.{◌≤◌};
    ghost use Rattle.agc_scenario.specs.Texts.{JobTexts as Texts};

    ghost Value = { Texts };

    ghost view = { λ t. record {
      at = t.at;
      cost = t.cost;
      deadline = t.deadline;
      requests = t.requests;
      name = t.name;
    } };

    ghost invariant = { λ t. (t.cost.from ≤ t.cost.to) × (t.cost.to ≤ 1000000) };
}

/// An event: its numbers, a text for each request, and the texts of its name and of the name of the
/// event from which it counts.
#[derive(Drop)]
pub(crate) struct EventTexts<'a> {
    pub(crate) at: u32,
    pub(crate) after: Option<Text<'a>>,
    pub(crate) requests: TextList<'a>,
    pub(crate) every: Option<u32>,
    pub(crate) until: Option<u32>,
    pub(crate) name: Option<Text<'a>>,
}

impl<'a> Model for EventTexts<'a> {
    ghost use Rattle.std.specs.Prelude.{◌≤◌, IfSome};
    ghost use Rattle.agc_scenario.specs.Texts.{EventTexts as Texts};

    ghost Value = { Texts };

    ghost view = { λ t. record {
      at = t.at;
      after = t.after;
      requests = t.requests;
      every = t.every;
      until = t.until;
      name = t.name;
    } };

    ghost invariant = { λ t. IfSome t.every (λ n. 1 ≤ n) };
}

/// How time passes.
#[derive(Drop)]
pub(crate) struct TimingTexts<'a> {
    pub(crate) seconds: u32,
    pub(crate) title: Option<Text<'a>>,
    pub(crate) seed: Option<u32>,
    pub(crate) stolen: Vec<Stolen>,
    pub(crate) jobs: Vec<JobTexts<'a>>,
    pub(crate) events: Vec<EventTexts<'a>>,
}

impl<'a> Model for TimingTexts<'a> {
    ghost use Rattle.std.specs.Prelude.{◌≤◌};
    ghost use Rattle.agc_scenario.specs.Texts.{TimingTexts as Texts};

    ghost Value = { Texts };

    ghost view = { λ t. record {
      seconds = t.seconds;
      title = t.title;
      seed = t.seed;
      stolen = t.stolen.items;
      jobs = t.jobs.items;
      events = t.events.items;
    } };

    ghost invariant = { λ t. t.seconds ≤ 86400 };
}

/// All numbers and texts of a scenario.
#[derive(Drop)]
pub(crate) struct ScenarioTexts<'a> {
    pub(crate) bench: Texts<'a>,
    pub(crate) row_names: Vec<Option<Text<'a>>>,
    pub(crate) entry_names: Vec<Option<Text<'a>>>,
    pub(crate) timing: TimingTexts<'a>,
}

impl<'a> Model for ScenarioTexts<'a> {
    ghost use Rattle.agc_scenario.specs.Texts.{ScenarioTexts as Texts};

    ghost Value = { Texts };

    ghost view = { λ t. record {
      bench = t.bench;
      row_names = t.row_names.items;
      entry_names = t.entry_names.items;
      timing = t.timing;
    } };
}
