// The names of a scenario, its jobs, tasks, phases and events.
use agc_plan::{Phase, Task};
use agc_scenario::Scenario;
use std::alloc::{AllocError, Global};

/// A thing that can have a name in a scenario.
#[derive(Clone, Copy, PartialEq, Eq)]
pub(crate) enum ItemKind {
    /// The scenario itself.
    Title,
    /// The jobs that are established at this address.
    Job(u16),
    Task(Task),
    /// A phase of the restart group of this number, 1 to 6.
    Phase(usize, Phase),
    /// The event of this index.
    Event(usize),
}

/// A thing with its name.
#[derive(Drop)]
struct NamedItem {
    what: ItemKind,
    name: String,
}

/// The names of a scenario, its jobs, tasks, phases and events, in memory of their own; a bench has
/// none.
#[derive(Drop)]
pub(crate) struct Names {
    all: Vec<NamedItem>,
}

impl Names {
    /// No names.
    pub(crate) fn none(alloc: Global) -> Names {
        Names {
            all: Vec::new(alloc),
        }
    }

    /// The names of a scenario.
    pub(crate) fn of_scenario(alloc: Global, scenario: &Scenario) -> Result<Names, AllocError> {
        let mut names = Names::none(alloc);
        names.name_timed(alloc, scenario)?;
        names.name_planned(alloc, scenario)?;
        Ok(names)
    }

    /// Adds the title, and the names of jobs and events.
    fn name_timed(&mut self, alloc: Global, scenario: &Scenario) -> Result<(), AllocError> {
        let timing = scenario.timing();
        self.name(alloc, ItemKind::Title, timing.title())?;
        for job in timing.jobs() {
            self.name(alloc, ItemKind::Job(job.at().get()), job.name())?;
        }
        for (k, event) in timing.all_events().iter().enumerate() {
            self.name(alloc, ItemKind::Event(k), event.name())?;
        }
        Ok(())
    }

    /// Adds the names of tasks and phases.
    fn name_planned(&mut self, alloc: Global, scenario: &Scenario) -> Result<(), AllocError> {
        let bench = scenario.bench();
        for (row, name) in bench.rows().iter().zip(scenario.row_names().iter()) {
            self.name(alloc, ItemKind::Task(row.0), name.as_str())?;
        }
        for (entry, name) in bench.entries().iter().zip(scenario.entry_names().iter()) {
            let group = usize::from(entry.group().get());
            self.name(alloc, ItemKind::Phase(group, entry.phase()), name.as_str())?;
        }
        Ok(())
    }

    /// Gives something its name, if it has one. If memory runs out, nothing is changed.
    fn name(
        &mut self,
        alloc: Global,
        what: ItemKind,
        name: Option<&str>,
    ) -> Result<(), AllocError> {
        let Some(name) = name else {
            return Ok(());
        };
        let name = String::from_str(alloc, name)?;
        match self.all.push(NamedItem { what, name }) {
            Ok(()) => Ok(()),
            Err(_no_memory) => Err(AllocError),
        }
    }

    /// The name of a thing, if it has one: the first that it was given.
    pub(crate) fn of(&self, what: ItemKind) -> Option<&str> {
        for named in self.all.iter() {
            if named.what == what {
                return Some(named.name.as_str());
            }
        }
        None
    }
}
