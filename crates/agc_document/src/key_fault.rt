//! Faults of keys.
use crate::key::Key;

/// The level of a key: the bench or scenario itself, a table of an array, or the table of a job's
/// cost.
#[derive(Clone, Copy, PartialEq, Eq)]
pub enum Level {
    Bench,
    Task,
    Phase,
    Worker,
    /// A worker of a bench that is explored.
    Explored,
    Device,
    Scenario,
    NamedTask,
    NamedPhase,
    Steal,
    Job,
    Cost,
    Event,
}

/// Why a key is refused.
#[derive(Clone, Copy)]
pub enum KeyFault {
    /// The finding's text is no key of a table of this level.
    Unknown(Level),
    /// The key is required, and missing.
    Missing(Key),
    /// The value is of another kind, out of range, or of another length. If a text is expected, the
    /// finding quotes the value's digits.
    Value(Key),
    /// An item of the key's array is of another kind, or out of range.
    Item(Key),
    /// The row of stolen time ends before it begins, or at the same time.
    Backward,
    /// The row of stolen time begins again before it ends.
    OverlapsItself,
    /// The row of stolen time begins before an earlier one ends.
    Overlap,
    /// An earlier job has the same address.
    JobTwice,
    /// A job's least cost is above its most.
    LeastAboveMost,
    /// The cost of a job is drawn by lot, and the scenario has no seed.
    NoSeed,
    /// No event above this one has the name from which it counts. The event of this number, from 1,
    /// has it, if one below does.
    NoneAbove(Option<u64>),
}
