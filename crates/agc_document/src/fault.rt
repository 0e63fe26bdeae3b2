ghost use Rattle.std.specs.Prelude.{◌≡◌, Some};
ghost use Rattle.agc_document.specs.declared.fault.BenchFault.TheVariants.{NoMemory as OutOfMemory};

use agc_plan::PlanFault;
use std::alloc::{AllocError, AllocFailed};
use std::fmt;

/// Why a bench is refused. If there are several faults, the first one in this order is returned; if
/// memory runs out, `NoMemory` may come in place of any.
#[derive(Clone, Copy, PartialEq, Eq, Debug)]
pub enum BenchFault {
    NoMemory,
    /// The text is no TOML document.
    NotToml,
    /// A key is unknown or missing, or its value is of another kind, out of range, or of another
    /// length.
    Key,
    /// A text is not of its form.
    Line,
    /// One task has two rows.
    TaskTwice,
    /// One group and phase has two entries.
    PhaseTwice,
    /// Each of the six groups has an entry whose job wants a VAC area.
    TooManyAreas,
}

impl From<AllocError> for BenchFault {
    ghost from_gives = { λ _ e. e ≡ OutOfMemory };

    fn from(_error: AllocError) -> BenchFault {
        BenchFault::NoMemory
    }
}

impl<T: Drop> From<AllocFailed<T>> for BenchFault {
    ghost from_gives = { λ _ e. e ≡ OutOfMemory };

    fn from(_error: AllocFailed<T>) -> BenchFault {
        BenchFault::NoMemory
    }
}

impl From<PlanFault> for BenchFault {
    ghost use Rattle.agc_document.specs.Faults.{bench_fault};

    ghost from_gives = { λ f e. e ≡ bench_fault f };

    fn from(fault: PlanFault) -> BenchFault {
        match fault {
            PlanFault::NoMemory => BenchFault::NoMemory,
            PlanFault::TaskTwice => BenchFault::TaskTwice,
            PlanFault::PhaseTwice => BenchFault::PhaseTwice,
            PlanFault::TooManyAreas => BenchFault::TooManyAreas,
        }
    }
}

impl fmt::Display for BenchFault {
    ghost use Rattle.agc_document.specs.Messages.{bench_fault_text};

    ghost output = { λ f. Some (bench_fault_text f) };

    fn fmt<W: fmt::Write>(&self, f: &mut fmt::Formatter<W>) -> fmt::Result {
        match self {
            BenchFault::NoMemory => f.write_str("no memory"),
            BenchFault::NotToml => f.write_str("not toml"),
            BenchFault::Key => f.write_str("key"),
            BenchFault::Line => f.write_str("line"),
            BenchFault::TaskTwice => f.write_str("task twice"),
            BenchFault::PhaseTwice => f.write_str("phase twice"),
            BenchFault::TooManyAreas => f.write_str("too many areas"),
        }
    }
}

impl std::error::Error for BenchFault {}
