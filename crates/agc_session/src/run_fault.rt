ghost use Rattle.std.specs.Prelude.{◌≡◌, ◌↔◌, Some, IsOk};
ghost use Rattle.agc_session.specs.declared.run_fault.RunFault.TheVariants as run;

use agc_machine::NoMemory;
use agc_text::Output;
use std::alloc::{AllocError, AllocFailed};
use std::thread::SpawnError;
use std::{fmt, io};

/// A reason why a run ended early.
#[derive(Clone, Copy, PartialEq, Eq, Debug)]
pub enum RunFault {
    /// Nothing was written.
    NoMemory,
    /// A write failed, or took nothing of what was left; a front of the text, perhaps empty, was
    /// written, and not all.
    Output,
    /// A thread couldn't be started. Nothing was written.
    NoThread,
    /// Shares are missing. Nothing was written. It is proved that no run ends so.
    Lost,
}

impl From<NoMemory> for RunFault {
    ghost from_gives = { λ _ e. e ≡ run.NoMemory };

    fn from(_error: NoMemory) -> RunFault {
        RunFault::NoMemory
    }
}

impl From<Output> for RunFault {
    ghost from_gives = { λ _ e. e ≡ run.Output };

    fn from(_error: Output) -> RunFault {
        RunFault::Output
    }
}

impl From<AllocError> for RunFault {
    ghost from_gives = { λ _ e. e ≡ run.NoMemory };

    fn from(_error: AllocError) -> RunFault {
        RunFault::NoMemory
    }
}

impl<T: Drop> From<AllocFailed<T>> for RunFault {
    ghost from_gives = { λ _ e. e ≡ run.NoMemory };

    fn from(_error: AllocFailed<T>) -> RunFault {
        RunFault::NoMemory
    }
}

impl<F: Drop> From<SpawnError<F>> for RunFault {
    ghost from_gives = { λ _ e. e ≡ run.NoThread };

    fn from(_error: SpawnError<F>) -> RunFault {
        Self::NoThread
    }
}

impl fmt::Display for RunFault {
    ghost use Rattle.agc_session.specs.Messages.{run_fault_text};

    ghost output = { λ f. Some (run_fault_text f) };

    fn fmt<W: fmt::Write>(&self, f: &mut fmt::Formatter<W>) -> fmt::Result {
        match self {
            RunFault::NoMemory => f.write_str("no memory"),
            RunFault::Output => f.write_str("output"),
            RunFault::NoThread => f.write_str("no thread"),
            RunFault::Lost => f.write_str("lost"),
        }
    }
}

impl std::error::Error for RunFault {}

/// The result of a write, as runs return it.
///
/// # Errors
///
/// If the write failed.
pub fn write_result(put: io::Result<()>) -> Result<(), Output>
    ensures { IsOk result ↔ IsOk put }
{
    put.map_err(|_failed| Output)
}
