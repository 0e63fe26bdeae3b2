//! Why the program ended.
ghost use Rattle.std.specs.Prelude.{◌≡◌, ◌≢◌};
ghost use Rattle.clap.specs.Values.{kind_of};
ghost use Rattle.clap.specs.declared.error.kind.ErrorKind.TheVariants.{OutOfMemory};
ghost use Rattle.agc.specs.declared.fault.ProgramFault.TheVariants.{Words, NoMemory};
ghost use Rattle.agc.specs.declared.fault.ProgramFault.TheVariants.{Read, Script, Bench};
ghost use Rattle.agc.specs.declared.fault.ProgramFault.TheVariants.{Run};
ghost use Rattle.agc.specs.Statuses.{status_of};

use agc_document::BenchFault;
use agc_session::RunFault;
use agc_text::{ReadFault, ScriptFault};
use clap::error::ErrorKind;
use std::alloc::AllocError;

/// A reason why the program ended early.
#[derive(Clone, Copy)]
pub enum ProgramFault {
    /// The program doesn't take these words of the command line.
    Words,
    NoMemory,
    /// A flush of standard output failed.
    Output,
    Read(ReadFault),
    Script(ScriptFault),
    Bench(BenchFault),
    Run(RunFault),
}

impl ProgramFault {
    /// The exit status: 1 if the input is refused, 2 if the words are wrong, 3 if memory ran out or
    /// a thread couldn't be started, 4 if a read or write failed, 5 if shares were lost.
    pub fn status(self) -> u8
        ensures { result ≡ status_of self }
    {
        match self {
            ProgramFault::Words => 2,
            ProgramFault::NoMemory => 3,
            ProgramFault::Output => 4,
            ProgramFault::Read(fault) => match fault {
                ReadFault::NoMemory => 3,
                ReadFault::Input => 4,
                ReadFault::TooLong | ReadFault::NotText => 1,
            },
            ProgramFault::Script(fault) => match fault {
                ScriptFault::NoMemory => 3,
                ScriptFault::Line(_) => 1,
            },
            ProgramFault::Bench(fault) => match fault {
                BenchFault::NoMemory => 3,
                _ => 1,
            },
            ProgramFault::Run(fault) => match fault {
                RunFault::NoMemory | RunFault::NoThread => 3,
                RunFault::Output => 4,
                RunFault::Lost => 5,
            },
        }
    }
}

impl From<AllocError> for ProgramFault {
    ghost from_gives = { λ _ e. e ≡ NoMemory };

    fn from(_error: AllocError) -> Self {
        Self::NoMemory
    }
}

impl From<ReadFault> for ProgramFault {
    ghost from_gives = { λ fault e. e ≡ Read fault };

    fn from(fault: ReadFault) -> Self {
        Self::Read(fault)
    }
}

impl From<ScriptFault> for ProgramFault {
    ghost from_gives = { λ fault e. e ≡ Script fault };

    fn from(fault: ScriptFault) -> Self {
        Self::Script(fault)
    }
}

impl From<BenchFault> for ProgramFault {
    ghost from_gives = { λ fault e. e ≡ Bench fault };

    fn from(fault: BenchFault) -> Self {
        Self::Bench(fault)
    }
}

impl From<RunFault> for ProgramFault {
    ghost from_gives = { λ fault e. e ≡ Run fault };

    fn from(fault: RunFault) -> Self {
        Self::Run(fault)
    }
}

/// The message of `clap` about words that it doesn't take.
impl From<clap::Error> for ProgramFault {
    ghost from_gives = { λ error e. (kind_of error ≡ OutOfMemory → e ≡ NoMemory)
        × (kind_of error ≢ OutOfMemory → e ≡ Words) };

    fn from(error: clap::Error) -> Self {
        if error.kind() == ErrorKind::OutOfMemory {
            ProgramFault::NoMemory
        } else {
            ProgramFault::Words
        }
    }
}
