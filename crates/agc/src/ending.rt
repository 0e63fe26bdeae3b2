//! How the program ends.
ghost use Rattle.std.specs.Prelude.{◌≡◌, Some};
ghost use Rattle.std.specs.Process.{exit_status};
ghost use Rattle.agc.specs.Messages.{fault_text, error_line};
ghost use Rattle.agc.specs.Statuses.{status_after};

use crate::fault::ProgramFault;
use std::fmt;
use std::io::Eprint;
use std::process::ExitCode;

/// A fault as the program prints it, as a line on standard error.
#[derive(Clone, Copy)]
struct FaultLine {
    fault: ProgramFault,
}

impl fmt::Display for FaultLine {
    ghost output = { λ told. Some (error_line told.fault) };

    fn fmt<W: fmt::Write>(&self, f: &mut fmt::Formatter<W>) -> fmt::Result {
        f.write_str("agc: ")?;
        self.fault.fmt(f)
    }
}

impl fmt::Display for ProgramFault {
    ghost output = { λ fault. Some (fault_text fault) };

    fn fmt<W: fmt::Write>(&self, f: &mut fmt::Formatter<W>) -> fmt::Result {
        match self {
            ProgramFault::Words => f.write_str("use script, serial or threads"),
            ProgramFault::NoMemory => f.write_str("no memory"),
            ProgramFault::Output => f.write_str("output"),
            ProgramFault::Read(fault) => fault.fmt(f),
            ProgramFault::Script(fault) => fault.fmt(f),
            ProgramFault::Bench(fault) => fault.fmt(f),
            ProgramFault::Run(fault) => fault.fmt(f),
        }
    }
}

/// Ends with status 0, or with a line on standard error and the fault's status.
pub fn exit_with(rt: &impl Eprint, outcome: Result<(), ProgramFault>) -> ExitCode
    ensures { exit_status result ≡ status_after outcome }
{
    match outcome {
        Ok(()) => ExitCode::SUCCESS,
        Err(fault) => {
            let told = FaultLine { fault };
            let _ = eprintln!(rt; "{told}");
            ExitCode::from(fault.status())
        }
    }
}
