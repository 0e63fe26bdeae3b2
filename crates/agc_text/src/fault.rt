ghost use Rattle.std.specs.Prelude.{◌≡◌, Some};
ghost use Rattle.agc_text.specs.declared.fault.ScriptFault.TheVariants.{NoMemory};
ghost use Rattle.agc_text.specs.declared.fault.ReadFault.TheVariants.{NoMemory as NoMemoryToRead};

use std::alloc::{AllocError, AllocFailed};
use std::fmt;

/// A write failed, or took nothing of what was left.
#[derive(Clone, Copy, PartialEq, Eq, Debug)]
pub struct Output;

impl fmt::Display for Output {
    ghost use Rattle.std.specs.Prelude.{codes};

    ghost output = { λ _. Some (codes "output") };

    fn fmt<W: fmt::Write>(&self, f: &mut fmt::Formatter<W>) -> fmt::Result {
        f.write_str("output")
    }
}

impl std::error::Error for Output {}

/// Why a script is refused.
#[derive(Clone, Copy, PartialEq, Eq, Debug)]
pub enum ScriptFault {
    NoMemory,
    /// The first line that is no request, counted from 1.
    Line(u64),
}

impl From<AllocError> for ScriptFault {
    ghost from_gives = { λ _ e. e ≡ NoMemory };

    fn from(_error: AllocError) -> ScriptFault {
        ScriptFault::NoMemory
    }
}

impl<T: Drop> From<AllocFailed<T>> for ScriptFault {
    ghost from_gives = { λ _ e. e ≡ NoMemory };

    fn from(_error: AllocFailed<T>) -> ScriptFault {
        ScriptFault::NoMemory
    }
}

impl fmt::Display for ScriptFault {
    ghost use Rattle.agc_text.specs.Messages.{script_fault_text};

    ghost output = { λ f. Some (script_fault_text f) };

    fn fmt<W: fmt::Write>(&self, f: &mut fmt::Formatter<W>) -> fmt::Result {
        match self {
            ScriptFault::NoMemory => f.write_str("no memory"),
            ScriptFault::Line(number) => write!(f, "line {number}"),
        }
    }
}

impl std::error::Error for ScriptFault {}

/// Why an input could not be read.
#[derive(Clone, Copy, PartialEq, Eq, Debug)]
pub enum ReadFault {
    NoMemory,
    /// A read failed.
    Input,
    /// There are more than 1,048,576 bytes.
    TooLong,
    /// The whole is not UTF-8.
    NotText,
}

impl From<AllocError> for ReadFault {
    ghost from_gives = { λ _ e. e ≡ NoMemoryToRead };

    fn from(_error: AllocError) -> ReadFault {
        ReadFault::NoMemory
    }
}

impl fmt::Display for ReadFault {
    ghost use Rattle.agc_text.specs.Messages.{read_fault_text};

    ghost output = { λ f. Some (read_fault_text f) };

    fn fmt<W: fmt::Write>(&self, f: &mut fmt::Formatter<W>) -> fmt::Result {
        match self {
            ReadFault::NoMemory => f.write_str("no memory"),
            ReadFault::Input => f.write_str("input"),
            ReadFault::TooLong => f.write_str("too long"),
            ReadFault::NotText => f.write_str("not text"),
        }
    }
}

impl std::error::Error for ReadFault {}
