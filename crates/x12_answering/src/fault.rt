//! How a run ends: its status, or why it stops.

ghost use Rattle.std.specs.Prelude.{◌≡◌};
ghost use Rattle.x12_answering.specs.declared.fault.RunFault.TheVariants.{Memory};

use std::alloc::{AllocError, AllocFailed};
use std::error::Error;
use std::fmt;

/// How a run that was not stopped ended.
#[derive(Clone, Copy, Debug, PartialEq, Eq)]
pub enum RunStatus {
    /// Each interchange that is due a reply has one.
    Answered,
    /// A line was written: an interchange is unreadable, or there was no number left for its reply.
    Incomplete,
}

/// Why a run stops.
#[derive(Clone, Copy, Debug, PartialEq, Eq)]
pub enum RunFault {
    /// A read failed, or more than 1,000 reads were interrupted. Nothing was written.
    Read,
    /// A write failed. What was written before stays.
    Write,
    /// The input has more than 16,777,216 bytes. Nothing was written.
    TooLong,
    /// Want of memory. What was written before stays.
    Memory,
}

impl fmt::Display for RunFault {
    fn fmt<W: fmt::Write>(&self, f: &mut fmt::Formatter<W>) -> fmt::Result {
        f.write_str(match *self {
            RunFault::Read => "the input can't be read",
            RunFault::Write => "the output can't be written",
            RunFault::TooLong => "the input is longer than 16,777,216 bytes",
            RunFault::Memory => "there is not enough memory",
        })
    }
}

impl Error for RunFault {}

impl From<AllocError> for RunFault {
    ghost from_gives = { λ _ e. e ≡ Memory };

    fn from(_e: AllocError) -> RunFault {
        RunFault::Memory
    }
}

impl<T: Drop> From<AllocFailed<T>> for RunFault {
    ghost from_gives = { λ _ e. e ≡ Memory };

    fn from(_e: AllocFailed<T>) -> RunFault {
        RunFault::Memory
    }
}
