//! Why a command ends before its end.

use crate::say::tell;
use std::alloc::{AllocError, AllocFailed};
use std::io;
use x12_spool::SpoolFault;

/// Why a command ended before its end.
#[derive(Clone, Copy, PartialEq, Eq)]
pub enum Stop {
    /// A sentence on standard error said why.
    Told,
    /// The same, and the command line is wrong.
    Line,
    /// Memory was missing.
    Memory,
    /// Standard output or standard error takes nothing.
    Output,
}

impl From<AllocError> for Stop {
    ghost from_gives = { λ _ _. Unit {0} };

    fn from(_: AllocError) -> Stop {
        Stop::Memory
    }
}

impl<T: Drop> From<AllocFailed<T>> for Stop {
    ghost from_gives = { λ _ _. Unit {0} };

    fn from(_: AllocFailed<T>) -> Stop {
        Stop::Memory
    }
}

impl From<io::Error> for Stop {
    ghost from_gives = { λ _ _. Unit {0} };

    fn from(_: io::Error) -> Stop {
        Stop::Output
    }
}

impl From<SpoolFault> for Stop {
    ghost from_gives = { λ _ _. Unit {0} };

    fn from(fault: SpoolFault) -> Stop {
        match fault {
            SpoolFault::Files => Stop::Told,
            SpoolFault::Memory => Stop::Memory,
        }
    }
}

/// The status of the program that ends so: 2 where the command line is wrong, else 1. That memory was
/// missing is told on standard error.
pub fn status_of(rt: &HostRuntime, stop: Stop) -> u8 {
    if stop == Stop::Memory {
        let _ = tell(rt, &["memory was missing"]);
    }
    match stop {
        Stop::Line => 2,
        _ => 1,
    }
}
