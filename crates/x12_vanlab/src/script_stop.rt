//! Why a script doesn't go on.

ghost use Rattle.std.specs.Prelude.{◌≡◌};
ghost use Rattle.x12_vanlab.specs.declared.script_stop.Stop.TheVariants.{BadLine, Memory};

use crate::script_fault::LineFault;
use std::alloc::{AllocError, AllocFailed};

/// Why a script doesn't go on.
#[derive(Clone, Copy)]
pub(crate) enum Stop<'a> {
    /// A line is bad.
    BadLine(LineFault<'a>),
    /// Want of memory.
    Memory,
    /// A write failed.
    Write,
}

impl<'a> From<LineFault<'a>> for Stop<'a> {
    ghost from_gives = { λ fault e. e ≡ BadLine fault };

    fn from(fault: LineFault<'a>) -> Stop<'a> {
        Stop::BadLine(fault)
    }
}

impl<'a> From<AllocError> for Stop<'a> {
    ghost from_gives = { λ _ e. e ≡ Memory };

    fn from(_: AllocError) -> Stop<'a> {
        Stop::Memory
    }
}

impl<'a, T: Drop> From<AllocFailed<T>> for Stop<'a> {
    ghost from_gives = { λ _ e. e ≡ Memory };

    fn from(_: AllocFailed<T>) -> Stop<'a> {
        Stop::Memory
    }
}
