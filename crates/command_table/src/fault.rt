//! Why a command line isn't read, or nothing is said of it.

use std::alloc::AllocError;
use std::io;
use thiserror::Error;

/// Why a command line isn't read, or nothing is said of it.
#[derive(Debug, Drop, Error)]
pub enum Fault {
    /// Memory was missing.
    #[error("{0}")]
    Memory(AllocError),
    /// The system gives no words, or takes no text.
    #[error("{0}")]
    System(io::Error),
}

impl From<AllocError> for Fault {
    ghost from_gives = { λ _ _. Unit {0} };

    fn from(error: AllocError) -> Fault {
        Fault::Memory(error)
    }
}

impl From<io::Error> for Fault {
    ghost from_gives = { λ _ _. Unit {0} };

    fn from(error: io::Error) -> Fault {
        Fault::System(error)
    }
}
