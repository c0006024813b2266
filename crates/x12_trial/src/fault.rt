//! Why a trial ended without a report.

use std::alloc::{AllocError, AllocFailed};
use thiserror::Error;
use x12_answering::RunFault;
use x12_network::NetFault;
use x12_world::Refused;

/// Why a trial ended without a report.
#[derive(Clone, Copy, Debug, Error)]
pub enum TrialFault {
    /// The network's run ended early.
    #[error("{0}")]
    Run(NetFault),
    /// Memory was missing.
    #[error("memory was missing")]
    Memory,
    /// What everybody holds can't be told.
    #[error("what the stations hold can't be told: {0}")]
    Audit(Refused),
    /// The output can't be written.
    #[error("the output can't be written")]
    Write,
}

impl From<AllocError> for TrialFault {
    ghost from_gives = { λ _ _. Unit {0} };

    fn from(_: AllocError) -> TrialFault {
        TrialFault::Memory
    }
}

impl From<Refused> for TrialFault {
    ghost from_gives = { λ _ _. Unit {0} };

    fn from(refused: Refused) -> TrialFault {
        match refused {
            Refused::Memory => TrialFault::Memory,
            refused => TrialFault::Audit(refused),
        }
    }
}

impl<T: Drop> From<AllocFailed<T>> for TrialFault {
    ghost from_gives = { λ _ _. Unit {0} };

    fn from(_: AllocFailed<T>) -> TrialFault {
        TrialFault::Memory
    }
}

impl From<RunFault> for TrialFault {
    ghost from_gives = { λ _ _. Unit {0} };

    fn from(_: RunFault) -> TrialFault {
        TrialFault::Write
    }
}
