//! Why a run of a network ended early.

use thiserror::Error;
use x12_links::Halt;

/// Why a run ended early. What was called before stands, and its receipts are in the passes.
#[derive(Clone, Copy, Debug, PartialEq, Eq, Error)]
pub enum NetFault {
    /// The gate let a call not pass.
    #[error("the gate let a call not pass")]
    Gate,
    /// Memory was missing, or a link had taken 2^64 - 1 packets.
    #[error("memory was missing")]
    Memory,
    /// No thread could be made.
    #[error("no thread could be made")]
    Spawn,
}

impl From<Halt> for NetFault {
    ghost from_gives = { λ _ _. Unit {0} };

    fn from(halt: Halt) -> NetFault {
        match halt {
            Halt::Gate => NetFault::Gate,
            Halt::Memory => NetFault::Memory,
            Halt::Spawn => NetFault::Spawn,
        }
    }
}
