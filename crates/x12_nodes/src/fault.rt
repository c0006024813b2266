//! Why a node refuses a call.

ghost use Rattle.std.specs.Prelude.{◌≡◌};
ghost use Rattle.x12_nodes.specs.Cell.{fault_of_core};
ghost use Rattle.x12_nodes.specs.declared.fault.CellFault.TheVariants.{Memory};
ghost use Rattle.x12_nodes.specs.Wire.{fault_of_cell};

use std::alloc::{AllocError, AllocFailed};
use thiserror::Error;
use x12_core::{CoreFault, NodeFault};

/// Why a cell refuses a call. Its node and its log are then as they were.
#[derive(Clone, Copy, Debug, PartialEq, Eq, Error)]
pub enum CellFault {
    /// L7. A node of this kind isn't asked so.
    #[error("a node of this kind isn't asked so")]
    WrongKind,
    /// L4. Memory was missing: nothing was done.
    #[error("memory was missing")]
    Memory,
    /// L2. The stamp isn't above the last one, or is the greatest of 64 bits.
    #[error("the stamp doesn't follow the last one")]
    WentBack,
    /// L3. The node refuses.
    #[error("{0}")]
    Core(NodeFault),
}

impl From<CoreFault> for CellFault {
    ghost from_gives = { λ fault e. e ≡ fault_of_core fault };

    fn from(fault: CoreFault) -> CellFault {
        match fault {
            CoreFault::WrongKind => CellFault::WrongKind,
            CoreFault::Memory => CellFault::Memory,
            CoreFault::Node(fault) => CellFault::Core(fault),
        }
    }
}

impl From<AllocError> for CellFault {
    ghost from_gives = { λ _ e. e ≡ Memory };

    fn from(_: AllocError) -> CellFault {
        CellFault::Memory
    }
}

impl<T: Drop> From<AllocFailed<T>> for CellFault {
    ghost from_gives = { λ _ e. e ≡ Memory };

    fn from(_: AllocFailed<T>) -> CellFault {
        CellFault::Memory
    }
}

/// Why a node refuses a call of a caller. The caller's pass is then as it was; a stamp may be used up.
#[derive(Clone, Copy, Debug, PartialEq, Eq, Error)]
pub enum CallFault {
    /// L7. A node of this kind isn't asked so, or the hub for a mailbox of no station.
    #[error("a node of this kind isn't asked so")]
    WrongKind,
    /// L1. No stamp is left.
    #[error("no stamp is left")]
    StampsExhausted,
    /// L5. No such packet is on the wire.
    #[error("no such packet is on the wire")]
    NoSuchPacket,
    /// L6. Bytes from outside name a node as their sender.
    #[error("bytes from outside name a node as their sender")]
    SpokenFor,
    /// L4. Memory was missing: nothing was done.
    #[error("memory was missing")]
    Memory,
    /// L2. The stamp doesn't follow the node's last one.
    #[error("the stamp doesn't follow the last one")]
    WentBack,
    /// L3. The node refuses.
    #[error("{0}")]
    Core(NodeFault),
}

impl From<CellFault> for CallFault {
    ghost from_gives = { λ fault e. e ≡ fault_of_cell fault };

    fn from(fault: CellFault) -> CallFault {
        match fault {
            CellFault::WrongKind => CallFault::WrongKind,
            CellFault::Memory => CallFault::Memory,
            CellFault::WentBack => CallFault::WentBack,
            CellFault::Core(fault) => CallFault::Core(fault),
        }
    }
}

impl From<AllocError> for CallFault {
    ghost from_gives = { λ _ e. e ≡ fault_of_cell Memory };

    fn from(_: AllocError) -> CallFault {
        CallFault::Memory
    }
}

impl<T: Drop> From<AllocFailed<T>> for CallFault {
    ghost from_gives = { λ _ e. e ≡ fault_of_cell Memory };

    fn from(_: AllocFailed<T>) -> CallFault {
        CallFault::Memory
    }
}
