//! Why a core refuses what it is asked.

ghost use Rattle.std.specs.Prelude.{◌≡◌};
ghost use Rattle.x12_core.specs.declared.fault.CoreFault.TheVariants.{Memory, Node};
ghost use Rattle.x12_core.specs.declared.fault.NodeFault.TheVariants.{OfHub, OfStation};

use std::alloc::{AllocError, AllocFailed};
use thiserror::Error;
use x12_hub::HubFault;
use x12_station::StationFault;

/// Why a node refuses.
#[derive(Clone, Copy, Debug, PartialEq, Eq, Error)]
pub enum NodeFault {
    /// A station does: S1 to S14.
    #[error("{0}")]
    OfStation(StationFault),
    /// The hub does: B1 to B4.
    #[error("{0}")]
    OfHub(HubFault),
}

/// Why a core refuses what it is asked. It is then as it was.
#[derive(Clone, Copy, Debug, PartialEq, Eq, Error)]
pub enum CoreFault {
    /// L7. A core of this kind isn't asked so.
    #[error("a core of this kind isn't asked so")]
    WrongKind,
    /// L4. Memory was missing: nothing was done.
    #[error("memory was missing")]
    Memory,
    /// L3. The node refuses.
    #[error("{0}")]
    Node(NodeFault),
}

impl From<StationFault> for CoreFault {
    ghost from_gives = { λ fault e. e ≡ Node (OfStation fault) };

    fn from(fault: StationFault) -> CoreFault {
        CoreFault::Node(NodeFault::OfStation(fault))
    }
}

impl From<HubFault> for CoreFault {
    ghost from_gives = { λ fault e. e ≡ Node (OfHub fault) };

    fn from(fault: HubFault) -> CoreFault {
        CoreFault::Node(NodeFault::OfHub(fault))
    }
}

impl From<AllocError> for CoreFault {
    ghost from_gives = { λ _ e. e ≡ Memory };

    fn from(_: AllocError) -> CoreFault {
        CoreFault::Memory
    }
}

impl<T: Drop> From<AllocFailed<T>> for CoreFault {
    ghost from_gives = { λ _ e. e ≡ Memory };

    fn from(_: AllocFailed<T>) -> CoreFault {
        CoreFault::Memory
    }
}
