//! Why a network refuses an event, or isn't made.

ghost use Rattle.std.specs.Prelude.{◌≡◌};
ghost use Rattle.x12_world.specs.RefusedNumber.{refused_number, refused_by_core};
ghost use Rattle.x12_core.specs.declared.fault.NodeFault.TheVariants.{OfStation};
ghost use Rattle.x12_world.specs.declared.refused.Refused.TheVariants.{Memory, Node};

use std::alloc::{AllocError, AllocFailed};
use std::error::Error;
use std::fmt;
use x12_core::{CoreFault, NodeFault};
use x12_station::StationFault;

/// Why a network refuses an event, or isn't made. A refused event takes no number, and leaves the
/// network as it was.
#[derive(Clone, Copy, Debug, PartialEq, Eq)]
pub enum Refused {
    /// V1. No packet of this name is held.
    NoSuchPacket,
    /// V2. Bytes from outside whose readable header (ISA05, ISA06) names a node as their sender.
    SpokenFor,
    /// V3. The node refuses.
    Node(NodeFault),
    /// V4. There is no node of this number, or it is one of the other kind, or a hub is to serve itself.
    NoSuchNode,
    /// V5. Memory was missing: nothing was done.
    Memory,
    /// V6. A network has 1 to 16 stations, each of the network's hubs; no two nodes have one party;
    /// and neither a hub nor a station was asked to do anything yet.
    BadNetwork,
    /// V7. The next event would have the number 18446744073709551615.
    Exhausted,
}

impl Refused {
    /// What a person is told; nothing where the node says it.
    fn sentence(&self) -> &'static str {
        match self {
            Refused::NoSuchPacket => "no packet of this name was sent",
            Refused::SpokenFor => "bytes from outside name a node of the network as their sender",
            Refused::Node(_) => "",
            Refused::NoSuchNode =>
                "there is no such node, or the event is for a node of the other kind",
            Refused::Memory => "memory was missing",
            Refused::BadNetwork =>
                "these nodes make no network: see that they are new, of the same hubs, and of different parties",
            Refused::Exhausted => "no number is left for an event",
        }
    }

    /// The refusal's number: `V1` to `V7`.
    pub fn number(&self) -> &'static str
        ensures { result.now ≡ refused_number self.now }
    {
        match self {
            Refused::NoSuchPacket => "V1",
            Refused::SpokenFor => "V2",
            Refused::Node(_) => "V3",
            Refused::NoSuchNode => "V4",
            Refused::Memory => "V5",
            Refused::BadNetwork => "V6",
            Refused::Exhausted => "V7",
        }
    }
}

impl fmt::Display for Refused {
    fn fmt<W: fmt::Write>(&self, f: &mut fmt::Formatter<W>) -> fmt::Result {
        f.write_str(self.sentence())?;
        match *self {
            Refused::Node(fault) => write!(f, "{fault}"),
            _ => Ok(()),
        }
    }
}

impl Error for Refused {}

impl From<StationFault> for Refused {
    ghost from_gives = { λ fault e. e ≡ Node (OfStation fault) };

    fn from(fault: StationFault) -> Refused {
        Refused::Node(NodeFault::OfStation(fault))
    }
}

impl From<CoreFault> for Refused {
    ghost from_gives = { λ fault e. e ≡ refused_by_core fault };

    fn from(fault: CoreFault) -> Refused {
        match fault {
            CoreFault::WrongKind => Refused::NoSuchNode,
            CoreFault::Memory => Refused::Memory,
            CoreFault::Node(fault) => Refused::Node(fault),
        }
    }
}

impl From<AllocError> for Refused {
    ghost from_gives = { λ _ e. e ≡ Memory };

    fn from(_: AllocError) -> Refused {
        Refused::Memory
    }
}

impl<T: Drop> From<AllocFailed<T>> for Refused {
    ghost from_gives = { λ _ e. e ≡ Memory };

    fn from(_: AllocFailed<T>) -> Refused {
        Refused::Memory
    }
}
