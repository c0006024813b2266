//! Why a hub refuses a call.

ghost use Rattle.std.specs.Prelude.{◌≡◌};
ghost use Rattle.x12_hub.specs.Fault.{hub_fault_number, fault_of_store};
ghost use Rattle.x12_hub.specs.declared.fault.HubFault.TheVariants.{Unreadable, Memory};

use crate::records::HubStoreFault;
use std::alloc::{AllocError, AllocFailed};
use thiserror::Error;
use x12_envelopes::HeaderFault;

/// Why a hub refuses a call: the first that holds. A refused call leaves the hub as it was.
#[derive(Clone, Copy, Debug, PartialEq, Eq, Error)]
pub enum HubFault {
    /// B1. The deposited bytes have no header (X12.5, ISA) that can be read, for this reason.
    #[error("the deposited bytes can not be routed: {0}")]
    Unreadable(HeaderFault),
    /// B2. No item number is left up to 999999999, or no interchange number for the hub's own TA1.
    #[error("no item or interchange number up to 999999999 is left: go on with another hub")]
    Exhausted,
    /// B3. The records' device failed, and counted it: what was asked stands whole or not at all, and
    /// the next start tells which.
    #[error("the hub's records failed: see to the device, then start the hub again")]
    Store,
    /// B4. Memory was missing.
    #[error("memory was missing: make the call again")]
    Memory,
}

impl HubFault {
    /// The fault's number: `B1` to `B4`.
    pub fn number(&self) -> &'static str
        ensures { result.now ≡ hub_fault_number self.now }
    {
        match self {
            HubFault::Unreadable(_) => "B1",
            HubFault::Exhausted => "B2",
            HubFault::Store => "B3",
            HubFault::Memory => "B4",
        }
    }
}

impl From<HeaderFault> for HubFault {
    ghost from_gives = { λ fault e. e ≡ Unreadable fault };

    fn from(fault: HeaderFault) -> HubFault {
        HubFault::Unreadable(fault)
    }
}

impl From<HubStoreFault> for HubFault {
    ghost from_gives = { λ fault e. e ≡ fault_of_store fault };

    fn from(fault: HubStoreFault) -> HubFault {
        match fault {
            HubStoreFault::Device => HubFault::Store,
            HubStoreFault::Memory => HubFault::Memory,
        }
    }
}

impl From<AllocError> for HubFault {
    ghost from_gives = { λ _ e. e ≡ Memory };

    fn from(_: AllocError) -> HubFault {
        HubFault::Memory
    }
}

impl<T: Drop> From<AllocFailed<T>> for HubFault {
    ghost from_gives = { λ _ e. e ≡ Memory };

    fn from(_: AllocFailed<T>) -> HubFault {
        HubFault::Memory
    }
}
