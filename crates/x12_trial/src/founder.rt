//! Who opens the nodes of a trial network.
ghost use Rattle.std.specs.Prelude.{IsTrue};
ghost use Rattle.x12_envelopes.specs.Party.{is_plain_party};

use crate::fault::TrialFault;
use std::alloc::{AllocError, Global};
use x12_envelopes::Party;
use x12_hub::{Hub, HubRecords, MemoryHubRecords};
use x12_station::{MemoryRecords, Records, Station};

/// Who opens the nodes of a trial network, over records that hold nothing yet.
pub trait Founder {
    /// A station's records.
    type Station: Records + Send + Drop;
    /// A hub's records.
    type Hub: HubRecords + Send + Drop;
    /// Why a node isn't opened.
    type Fault: From<AllocError> + Drop;

    /// The hub of this party.
    fn hub(&mut self, me: Party) -> Result<Hub<Self::Hub>, Self::Fault>
        requires { IsTrue (is_plain_party me) };

    /// The station of this party at this hub, which is connected to the other one, if there is one.
    fn station(
        &mut self,
        me: Party,
        hub: Party,
        other: Option<Party>,
    ) -> Result<Station<Self::Station>, Self::Fault>
        requires { IsTrue (is_plain_party me) };
}

/// Opens nodes over records in memory.
#[derive(Clone, Copy)]
pub struct InMemory {
    /// Where the memory is from.
    pub alloc: Global,
}

impl Founder for InMemory {
    type Station = MemoryRecords;

    type Hub = MemoryHubRecords;

    type Fault = TrialFault;

    fn hub(&mut self, me: Party) -> Result<Hub<MemoryHubRecords>, TrialFault> {
        match Hub::open(self.alloc, me, MemoryHubRecords::new(self.alloc, me)) {
            Ok(hub) => Ok(hub),
            Err(_) => Err(TrialFault::Memory),
        }
    }

    fn station(
        &mut self,
        me: Party,
        hub: Party,
        other: Option<Party>,
    ) -> Result<Station<MemoryRecords>, TrialFault> {
        let records = MemoryRecords::new(self.alloc, me, hub, other);
        match Station::open(self.alloc, me, hub, other, records) {
            Ok(station) => Ok(station),
            Err(_) => Err(TrialFault::Memory),
        }
    }
}
