//! The bytes of an interchange that goes out.

ghost use Rattle.std.specs.Prelude.{◌≡◌, IfOk};
ghost use Rattle.x12_station.specs.Outgoing.{outgoing_bytes};

use std::alloc::{AllocError, Global};
use std::sync::ArcSlice;

/// An interchange that goes out: its bytes, from ISA through IEA.
#[derive(Debug, Drop)]
pub enum Outgoing {
    /// Bytes of its own: of a reply.
    Own(Vec<u8>),
    /// Bytes that were submitted, shared with the ledger that holds them and with each sending.
    Shared(ArcSlice<u8>),
}

impl Outgoing {
    /// The bytes.
    pub fn bytes(&self) -> &[u8]
        ensures { result.now ≡ outgoing_bytes self.now }
    {
        match self {
            Outgoing::Own(bytes) => bytes,
            Outgoing::Shared(bytes) => bytes,
        }
    }

    /// A copy; of bytes that are shared, one sharer more.
    ///
    /// `Err` where memory is missing.
    pub fn copied(&self, alloc: Global) -> Result<Outgoing, AllocError>
        ensures { IfOk result (λ o. outgoing_bytes o ≡ outgoing_bytes self.now) }
    {
        Ok(match self {
            Outgoing::Own(bytes) => Outgoing::Own(Vec::from_slice(alloc, bytes)?),
            Outgoing::Shared(bytes) => Outgoing::Shared(bytes.clone()?),
        })
    }
}
