//! A station that takes what came, at a moment.

use crate::node::{Answer, Node, NodeFault, Offer, Reason, sent_on};
use crate::offering::plain_offers;
use std::alloc::{AllocError, Global};
use x12_envelopes::{Moment, read_header};
use x12_station::{Records, Station, StationFault};

/// A station, and the moment at which it takes what came.
pub struct StationAt<R: Records> {
    /// Where memory is taken.
    pub alloc: Global,
    /// The station.
    pub station: Station<R>,
    /// The moment of the turn.
    pub at: Moment,
}

/// Why a station did nothing.
pub(crate) fn fault_of(fault: StationFault) -> NodeFault {
    match fault {
        StationFault::Exhausted => NodeFault::Exhausted,
        StationFault::Store => NodeFault::Store,
        _ => NodeFault::Memory,
    }
}

impl<R: Records> Node for StationAt<R> {
    ghost use Rattle.std.specs.Prelude.{◌≡◌};
    ghost use Rattle.x12_spool.specs.StationTurn.{IsArrivalAt, IsUnreadable, IsDueAt, IsSameStation};

    ghost takes = { λ old new b sends.
        IsArrivalAt old.at b old.station new.station sends × (new.at ≡ old.at) };

    ghost refuses = { λ old new b reason. IsUnreadable b reason };

    ghost frees = { λ old new item. new ≡ old };

    ghost offers = { λ old new now offered.
        IsDueAt now old.station new.station offered × (new.at ≡ old.at) };

    ghost stays = { λ old new. IsSameStation old.station new.station × (new.at ≡ old.at) };

    fn take(&mut self, bytes: &[u8]) -> Result<Answer, NodeFault> {
        if let Err(fault) = read_header(bytes) {
            return Ok(Answer::Refused(Reason::NoHeader(fault)));
        }
        match self.station.arrive(bytes, &self.at) {
            Ok(arrival) => Ok(Answer::Sends(sent_on(arrival.reply))),
            Err(fault) => Err(fault_of(fault)),
        }
    }

    fn free(&mut self, _item: u32) -> Result<(), NodeFault> {
        Ok(())
    }

    fn offer(&mut self, now: u64) -> Result<Vec<Offer>, NodeFault> {
        match self.station.tick(now) {
            Ok(due) => match plain_offers(self.alloc, due) {
                Ok(offers) => Ok(offers),
                Err(AllocError) => Err(NodeFault::Memory),
            },
            Err(fault) => Err(fault_of(fault)),
        }
    }
}
