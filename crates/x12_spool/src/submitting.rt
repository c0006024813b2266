//! A station that submits what was put into its folder of prepared interchanges.

ghost use Rattle.std.specs.Prelude.{◌≡◌, IfOk, OnOk, OnErr};
ghost use Rattle.x12_spool.specs.StationTurn.{IsSameStation};
ghost use Rattle.x12_spool.specs.SubmitTurn.{IsKnownAs, IsSentBefore, submitting};
ghost use Rattle.x12_spool.specs.Turn.{Does, TakesListed, StopsInListed};

use crate::node::{Answer, Node, NodeFault, Offer, Reason};
use crate::spool::Spool;
use crate::station::{StationAt, fault_of};
use crate::turn::{TurnFault, run_turn};
use std::alloc::Global;
use x12_envelopes::read_header;
use x12_station::{Outgoing, Records, Station, StationFault};

/// A station that submits what comes.
pub struct Submitting<R: Records> {
    /// Where memory is taken.
    pub alloc: Global,
    /// The station.
    pub station: Station<R>,
}

/// The bytes that a station submitted under the number of these, if it did.
fn known_as<R: Records>(
    station: &mut Station<R>,
    bytes: &[u8],
) -> Result<Option<Vec<u8>>, StationFault>
    ensures same { IsSameStation station.old station.new }
    ensures known { IfOk result (IsKnownAs station.old station.new bytes.now) }
{
    match read_header(bytes) {
        Ok(header) => station.submission(header.icn),
        Err(_) => Ok(None),
    }
}

/// Bytes whose number isn't new: sent before, if they are those of that number.
fn sent_before<R: Records>(station: &mut Station<R>, bytes: &[u8]) -> Result<Answer, NodeFault>
    ensures same { IsSameStation station.old station.new }
    ensures again { IfOk result (IsSentBefore station.old station.new bytes.now) }
{
    match known_as(station, bytes) {
        Ok(Some(known)) => {
            if known.as_slice() == bytes {
                Ok(Answer::Sends(Some(Outgoing::Own(known))))
            } else {
                Ok(Answer::Refused(Reason::NotSubmitted(StationFault::NotNew)))
            }
        }
        Ok(None) => Ok(Answer::Refused(Reason::NotSubmitted(StationFault::NotNew))),
        Err(fault) => Err(fault_of(fault)),
    }
}

impl<R: Records> Node for Submitting<R> {
    ghost use Rattle.std.specs.Prelude.{◌≡◌, []};
    ghost use Rattle.x12_spool.specs.StationTurn.{IsSameStation};
    ghost use Rattle.x12_spool.specs.SubmitTurn.{IsSubmittedNow, MayNotSubmit};

    ghost takes = { λ old new b sends. IsSubmittedNow b old.station new.station sends };

    ghost refuses = { λ old new b reason. MayNotSubmit b old.station new.station reason };

    ghost frees = { λ old new item. new ≡ old };

    ghost offers = { λ old new now offered. (new ≡ old) × (offered ≡ []) };

    ghost stays = { λ old new. IsSameStation old.station new.station };

    fn take(&mut self, bytes: &[u8]) -> Result<Answer, NodeFault> {
        match self.station.submit_prepared(bytes) {
            Ok(sent) => Ok(Answer::Sends(Some(Outgoing::Shared(sent.bytes)))),
            Err(StationFault::NotNew) => sent_before(&mut self.station, bytes),
            Err(StationFault::Exhausted) => Err(NodeFault::Exhausted),
            Err(StationFault::Store) => Err(NodeFault::Store),
            Err(StationFault::Memory) => Err(NodeFault::Memory),
            Err(fault) => Ok(Answer::Refused(Reason::NotSubmitted(fault))),
        }
    }

    fn free(&mut self, _item: u32) -> Result<(), NodeFault> {
        Ok(())
    }

    fn offer(&mut self, _now: u64) -> Result<Vec<Offer>, NodeFault> {
        Ok(Vec::new(self.alloc))
    }
}

/// A turn over a station's folder of prepared interchanges: each file that lies there is submitted, what
/// was submitted is put where it goes on, and only then is the file removed. The station comes back.
pub fn submit_turn<R: Records, P: Spool>(
    node: StationAt<R>,
    spool: &mut P,
) -> (StationAt<R>, Result<(), TurnFault>)
    ensures at { result.0.at ≡ node.at }
    ensures took { OnOk result.1 (Does (P.done spool.old) (P.done spool.new)
        (TakesListed ⟦<Submitting<R> as Node>⟧ (submitting node) (submitting result.0))) }
    ensures stopped { OnErr result.1 (Does (P.done spool.old) (P.done spool.new)
        (StopsInListed ⟦<Submitting<R> as Node>⟧ (submitting node) (submitting result.0))) }
{
    let StationAt { alloc, station, at } = node;
    let mut node = Submitting { alloc, station };
    let took = run_turn(alloc, &mut node, spool);
    let Submitting { alloc, station } = node;
    (StationAt { alloc, station, at }, took)
}
