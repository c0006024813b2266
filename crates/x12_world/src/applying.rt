//! An event of a network: admitted, done at its node, and what it sends held.

ghost use Rattle.std.specs.Prelude.{◌≡◌, ◌+◌, ◌<◌, ◌≤◌, ◌++◌, ◌-◌, [], IsTrue, IfOk, IfErr, OnErr, length, map};
ghost use Rattle.std.specs.Prelude.{vec_len, vec_capacity, if◌then◌else◌};
ghost use Rattle.x12_world.specs.Asking.{states_of};
ghost use Rattle.x12_world.specs.EventView.{event_view};
ghost use Rattle.x12_world.specs.Disks.{disks_beside, station_disks, KeepsEach};
ghost use Rattle.x12_world.specs.Failing.{failures_of, CountsOne};
ghost use Rattle.x12_world.specs.Outcome.{told_packet};
ghost use Rattle.x12_world.specs.Packet.{named};
ghost use Rattle.x12_world.specs.Ran.{Ran, outcome_view};
ghost use Rattle.x12_world.specs.Refusing.{IsNetworkRefusal};
ghost use Rattle.x12_world.specs.Running.{AskedAnswers, nodes_answer};
ghost use Rattle.x12_world.specs.Running.{world_of};
ghost use Rattle.x12_world.specs.Runs.{running};
ghost use Rattle.x12_core.specs.Sends.{sends_view};
ghost use Rattle.x12_world.specs.Submission.{AreListed};
ghost use Rattle.x12_core.specs.View.{packet_view};
ghost use Rattle.x12_world.specs.View.{held_view, told_view};

use crate::acting::act;
use crate::admitting::admit;
use crate::event::Event;
use crate::hubs::Hubs;
use crate::outcome::{Outcome, ToldPacket};
use crate::packets::{Held, hold, told};
use crate::refused::Refused;
use crate::submission::list;
use std::alloc::{AllocError, Global};
use x12_core::{Listed, Packet, Sends};
use x12_hub::HubRecords;
use x12_station::{Records, Station};

/// The packets of an event, and what is told of them. `Err` where memory is missing.
fn packed(
    alloc: Global,
    event: u64,
    sends: Sends,
) -> Result<(Vec<Packet>, Vec<ToldPacket>), AllocError>
    ensures packets { IfOk result (λ p. map packet_view p.0.items ≡ sends_view sends) }
    ensures told { IfOk result (λ p. map told_view p.1.items
        ≡ map told_packet (named event 1 (sends_view sends))) }
{
    let packets = sends.into_packets(alloc)?;
    let told = told(alloc, event, &packets)?;
    Ok((packets, told))
}

/// Holds what an event sends, or none of it where memory is missing.
fn keep(alloc: Global, held: &mut Held, event: u64, sends: Sends) -> Outcome
    requires room { vec_len held.old < vec_capacity held.old }
    requires next { event ≡ vec_len held.old + 1 }
    ensures held { held_view held.new.items ≡ (if result.lost then held_view held.old.items
        else held_view held.old.items ++ named event 1 (sends_view sends)) }
    ensures len { vec_len held.new ≡ vec_len held.old + 1 }
    ensures outcome { outcome_view result ≡ record {
      event = event;
      packets = if result.lost then [] else map told_packet (named event 1 (sends_view sends));
      lost = result.lost;
    } }
{
    match packed(alloc, event, sends) {
        Ok((packets, told)) => {
            hold(held, packets);
            Outcome {
                event,
                packets: told,
                lost: false,
            }
        }
        Err(AllocError) => {
            hold(held, Vec::new(alloc));
            Outcome {
                event,
                packets: Vec::new(alloc),
                lost: true,
            }
        }
    }
}

/// Takes an event, or refuses it: V7, V4, V1, V2, V5 and V3, the first that holds. A refused event
/// leaves the network as it was.
pub(crate) fn take<R: Records, H: HubRecords>(
    alloc: Global,
    hubs: &mut Hubs<H>,
    stations: &mut Vec<Station<R>>,
    held: &mut Held,
    submitted: &mut Vec<Listed>,
    event: &Event,
) -> Result<Outcome, Refused>
    requires few { vec_len stations.old ≤ 16 }
    ensures ran { AskedAnswers (world_of hubs.old stations.old.items held.old.items)
        (event_view event.now) (running hubs.new stations.new.items held.new.items) →
        IfOk result (λ o. Ran
        (world_of hubs.old stations.old.items held.old.items) (event_view event.now)
        (outcome_view o) (world_of hubs.new stations.new.items held.new.items)) }
    ensures refused { AskedAnswers (world_of hubs.old stations.old.items held.old.items)
        (event_view event.now) (running hubs.new stations.new.items held.new.items) →
        IfErr result (IsNetworkRefusal
        (world_of hubs.old stations.old.items held.old.items) (event_view event.now)) }
    ensures unchanged { AskedAnswers (world_of hubs.old stations.old.items held.old.items)
        (event_view event.now) (running hubs.new stations.new.items held.new.items) →
        OnErr result (world_of hubs.new stations.new.items held.new.items
        ≡ world_of hubs.old stations.old.items held.old.items) }
    ensures listed { IsTrue (nodes_answer hubs.new stations.new.items) →
        AreListed (states_of stations.old.items) submitted.old.items →
        AreListed (states_of stations.new.items) submitted.new.items }
    ensures store { CountsOne result
        (failures_of hubs.old stations.old.items) (failures_of hubs.new stations.new.items) }
    ensures disks { KeepsEach result (disks_beside hubs.old (station_disks stations.old.items))
        (disks_beside hubs.new (station_disks stations.new.items)) }
    ensures len { length stations.new.items ≡ length stations.old.items }
{
    let number = admit(hubs, stations, held, event)?;
    held.reserve(1)?;
    submitted.reserve(1)?;
    let sends = act(alloc, hubs, stations, held, event)?;
    list(submitted, &sends);
    Ok(keep(alloc, held, number, sends))
}
