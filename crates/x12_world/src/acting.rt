//! An event that the network admits, at its node.

ghost use Rattle.std.specs.Prelude.{◌≡◌, ◌≤◌, None, IsTrue, IfOk, IfErr, OnErr, length, vec_len};
ghost use Rattle.x12_profile.specs.X12.{x12};
ghost use Rattle.x12_world.specs.Asking.{states_of};
ghost use Rattle.x12_world.specs.EventRefusal.{network_refusal};
ghost use Rattle.x12_world.specs.EventView.{event_view};
ghost use Rattle.x12_world.specs.Disks.{disks_beside, station_disks, KeepsEach};
ghost use Rattle.x12_world.specs.Failing.{failures_of, CountsOne};
ghost use Rattle.x12_world.specs.Refusing.{IsNetworkRefusal};
ghost use Rattle.x12_world.specs.Running.{AskedAnswers, hubs_in};
ghost use Rattle.x12_world.specs.Running.{nodes_answer, nodes_of, world_of};
ghost use Rattle.x12_world.specs.Runs.{running};
ghost use Rattle.x12_core.specs.Sends.{sends_view};
ghost use Rattle.x12_core.specs.Submission.{listed};
ghost use Rattle.x12_world.specs.Submission.{ListsMore};
ghost use Rattle.x12_world.specs.Taking.{IsTaken};

use crate::asked::asked;
use crate::at_hub::at_hub;
use crate::at_station::at_station;
use crate::event::Event;
use crate::hubs::Hubs;
use crate::packets::Held;
use crate::refused::Refused;
use std::alloc::Global;
use x12_core::Sends;
use x12_hub::HubRecords;
use x12_station::{Records, Station};

/// Does at its node what an event that was admitted asks for. V5 where an agreement can't be copied;
/// V3.
pub(crate) fn act<R: Records, H: HubRecords>(
    alloc: Global,
    hubs: &mut Hubs<H>,
    stations: &mut Vec<Station<R>>,
    held: &Held,
    event: &Event,
) -> Result<Sends, Refused>
    requires admitted { (vec_len stations.old ≤ 16) × (network_refusal x12
        (world_of hubs.old stations.old.items held.now.items) (event_view event.now) ≡ None) }
    ensures took { AskedAnswers (world_of hubs.old stations.old.items held.now.items)
        (event_view event.now) (running hubs.new stations.new.items held.now.items) →
        IfOk result (λ sends. IsTaken
        (world_of hubs.old stations.old.items held.now.items) (event_view event.now)
        (nodes_of (hubs_in hubs.new) stations.new.items) (sends_view sends)) }
    ensures submits { IsTrue (nodes_answer hubs.new stations.new.items) → IfOk result (λ sends.
        ListsMore (states_of stations.old.items) (states_of stations.new.items) (listed sends)) }
    ensures refused { AskedAnswers (world_of hubs.old stations.old.items held.now.items)
        (event_view event.now) (running hubs.new stations.new.items held.now.items) →
        IfErr result (IsNetworkRefusal
        (world_of hubs.old stations.old.items held.now.items) (event_view event.now)) }
    ensures unchanged { AskedAnswers (world_of hubs.old stations.old.items held.now.items)
        (event_view event.now) (running hubs.new stations.new.items held.now.items) → OnErr result
        (nodes_of (hubs_in hubs.new) stations.new.items
        ≡ nodes_of (hubs_in hubs.old) stations.old.items) }
    ensures store { CountsOne result
        (failures_of hubs.old stations.old.items) (failures_of hubs.new stations.new.items) }
    ensures disks { KeepsEach result (disks_beside hubs.old (station_disks stations.old.items))
        (disks_beside hubs.new (station_disks stations.new.items)) }
    ensures len { length stations.new.items ≡ length stations.old.items }
{
    let Some((node, ask)) = asked(held, event) else {
        return Err(Refused::NoSuchPacket);
    };
    let site = hubs.site(node);
    if hubs.have(node) {
        return Ok(at_hub(hubs, site, &ask)?);
    }
    Ok(at_station(alloc, stations, site, &ask)?)
}
