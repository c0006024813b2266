//! A network whose nodes keep their records in memory: records that always answer.

ghost use Rattle.std.specs.Prelude.{IfOk, IfErr, IsTrue, List, map};
ghost use Rattle.x12_profile.specs.X12.{x12};
ghost use Rattle.x12_world.specs.EventView.{event_view};
ghost use Rattle.x12_world.specs.Headline.{Headline};
ghost use Rattle.x12_world.specs.Loss.{Happening, run_so};
ghost use Rattle.x12_world.specs.Ran.{RanAll, StoppedAt, outcome_view};
ghost use Rattle.x12_world.specs.Reach.{HoldsOnward, OfBoth};
ghost use Rattle.x12_world.specs.Running.{AllAnswer, all_answer};

use crate::event::Event;
use crate::outcome::Outcome;
use crate::refused::Refused;
use crate::world::World;
use x12_hub::{Hub, MemoryHubRecords};
use x12_station::{MemoryRecords, Station};

/// A network whose nodes keep their records in memory.
pub type MemoryWorld = World<MemoryRecords, MemoryHubRecords>;

/// The hub's records answer.
fn hub_answers(hub: &Hub<MemoryHubRecords>)
    ensures { IsTrue hub.now.answers }
{
    hub.records();
}

/// The stations' records answer.
fn stations_answer(stations: &[Station<MemoryRecords>])
    ensures { IsTrue (all_answer stations.now) }
{
    for station in stations {
        station.records();
    }
}

/// All records of the network answer.
fn network_answers(network: &MemoryWorld)
    ensures { AllAnswer network.now }
{
    hub_answers(&network.hubs.first);
    if let Some(second) = &network.hubs.second {
        hub_answers(second);
    }
    stations_answer(&network.stations);
}

/// Takes events as `World::run` does: up to the first that is refused, and then what is refused and
/// its place from 0. What that promises while records answer holds here without a premise.
///
/// Whatever was submitted, delivered, lost, repeated and restarted: a transaction set that its sender
/// holds as accepted or noted stands exactly once in its receiver's postings, byte for byte as
/// submitted; one held as rejected stands there not at all, then or after any longer run; a final
/// fate never changes; and once the sender has handled its interchange's kept acknowledgment, no set
/// of it is pending.
pub fn run_in_memory(
    network: &mut MemoryWorld,
    events: &[Event],
) -> Result<Vec<Outcome>, (usize, Refused)>
    ensures ran { IfOk result (λ os. RanAll network.old.world
        (map event_view events.now) (map outcome_view os.items) network.new.world) }
    ensures stopped { IfErr result (λ e.
        StoppedAt network.old.world (map event_view events.now) e.0 e.1 network.new.world) }
    ensures headline { Headline x12 network.old.world network.new.world
        × ((more : List Happening) →
        Headline x12 network.new.world (run_so x12 more network.new.world)) }
    ensures onward { OfBoth HoldsOnward network.old.world network.new.world }
{
    let told = network.run(events);
    // law: the network's records answer
    network_answers(network);
    told
}
