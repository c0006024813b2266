//! A network that runs: its hubs and its stations over their records, and the packets that were sent.

ghost use Rattle.std.specs.Prelude.{◌≡◌, List, ℕ, IfOk, IfErr, OnErr, option_map};
ghost use Rattle.std.specs.Option.{option_copied};
ghost use Rattle.x12_profile.specs.X12.{x12};
ghost use Rattle.x12_world.specs.Disks.{disks_of, KeepsEach};
ghost use Rattle.x12_world.specs.EventView.{event_view};
ghost use Rattle.x12_world.specs.Failing.{CountsOne};
ghost use Rattle.x12_world.specs.Packet.{packet_of};
ghost use Rattle.x12_world.specs.Ran.{Ran, outcome_view};
ghost use Rattle.x12_world.specs.Reach.{IsReachable};
ghost use Rattle.x12_world.specs.Refusing.{IsNetworkRefusal};
ghost use Rattle.x12_world.specs.Running.{AllAnswer, AskedAnswers, NoneWonBack};
ghost use Rattle.x12_world.specs.Running.{founders_answers, founders_clean};
ghost use Rattle.x12_world.specs.Running.{nodes_of};
ghost use Rattle.x12_core.specs.View.{name_view, packet_view};

use crate::applying::take;
use crate::event::Event;
use crate::hubs::Hubs;
use crate::outcome::Outcome;
use crate::packets::{Held, find};
use crate::refused::Refused;
use std::alloc::Global;
use std::marker::Model;
use x12_core::{Listed, Packet, PacketName};
use x12_hub::{Hub, HubRecords};
use x12_station::{Records, Station};

/// A network that runs: node 0 is its hub, nodes 1 to 16 are its stations, node 17 is a second hub, if
/// there is one, and what was sent may be delivered any number of times, in any order, or never.
///
/// What a call promises of a node holds while the records of that node answer; what is said of the whole
/// network, while those of all do.
pub struct World<R: Records, H: HubRecords> {
    pub(crate) alloc: Global,
    pub(crate) hubs: Hubs<H>,
    pub(crate) stations: Vec<Station<R>>,
    pub(crate) held: Held,
    pub(crate) submitted: Vec<Listed>,
}

impl<R: Records, H: HubRecords> Model for World<R, H> {
    ghost use Rattle.x12_world.specs.Running.{Running};
    ghost use Rattle.x12_world.specs.Runs.{Runs, running};

    ghost Value = { Running };

    ghost view = { λ w. running w.hubs w.stations.items w.held.items };

    ghost invariant = { λ w. Runs w.hubs w.stations.items w.held.items w.submitted.items };
}

impl<R: Records, H: HubRecords> World<R, H> {
    /// Takes an event: what the definition of the network makes of it, and what became of it.
    ///
    /// V7, V4, V1, V2, V5 and V3, the first that holds; the network is then as it was, and the event
    /// takes no number.
    pub fn apply(&mut self, event: &Event) -> Result<Outcome, Refused>
        ensures never_won_back { NoneWonBack self.old.answers self.new.answers }
        ensures ran { AskedAnswers self.old.world (event_view event.now) self.new → IfOk result (λ o.
            Ran self.old.world (event_view event.now) (outcome_view o) self.new.world) }
        ensures reached { AllAnswer self.new → IsReachable x12 self.new.world }

        ensures refused { AskedAnswers self.old.world (event_view event.now) self.new →
            IfErr result (IsNetworkRefusal self.old.world (event_view event.now)) }
        ensures unchanged { AskedAnswers self.old.world (event_view event.now) self.new →
            OnErr result (self.new.world ≡ self.old.world) }
        ensures store { CountsOne result self.old.failures self.new.failures }
        // of each node: over a disk that returned what was written an Ok keeps records answering
        ensures disks { KeepsEach result (disks_of self.old) (disks_of self.new) }
    {
        // law: what holds of each world that a network can reach
        crate::x12::reached();
        take(
            self.alloc,
            &mut self.hubs,
            &mut self.stations,
            &mut self.held,
            &mut self.submitted,
            event,
        )
    }

    /// The packet of this name; `None` where no such packet is held.
    pub fn packet(&self, name: &PacketName) -> Option<&Packet>
        ensures { option_map packet_view (option_copied result)
            ≡ packet_of self.now.world.packets (name_view name.now) }
    {
        find(&self.held, name)
    }

    /// Ends the network: its hub, its second hub, if it has one, and its stations come back as they are.
    pub fn end(self) -> (Hub<H>, Option<Hub<H>>, Vec<Station<R>>)
        ensures answers { founders_answers result.0 result.1 result.2.items ≡ self.answers }
        ensures clean { founders_clean result.0 result.1 result.2.items ≡ self.clean }
        ensures nodes { (homes : List ℕ) × (self.world.nodes ≡ nodes_of (record {
          first = result.0.hub;
          second = option_map (λ k. k.hub) result.1;
          homes = homes;
        }) result.2.items) }
    {
        let World {
            alloc: _,
            hubs,
            stations,
            held: _,
            submitted: _,
        } = self;
        let Hubs {
            first,
            second,
            homes: _,
        } = hubs;
        (first, second, stations)
    }
}
