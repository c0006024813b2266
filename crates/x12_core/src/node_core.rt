//! A core: a station or a hub, and what it does where it is asked.

ghost use Rattle.std.specs.Prelude.{◌≡◌, ◌≤◌, ℕ, IsTrue, IfErr, IfOk, None, OnErr, Some, length};
ghost use Rattle.x12_core.specs.declared.packet.Site.{Site};
ghost use Rattle.x12_acks.specs.Key.{key_view};
ghost use Rattle.x12_core.specs.Ask.{does_at, suits, Fate};
ghost use Rattle.x12_core.specs.Bound.{core_bound, hub_bound, station_bound, SendsAtMost};
ghost use Rattle.x12_core.specs.Core.{core_answers, core_failures, node_of, Did, IsCoreRefusal};
ghost use Rattle.x12_core.specs.Disk.{asks_own, core_disk, hub_disk, station_disk};
ghost use Rattle.x12_core.specs.Disk.{CoreStopsWhole, HubStopsWhole, KeepsAnswers, StopsWhole};
ghost use Rattle.x12_core.specs.Fault.{CountsCore};
ghost use Rattle.x12_core.specs.Effect.{Effect};
ghost use Rattle.x12_core.specs.Node.{IsHub, IsStation};
ghost use Rattle.x12_core.specs.View.{ask_view};
ghost use Rattle.x12_profile.specs.X12.{x12};

use crate::action::Action;
use crate::ask::Ask;
use crate::fault::CoreFault;
use crate::hub_ask::ask_hub;
use crate::packet::Site;
use crate::sends::Sends;
use crate::station_ask::ask_station;
use std::alloc::Global;
use x12_acks::SetKey;
use x12_hub::{Hub, HubRecords};
use x12_station::{Records, Station};

/// A core: what a node is, without its number.
pub enum Core<R: Records, H: HubRecords> {
    /// A station.
    Station(Station<R>),
    /// A hub.
    Hub(Hub<H>),
}

/// What a core answers where it did as it was asked.
#[derive(Debug, Drop)]
pub enum Answer {
    /// This happened: it sends these packets.
    Sent(Sends),
    /// The set of the key fares so; `None` of one that this station never submitted.
    Fate(Option<x12_outbound::Fate>),
}

/// Tells how the transaction set of this key fares. L3.
fn tell<R: Records>(station: &mut Station<R>, key: &SetKey) -> Result<Answer, CoreFault>
    ensures never_won_back { IsTrue station.new.answers → IsTrue station.old.answers }
    ensures did { IsTrue station.new.answers → IfOk result (λ a. (site : Site) → Did site
        (Fate (key_view key.now)) (IsStation station.old.state) (IsStation station.new.state) a) }
    ensures refused { IfErr result (λ f. (node : ℕ) →
        IsCoreRefusal node (Fate (key_view key.now)) (IsStation station.old.state) f) }
    ensures unchanged { IsTrue station.new.answers →
        station.new.state ≡ station.old.state }
    ensures bounded { (most : ℕ) → IfOk result (SendsAtMost most) }
    ensures store { CountsCore result station.old.failures station.new.failures }
    ensures disk { IsTrue (asks_own (Fate (key_view key.now)) (IsStation station.old.state)) →
        KeepsAnswers result (station_disk station.old) (station_disk station.new) }
    ensures crash { StopsWhole R.Records None result station.old station.new }
{
    Ok(Answer::Fate(station.fate(key)?))
}

/// Asks the station of this site. L7, L4 and L3.
fn apply_to_station<R: Records>(
    alloc: Global,
    station: &mut Station<R>,
    site: Site,
    ask: &Ask,
) -> Result<Answer, CoreFault>
    ensures never_won_back { IsTrue station.new.answers → IsTrue station.old.answers }
    ensures did { IsTrue station.new.answers → IfOk result (Did site (ask_view ask.now)
        (IsStation station.old.state) (IsStation station.new.state)) }
    ensures refused { IsTrue station.new.answers → IfErr result
        (IsCoreRefusal site.node (ask_view ask.now) (IsStation station.old.state)) }
    ensures unchanged { IsTrue station.new.answers →
        OnErr result (station.new.state ≡ station.old.state) }
    ensures bounded { IfOk result
        (SendsAtMost (station_bound (ask_view ask.now) station.old.memory)) }
    ensures store { CountsCore result station.old.failures station.new.failures }
    ensures disk { IsTrue (asks_own (ask_view ask.now) (IsStation station.old.state)) →
        KeepsAnswers result (station_disk station.old) (station_disk station.new) }
    ensures crash { StopsWhole R.Records
        (does_at x12 site (ask_view ask.now) (IsStation station.old.state))
        result station.old station.new }
{
    match ask.lent() {
        Ok(lent) => Ok(Answer::Sent(ask_station(alloc, station, site, &lent)?)),
        Err(key) => tell(station, key),
    }
}

/// Asks the hub of this site. L7 and L3.
fn apply_to_hub<H: HubRecords>(hub: &mut Hub<H>, site: Site, ask: &Ask) -> Result<Answer, CoreFault>
    ensures disk { KeepsAnswers result (hub_disk hub.old) (hub_disk hub.new) }
    ensures crash { HubStopsWhole H.HubRecords
        (does_at x12 site (ask_view ask.now) (IsHub hub.old.hub)) result hub.old hub.new }
    ensures did { IsTrue hub.new.answers → IfOk result
        (Did site (ask_view ask.now) (IsHub hub.old.hub) (IsHub hub.new.hub)) }
    ensures refused { IsTrue hub.new.answers →
        IfErr result (IsCoreRefusal site.node (ask_view ask.now) (IsHub hub.old.hub)) }
    ensures unchanged { IsTrue hub.new.answers → OnErr result (hub.new.hub ≡ hub.old.hub) }
    ensures bounded { IfOk result (SendsAtMost (hub_bound (ask_view ask.now) hub.old.memory)) }
    ensures store { CountsCore result hub.old.failures hub.new.failures }
{
    match ask.lent() {
        Ok(lent) => Ok(Answer::Sent(ask_hub(hub, site, &lent)?)),
        Err(_) => Err(CoreFault::WrongKind),
    }
}

impl<R: Records, H: HubRecords> Core<R, H> {
    /// Does what the node of this site, which this core is, is asked: one step of it, or it tells a
    /// fate. What this promises of the step holds while the core's records answer; it never sends more
    /// packets than [`Core::bound`] told before, whether they answer or not.
    ///
    /// L7, L4 and L3, the first that holds; the node is then as it was.
    pub fn apply(&mut self, alloc: Global, site: Site, ask: &Ask) -> Result<Answer, CoreFault>
        ensures never_won_back { IsTrue (core_answers self.new) → IsTrue (core_answers self.old) }
        ensures did { IsTrue (core_answers self.new) → IfOk result
            (Did site (ask_view ask.now) (node_of self.old) (node_of self.new)) }
        ensures refused { IsTrue (core_answers self.new) →
            IfErr result (IsCoreRefusal site.node (ask_view ask.now) (node_of self.old)) }
        ensures unchanged { IsTrue (core_answers self.new) →
            OnErr result (node_of self.new ≡ node_of self.old) }
        ensures bounded { IfOk result (SendsAtMost (core_bound (ask_view ask.now) self.old)) }
        ensures store { CountsCore result (core_failures self.old) (core_failures self.new) }
        // of a fate of another's set, which asks no records, the disk tells nothing
        ensures disk { IsTrue (asks_own (ask_view ask.now) (node_of self.old)) →
            KeepsAnswers result (core_disk self.old) (core_disk self.new) }
        ensures crash { CoreStopsWhole R.Records H.HubRecords
            (does_at x12 site (ask_view ask.now) (node_of self.old)) result self.old self.new }
    {
        match self {
            Core::Station(station) => apply_to_station(alloc, station, site, ask),
            Core::Hub(hub) => apply_to_hub(hub, site, ask),
        }
    }

    /// Whether the node of this number, which this core is, is asked so.
    pub fn suits(&self, node: u16, ask: &Ask) -> bool
        ensures { result ≡ suits node (ask_view ask.now) (node_of self.now) }
    {
        match self {
            Core::Station(_) => match ask.lent() {
                Ok(lent) => lent.suits_station(),
                Err(_) => true,
            },
            Core::Hub(_) => match ask.lent() {
                Ok(lent) => lent.suits_hub(node),
                Err(_) => false,
            },
        }
    }

    /// How many packets the node sends at most, where it is asked so: at a tick those that are open,
    /// at a collection those that wait, and else two.
    pub fn bound(&self, ask: &Ask) -> usize
        ensures is { result ≡ core_bound (ask_view ask.now) self.now }
        ensures does { IsTrue (core_answers self.now) → (i : Site) (e : Effect) →
            does_at x12 i (ask_view ask.now) (node_of self.now) ≡ Some e → length e.sends ≤ result }
    {
        match self {
            Core::Station(station) => match ask {
                Ask::Do(Action::Tick { .. }) => station.open_count() as usize,
                _ => 2,
            },
            Core::Hub(hub) => match ask {
                Ask::Do(Action::Collect { node }) => hub.waiting(*node),
                _ => 2,
            },
        }
    }
}
