//! The hubs of a network, beside its stations.

ghost use Rattle.std.specs.Prelude.{◌≡◌, ◌∷◌, get_or, is_some, map, option_map};
ghost use Rattle.std.specs.Prelude.{option_to_list};
ghost use Rattle.std.specs.List.{list_any};
ghost use Rattle.x12_judge.specs.Agreement.{is_same_party};
ghost use Rattle.x12_core.specs.Node.{IsHub, hub_node, second_hub_node};
ghost use Rattle.x12_world.specs.Nodes.{by_number, is_hub_number};
ghost use Rattle.x12_world.specs.Running.{hubs_in};

use x12_core::{HUB_NODE, SECOND_HUB_NODE, Site};
use x12_envelopes::Party;
use x12_hub::{Hub, HubRecords};

/// The hubs of a network, and at which of them its stations are.
pub(crate) struct Hubs<H: HubRecords> {
    /// The hub of node 0.
    pub first: Hub<H>,
    /// The hub of node 17, if there is one.
    pub second: Option<Hub<H>>,
    /// The number of each station's hub, in the order of the stations.
    pub homes: Vec<u16>,
}

impl<H: HubRecords> Hubs<H> {
    /// Whether the second hub, if there is one, has this party.
    pub(crate) fn is_second(&self, party: &Party) -> bool
        ensures { result ≡ list_any (is_same_party party.now)
            (map (λ k. k.me) (option_to_list (hubs_in self.now).second)) }
    {
        match &self.second {
            Some(hub) => *party == hub.party(),
            None => false,
        }
    }

    /// Whether a number is that of one of these hubs.
    pub(crate) fn have(&self, node: u16) -> bool
        ensures { result ≡ is_hub_number (is_some self.now.second) node }
    {
        node == HUB_NODE || (self.second.is_some() && node == SECOND_HUB_NODE)
    }

    /// The number of the hub of a listed node: a station, or the first hub itself.
    fn listed_home(&self, node: u16) -> u16
        ensures { result ≡ get_or (hub_node ∷ self.now.homes.items) node hub_node }
    {
        if node == HUB_NODE {
            return HUB_NODE;
        }
        match self.homes.get(node as usize - 1) {
            Some(home) => *home,
            None => HUB_NODE,
        }
    }

    /// Where the node of a number stands.
    pub(crate) fn site(&self, node: u16) -> Site
        ensures node { result.node ≡ node }
        ensures hub { result.hub ≡ by_number node
            (get_or (hub_node ∷ self.now.homes.items) node hub_node) second_hub_node
            (option_map IsHub (hubs_in self.now).second) }
    {
        let hub = match self.second.is_some() && node == SECOND_HUB_NODE {
            true => SECOND_HUB_NODE,
            false => self.listed_home(node),
        };
        Site { node, hub }
    }
}
