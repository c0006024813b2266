//! What a node was when its cell was made.

ghost use Rattle.std.specs.Prelude.{◌≡◌};
ghost use Rattle.x12_core.specs.Core.{node_of};
ghost use Rattle.x12_nodes.specs.Cell.{opening_node, IsNewCore};

use x12_core::Core;
use x12_envelopes::Party;
use x12_hub::HubRecords;
use x12_station::Records;

/// A node with empty records.
#[derive(Clone, Copy)]
pub(crate) enum Opening {
    /// The hub of this party.
    Hub(Party),
    /// A station of this party, which believes this hub, and the one that this is connected to, if
    /// there is one.
    Station(Party, Party, Option<Party>),
}

/// What a core is, which was asked to do nothing yet.
pub(crate) fn opening_of<R: Records, H: HubRecords>(core: &Core<R, H>) -> Opening
    ensures { IsNewCore core.now → opening_node result ≡ node_of core.now }
{
    match core {
        Core::Hub(hub) => Opening::Hub(hub.party()),
        Core::Station(station) => {
            Opening::Station(station.party(), station.hub(), station.other())
        }
    }
}
