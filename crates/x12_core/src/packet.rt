//! What goes over the links.

ghost use Rattle.std.specs.Prelude.{◌≡◌, Some, not};
ghost use Rattle.x12_core.specs.Ask.{is_for};
ghost use Rattle.x12_core.specs.Node.{IsStation};
ghost use Rattle.x12_core.specs.Packet.{kind_of_load};
ghost use Rattle.x12_core.specs.View.{kind_view, load_view};
ghost use Rattle.x12_station.specs.Station.{Station};

use x12_station::Outgoing;

/// The first hub's node. Stations have the numbers behind it, 1 to 16.
pub const HUB_NODE: u16 = 0;

/// The second hub's node, if there is one.
pub const SECOND_HUB_NODE: u16 = 17;

/// A site: the number of a node, and that of its hub. A hub's own number stands for both.
#[derive(Clone, Copy, Debug)]
pub struct Site {
    /// The node: 0 and 17 are hubs, 1 to 16 are stations.
    pub node: u16,
    /// Its hub: 0 or 17.
    pub hub: u16,
}

/// The name of a packet: the event that sent it, and its place among what that event sent.
#[derive(Clone, Copy, Debug, PartialEq, Eq)]
pub struct PacketName {
    /// The number of the event: 1 to 18446744073709551614.
    pub event: u64,
    /// The place among the packets of the event: 1 to 4294967295.
    pub place: u32,
}

/// What a packet carries. Interchanges are bytes from ISA through IEA.
#[derive(Debug, Drop)]
pub enum Load {
    /// An interchange for a hub.
    Deposit(Outgoing),
    /// An item of a mailbox: its number, 1 to 999999999, and its interchange.
    Item(u32, Vec<u8>),
    /// A hub's refusal of a deposit.
    Refusal(Vec<u8>),
    /// The item with this number came.
    Taken(u32),
}

/// A packet. It may be delivered any number of times, in any order, or never.
#[derive(Debug, Drop)]
pub struct Packet {
    /// The node that sent it: 0 and 17 are hubs, 1 to 16 are stations.
    pub from: u16,
    /// The node that it goes to.
    pub to: u16,
    /// What it carries.
    pub load: Load,
}

/// What a packet carries, without the bytes.
#[derive(Clone, Copy, Debug, PartialEq, Eq)]
pub enum Kind {
    /// An interchange for a hub.
    Deposit,
    /// An item of a mailbox, with its number.
    Item(u32),
    /// A hub's refusal of a deposit.
    Refusal,
    /// That the item with this number came.
    Taken(u32),
}

impl Load {
    /// What it is, without the bytes.
    pub fn kind(&self) -> Kind
        ensures { kind_view result ≡ kind_of_load (load_view self.now) }
    {
        match self {
            Load::Deposit(_) => Kind::Deposit,
            Load::Item(item, _) => Kind::Item(*item),
            Load::Refusal(_) => Kind::Refusal,
            Load::Taken(item) => Kind::Taken(*item),
        }
    }

    /// Whether hubs alone take it: a deposit or a report.
    pub fn is_for_hubs(&self) -> bool
        ensures { (s : Station) → not result ≡ is_for (load_view self.now) (Some (IsStation s)) }
    {
        match self {
            Load::Deposit(_) => true,
            Load::Taken(_) => true,
            Load::Item(_, _) => false,
            Load::Refusal(_) => false,
        }
    }
}
