//! What a core is asked: to act, to take what comes, or to tell how a transaction set fares.

ghost use Rattle.std.specs.Prelude.{◌≡◌, ℕ, IfErr, IfOk};
ghost use Rattle.x12_acks.specs.Key.{key_view};
ghost use Rattle.x12_core.specs.Ask.{suits, node_meant, Fate};
ghost use Rattle.x12_core.specs.Node.{IsHub, IsStation};
ghost use Rattle.x12_core.specs.View.{ask_view, ref_view};
ghost use Rattle.x12_hub.specs.Hub.{Hub};
ghost use Rattle.x12_station.specs.Station.{Station};

use crate::action::Action;
use crate::packet::{Load, PacketName};
use x12_acks::SetKey;
use x12_envelopes::Moment;

/// What a core is asked. What writes carries its moment.
#[derive(Debug, Drop)]
pub enum Ask {
    /// To act of itself.
    Do(Action),
    /// To take a packet that comes, for the first time or again.
    Deliver {
        /// Its name.
        packet: PacketName,
        /// The node that sent it.
        from: u16,
        /// What it carries.
        load: Load,
        /// When.
        at: Moment,
    },
    /// To take bytes that come from outside the network.
    Outside {
        /// The bytes.
        bytes: Vec<u8>,
        /// When.
        at: Moment,
    },
    /// To tell how the transaction set of this key fares.
    Fate {
        /// The key.
        key: SetKey,
    },
}

/// What changes a core, as it is asked: lent, so that nothing is copied.
#[derive(Drop)]
pub enum AskRef<'a> {
    /// To act of itself.
    Do(&'a Action),
    /// To take a packet that comes, for the first time or again.
    Deliver {
        /// Its name.
        packet: PacketName,
        /// The node that sent it.
        from: u16,
        /// What it carries.
        load: &'a Load,
        /// When.
        at: Moment,
    },
    /// To take bytes that come from outside the network.
    Outside {
        /// The bytes.
        bytes: &'a [u8],
        /// When.
        at: Moment,
    },
}

impl From<Action> for Ask {
    ghost use Rattle.x12_core.specs.declared.ask.Ask.TheVariants.{Do};

    ghost from_gives = { λ action ask. ask ≡ Do action };

    fn from(action: Action) -> Ask {
        Ask::Do(action)
    }
}

impl Ask {
    /// The same, lent; or the key of a transaction set, where its fate is asked for.
    pub(crate) fn lent<'a>(&'a self) -> Result<AskRef<'a>, &'a SetKey>
        ensures step { IfOk result (λ a. ref_view a ≡ ask_view self.now) }
        ensures fate { IfErr result (λ key. ask_view self.now ≡ Fate (key_view key.now)) }
    {
        match self {
            Ask::Do(action) => Ok(AskRef::Do(action)),
            Ask::Deliver {
                packet,
                from,
                load,
                at,
            } => Ok(AskRef::Deliver {
                packet: *packet,
                from: *from,
                load,
                at: *at,
            }),
            Ask::Outside { bytes, at } => Ok(AskRef::Outside { bytes, at: *at }),
            Ask::Fate { key } => Err(key),
        }
    }

    /// The node whose mailbox a hub is asked about, if it is asked about one: 0 to 17.
    pub fn node_meant(&self) -> Option<u16>
        ensures { result ≡ node_meant (ask_view self.now) }
    {
        match self {
            Ask::Do(action) => action.node_served(),
            _ => None,
        }
    }
}

impl<'a> AskRef<'a> {
    /// Whether a station is asked so.
    pub fn suits_station(&self) -> bool
        ensures { (i : ℕ) (s : Station) → result ≡ suits i (ref_view self.now) (IsStation s) }
    {
        match self {
            AskRef::Do(action) => action.suits_station(),
            AskRef::Deliver { load, .. } => !load.is_for_hubs(),
            AskRef::Outside { .. } => true,
        }
    }

    /// Whether the hub of this node is asked so.
    pub fn suits_hub(&self, hub: u16) -> bool
        ensures { (h : Hub) → result ≡ suits hub (ref_view self.now) (IsHub h) }
    {
        match self {
            AskRef::Do(action) => action.suits_hub(hub),
            AskRef::Deliver { .. } => true,
            AskRef::Outside { .. } => true,
        }
    }

    /// The node whose mailbox a hub is asked about, if it is asked about one: 0 to 17.
    pub fn node_meant(&self) -> Option<u16>
        ensures { result ≡ node_meant (ref_view self.now) }
    {
        match self {
            AskRef::Do(action) => action.node_served(),
            _ => None,
        }
    }
}
