//! What a node does of itself.

ghost use Rattle.std.specs.Prelude.{◌≡◌, ℕ};
ghost use Rattle.x12_core.specs.Action.{acts_so, node_served, submits};
ghost use Rattle.x12_core.specs.Node.{IsHub, IsStation};
ghost use Rattle.x12_core.specs.View.{action_view};
ghost use Rattle.x12_hub.specs.Hub.{Hub};
ghost use Rattle.x12_station.specs.Station.{Station};

use x12_envelopes::{Moment, Party};
use x12_judge::Agreement;
use x12_station::Body;

/// What a node does of itself, where its owner wants it. What writes carries its moment.
#[derive(Debug, Drop)]
pub enum Action {
    /// A station submits orders, each as a transaction set 850, as one interchange.
    SubmitOrders {
        /// The receiver.
        to: Party,
        /// When.
        at: Moment,
        /// The orders.
        orders: Vec<Body>,
    },
    /// A station submits an interchange that was prepared elsewhere.
    SubmitPrepared {
        /// The bytes from ISA through IEA.
        bytes: Vec<u8>,
    },
    /// A station sends again what is due.
    Tick {
        /// The tick.
        now: u64,
    },
    /// A hub sends what waits in the mailbox of a node.
    Collect {
        /// The node: a station, or the other hub.
        node: u16,
    },
    /// A station makes an agreement; one without pairs withdraws it.
    Agree {
        /// The agreement.
        agreement: Agreement,
    },
    /// A party gets its mailbox at a hub, for a node.
    Enrol {
        /// The party.
        party: Party,
        /// The node: a station, or the other hub.
        node: u16,
    },
    /// A party's entry is taken out of the hub's directory.
    Dismiss {
        /// The party.
        party: Party,
    },
    /// A node starts again over its records.
    Restart,
}

impl Action {
    /// The node whose mailbox it is about, if it is about one: 0 to 17.
    pub fn node_served(&self) -> Option<u16>
        ensures { result ≡ node_served (action_view self.now) }
    {
        match self {
            Action::Collect { node } => Some(*node),
            Action::Enrol { node, .. } => Some(*node),
            _ => None,
        }
    }

    /// Whether a station submits by it.
    pub fn submits(&self) -> bool
        ensures { result ≡ submits (action_view self.now) }
    {
        match self {
            Action::SubmitOrders { .. } => true,
            Action::SubmitPrepared { .. } => true,
            _ => false,
        }
    }

    /// Whether a station acts so.
    pub fn suits_station(&self) -> bool
        ensures { (i : ℕ) (s : Station) → result
            ≡ acts_so i (action_view self.now) (IsStation s) }
    {
        match self {
            Action::SubmitOrders { .. } => true,
            Action::SubmitPrepared { .. } => true,
            Action::Tick { .. } => true,
            Action::Collect { .. } => false,
            Action::Agree { .. } => true,
            Action::Enrol { .. } => false,
            Action::Dismiss { .. } => false,
            Action::Restart => true,
        }
    }

    /// Whether the hub of this node acts so: none has a mailbox at itself.
    pub fn suits_hub(&self, hub: u16) -> bool
        ensures { (h : Hub) → result ≡ acts_so hub (action_view self.now) (IsHub h) }
    {
        match self {
            Action::SubmitOrders { .. } => false,
            Action::SubmitPrepared { .. } => false,
            Action::Tick { .. } => false,
            Action::Collect { node } => hub != *node,
            Action::Agree { .. } => false,
            Action::Enrol { node, .. } => hub != *node,
            Action::Dismiss { .. } => true,
            Action::Restart => true,
        }
    }
}
