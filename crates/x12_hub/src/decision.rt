//! What a hub decides on deposited bytes.

ghost use Rattle.std.specs.Prelude.{◌≡◌, IfOk};
ghost use Rattle.x12_hub.specs.Record.{decision_view};

use std::alloc::{AllocError, Global};

/// What became of an interchange that was deposited, for good.
#[derive(Drop)]
pub enum Decision {
    /// It was put into the receiver's mailbox.
    Boxed {
        /// The node of the mailbox.
        node: u16,
        /// Its item number: 1 to 999999999.
        item: u32,
    },
    /// The receiver had no mailbox: it was refused with this interchange, a TA1 `R` with note 009.
    Refused(Vec<u8>),
}

impl Decision {
    /// A copy of the decision. `Err` where memory is missing.
    pub fn copied(&self, alloc: Global) -> Result<Decision, AllocError>
        ensures { IfOk result (λ d. decision_view d ≡ decision_view self.now) }
    {
        match self {
            Decision::Boxed { node, item } => Ok(Decision::Boxed {
                node: *node,
                item: *item,
            }),
            Decision::Refused(reply) => Ok(Decision::Refused(Vec::from_slice(alloc, reply)?)),
        }
    }
}
