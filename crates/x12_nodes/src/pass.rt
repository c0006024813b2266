//! What a caller has of its calls.

ghost use Rattle.std.specs.Prelude.{◌≡◌, [], map};
ghost use Rattle.x12_nodes.specs.View.{receipt_view};

use crate::log::Receipt;
use std::alloc::Global;
use std::marker::Model;

/// A caller's receipts, in the order of its calls: its run of the network, as it saw it.
///
/// It has no `Drop`, since an event in no pass is one that nobody answers for: it is spent by
/// `settle`, or let go by `discard`.
pub struct Pass {
    pub(crate) receipts: Vec<Receipt>,
}

impl Model for Pass {
    ghost use Rattle.std.specs.Prelude.{List, map};
    ghost use Rattle.x12_nodes.specs.View.{receipt_view, Receipt};

    ghost Value = { List Receipt };

    ghost view = { λ p. map receipt_view p.receipts.items };
}

impl Pass {
    /// A pass of no calls.
    pub fn new(alloc: Global) -> Pass
        ensures { result ≡ [] }
    {
        Pass {
            receipts: Vec::new(alloc),
        }
    }

    /// Its receipts, in the order of the calls.
    pub fn receipts(&self) -> &[Receipt]
        ensures { map receipt_view result.now ≡ self.now }
    {
        &self.receipts
    }

    /// Lets the pass go. What its calls did stays done, and no later settlement of the nodes finds
    /// them in a pass.
    pub fn discard(self) {
        let Pass { receipts: _ } = self;
    }
}
