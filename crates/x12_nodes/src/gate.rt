//! A gate before a caller's calls: it can stop them, and hold a caller back.

ghost use Rattle.std.specs.Prelude.{◌≡◌, Bool, ℕ};
ghost use Rattle.x12_nodes.specs.declared.gate.GateFault.TheVariants.{Call};

use crate::fault::CallFault;
use thiserror::Error;

/// What a caller's calls go through. Both are told the node, and which call of this caller to it that
/// is, from 1. What a gate lets pass is its own.
pub trait Gate {
    /// Asked for this call of this node, it answered so.
    ghost lets: { Self → ℕ → ℕ → Bool → Type 0 };

    /// The node's lock is held, and no stamp was taken yet. False: the call isn't made.
    fn enter(&self, node: u16, call: u64) -> bool
        ensures { lets self.now node call result };

    /// The lock is free again. A gate that paces waits here, for a bounded time alone.
    fn leave(&self, node: u16, call: u64);
}

/// A gate, and which call of a caller to a node goes through it, from 1.
#[derive(Drop)]
pub struct GateCall<'g, G> {
    /// The gate.
    pub gate: &'g G,
    /// Which call.
    pub call: u64,
}

/// Why a call through a gate isn't made. The caller's pass is then as it was.
#[derive(Clone, Copy, Debug, PartialEq, Eq, Error)]
pub enum GateFault {
    /// The gate let it not pass: no stamp is used up.
    #[error("the gate let the call not pass")]
    Gate,
    /// The node refuses it.
    #[error("{0}")]
    Call(CallFault),
}

impl From<CallFault> for GateFault {
    ghost from_gives = { λ fault e. e ≡ Call fault };

    fn from(fault: CallFault) -> GateFault {
        GateFault::Call(fault)
    }
}
