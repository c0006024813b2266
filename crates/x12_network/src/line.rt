//! The wire, as links read it: the names of packets, by the way that each goes.

ghost use Rattle.std.specs.Prelude.{IfOk, IfSome, IsTrue};
ghost use Rattle.x12_core.specs.View.{name_view};
ghost use Rattle.x12_network.specs.Deliveries.{IsBehind};
ghost use Rattle.x12_nodes.specs.Wire.{name_is_above};

use std::sync::Wait;
use x12_core::PacketName;
use x12_links::{Halt, Way};
use x12_nodes::Wire;

/// The name below that of every packet.
const NO_NAME: PacketName = PacketName { event: 0, place: 0 };

/// A wire whose packets links take by their names.
#[derive(Drop)]
pub(crate) struct Line<'w> {
    pub wire: &'w Wire,
}

impl Line<'_> {
    /// The name of the next packet that goes this way, above this name.
    fn next_above<R: Wait>(
        &self,
        rt: &R,
        way: Way,
        after: &PacketName,
    ) -> Result<Option<PacketName>, Halt>
        ensures { IfOk result (λ o. IfSome o (λ name.
            IsTrue (name_is_above (name_view after.now) (name_view name)))) }
    {
        match self.wire.next(rt, way.from, way.to, after)? {
            Some((name, _)) => Ok(Some(name)),
            None => Ok(None),
        }
    }
}

impl x12_links::Wire<PacketName> for Line<'_> {
    ghost use Rattle.x12_network.specs.Deliveries.{IsBehind};

    ghost follows = { λ line way after name. IsBehind after name };

    fn next<R: Wait>(
        &self,
        rt: &R,
        way: Way,
        after: Option<PacketName>,
    ) -> Result<Option<PacketName>, Halt>
        ensures { IfOk result (λ o. IfSome o (λ name. IsBehind after name)) }
    {
        match after {
            Some(name) => self.next_above(rt, way, &name),
            None => self.next_above(rt, way, &NO_NAME),
        }
    }
}
