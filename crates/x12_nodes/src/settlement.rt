//! The settlement of a network: what its nodes, its wire and the passes of its callers come to.

ghost use Rattle.std.specs.Prelude.{◌≡◌, ◌⊎◌, IfErr, IfOk, IsTrue, length};
ghost use Rattle.x12_nodes.specs.Settlement.{AreSettled};
ghost use Rattle.x12_nodes.specs.Settling.{all_cells_answer, IsInconsistent};
ghost use Rattle.x12_nodes.specs.declared.settling.SettleFault.{SettleFault};

use crate::cell::NodeCell;
use crate::node::Node;
use crate::pass::Pass;
use crate::settling::{SettleFault, check_network};
use crate::wire::Wire;
use std::alloc::Global;
use std::marker::Model;
use x12_hub::HubRecords;
use x12_station::Records;

/// What comes back of a network.
pub struct Parts<R: Records, H: HubRecords> {
    /// The nodes, where memory was missing for their cells; else none.
    pub nodes: Vec<Node<R, H>>,
    /// The cells that the nodes' locks guarded; none where the nodes come back.
    pub cells: Vec<NodeCell<R, H>>,
    /// The wire.
    pub wire: Wire,
    /// The passes.
    pub passes: Vec<Pass>,
}

/// A network that is settled: while the records of its nodes answer, their logs are one run, and the
/// passes have a receipt of each call in it.
///
/// It has no `Drop`, since its nodes have none: it is spent by `end`.
pub struct Settlement<R: Records, H: HubRecords> {
    pub(crate) alloc: Global,
    pub(crate) cells: Vec<NodeCell<R, H>>,
    pub(crate) wire: Wire,
    pub(crate) passes: Vec<Pass>,
}

impl<R: Records, H: HubRecords> Model for Settlement<R, H> {
    ghost use Rattle.std.specs.Prelude.{IsTrue};
    ghost use Rattle.x12_nodes.specs.Settlement.{AreSettled, SettlementView};
    ghost use Rattle.x12_nodes.specs.Settling.{all_cells_answer};

    ghost Value = { SettlementView };

    ghost view = { λ s. record {
      cells = s.cells.items;
      passes = s.passes.items;
      wire = s.wire;
    } };

    ghost invariant = { λ s. IsTrue (all_cells_answer s.cells.items) →
        AreSettled s.cells.items s.passes.items };
}

/// The cells of nodes; the nodes back where memory for them is missing.
fn end_all<R: Records, H: HubRecords>(
    alloc: Global,
    nodes: Vec<Node<R, H>>,
) -> Result<Vec<NodeCell<R, H>>, Vec<Node<R, H>>>
    ensures all { IfOk result (λ cells. length cells.items ≡ length nodes.items) }
    ensures back { IfErr result (λ v. v ≡ nodes) }
{
    let Ok(mut cells) = Vec::with_capacity(alloc, nodes.len()) else {
        return Err(nodes);
    };
    let mut left = nodes.into_iter();
    while let Some(node) = left.next() {
        cells.push_reserved(node.end());
    }
    left.destroy_empty();
    Ok(cells)
}

/// Settles a network: ends the sharing of its nodes, which come in the order of their numbers from 0,
/// and checks their logs and the passes of all callers. Where nothing is wrong, the logs are one run,
/// of whose end the headline holds, and each call in it has its receipt in one pass, in the order of
/// that pass; no pass has another.
///
/// `Memory`; else the first check that finds something wrong. All parts come back.
pub fn settle<R: Records, H: HubRecords>(
    alloc: Global,
    nodes: Vec<Node<R, H>>,
    wire: Wire,
    passes: Vec<Pass>,
) -> Result<Settlement<R, H>, (SettleFault, Parts<R, H>)>
    ensures settled { IfOk result (λ s. IsTrue (all_cells_answer s.cells) →
        AreSettled s.cells s.passes) }
    ensures all { IfOk result (λ s. (length s.cells ≡ length nodes.items)
        × (s.passes ≡ passes.items) × (s.wire ≡ wire)) }
    ensures inconsistent { IfErr result (λ e.
        IsInconsistent e.1.cells.items e.1.passes.items e.0) }
    ensures back { IfErr result (λ e. (e.1.passes ≡ passes) × (e.1.wire ≡ wire)) }
    ensures nodes { IfErr result (λ e. ((e.0 ≡ SettleFault.Memory) × (e.1.nodes ≡ nodes))
        ⊎ (length e.1.cells.items ≡ length nodes.items)) }
{
    let cells = match end_all(alloc, nodes) {
        Ok(cells) => cells,
        Err(nodes) => {
            let parts = Parts {
                nodes,
                cells: Vec::new(alloc),
                wire,
                passes,
            };
            return Err((SettleFault::Memory, parts));
        }
    };
    match check_network(alloc, &cells, &passes) {
        Ok(()) => Ok(Settlement {
            alloc,
            cells,
            wire,
            passes,
        }),
        Err(fault) => {
            let parts = Parts {
                nodes: Vec::new(alloc),
                cells,
                wire,
                passes,
            };
            Err((fault, parts))
        }
    }
}

impl<R: Records, H: HubRecords> Settlement<R, H> {
    /// Ends the settlement: its parts come back as they are.
    pub fn end(self) -> Parts<R, H>
        ensures settled { IsTrue (all_cells_answer result.cells.items) →
            AreSettled result.cells.items result.passes.items }
        ensures parts { (result.cells.items ≡ self.cells) × (result.passes.items ≡ self.passes)
            × (result.wire ≡ self.wire) }
    {
        let Settlement {
            alloc,
            cells,
            wire,
            passes,
        } = self;
        let nodes = Vec::new(alloc);
        Parts {
            nodes,
            cells,
            wire,
            passes,
        }
    }
}
