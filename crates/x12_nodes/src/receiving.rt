//! What is checked of the passes of a network's callers.

ghost use Rattle.std.specs.Prelude.{◌≡◌, map, IfOk};
ghost use Rattle.std.specs.List.{list_all};
ghost use Rattle.x12_nodes.specs.Receiving.{receipt_stands, stamps_passed, stamps_received};
ghost use Rattle.x12_nodes.specs.View.{receipt_view};

use crate::cell::NodeCell;
use crate::cells::cell_of;
use crate::log::Receipt;
use crate::merging::merge_all;
use crate::pass::Pass;
use std::alloc::{AllocError, Global};
use x12_hub::HubRecords;
use x12_station::Records;

/// Whether a receipt stands in the log of its node.
fn stands<R: Records, H: HubRecords>(cells: &[NodeCell<R, H>], receipt: &Receipt) -> bool
    ensures { result ≡ receipt_stands cells.now (receipt_view receipt.now) }
{
    match cell_of(cells, receipt.node) {
        Some(cell) => cell.has_taken(receipt),
        None => false,
    }
}

/// Whether each receipt of a pass stands in a log.
fn pass_stands<R: Records, H: HubRecords>(cells: &[NodeCell<R, H>], receipts: &[Receipt]) -> bool
    ensures { result ≡ list_all (receipt_stands cells.now) (map receipt_view receipts.now) }
{
    for receipt in receipts {
        if !stands(cells, receipt) {
            return false;
        }
    }
    true
}

/// Whether each receipt of each pass stands in a log.
pub(crate) fn all_stand<R: Records, H: HubRecords>(
    cells: &[NodeCell<R, H>],
    passes: &[Pass],
) -> bool
    ensures { result ≡ list_all (list_all (receipt_stands cells.now)) passes.now }
{
    for pass in passes {
        if !pass_stands(cells, pass.receipts()) {
            return false;
        }
    }
    true
}

/// The stamps of a pass.
fn received(alloc: Global, receipts: &[Receipt]) -> Result<Vec<u64>, AllocError>
    ensures { IfOk result (λ v. v.items ≡ stamps_received (map receipt_view receipts.now)) }
{
    let mut list = Vec::with_capacity(alloc, receipts.len())?;
    for receipt in receipts {
        list.push(receipt.stamp)?;
    }
    Ok(list)
}

/// The stamps of all passes, merged.
pub(crate) fn stamps_of_passes(alloc: Global, passes: &[Pass]) -> Result<Vec<u64>, AllocError>
    ensures { IfOk result (λ v. v.items ≡ stamps_passed passes.now) }
{
    let mut lists = Vec::with_capacity(alloc, passes.len())?;
    for pass in passes {
        lists.push(received(alloc, pass.receipts())?)?;
    }
    merge_all(alloc, &lists)
}
