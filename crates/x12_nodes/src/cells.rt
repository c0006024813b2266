//! The cells of a network, by their numbers.

ghost use Rattle.std.specs.Prelude.{◌≡◌};
ghost use Rattle.std.specs.Option.{option_copied};
ghost use Rattle.x12_nodes.specs.Cells.{cell_at, split};

use crate::cell::NodeCell;
use x12_core::SECOND_HUB_NODE;
use x12_hub::HubRecords;
use x12_station::Records;

/// The cell of the node of this number, if there is one.
pub(crate) fn cell_of<R: Records, H: HubRecords>(
    cells: &[NodeCell<R, H>],
    node: u16,
) -> Option<&NodeCell<R, H>>
    ensures { option_copied result ≡ cell_at cells.now node }
{
    for cell in cells {
        if cell.node() == node {
            return Some(cell);
        }
    }
    None
}

/// The cells of the first hub and the stations, and that of the second hub, if the last has its number.
pub(crate) fn split<R: Records, H: HubRecords>(
    cells: &[NodeCell<R, H>],
) -> (&[NodeCell<R, H>], Option<&NodeCell<R, H>>)
    ensures listed { result.0.now ≡ (split cells.now).0 }
    ensures second { option_copied result.1 ≡ (split cells.now).1 }
{
    let Some((last, front)) = cells.split_last() else {
        return (cells, None);
    };
    if last.node() == SECOND_HUB_NODE {
        return (front, Some(last));
    }
    (cells, None)
}
