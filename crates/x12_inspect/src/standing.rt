//! The sets that stand in an interchange, whichever they are: what checking takes where no pair is
//! named.

ghost use Rattle.std.specs.Prelude.{◌≡◌, ◌++◌, flat_map, map, OnOk, IfOk, Ok};
ghost use Rattle.x12_envelopes.specs.declared.delimiters.Delims.{Delims};
ghost use Rattle.x12_envelopes.specs.Header.{header_of};
ghost use Rattle.x12_envelopes.specs.Outline.{outline_of};
ghost use Rattle.x12_envelopes.specs.Shape.{group_view};
ghost use Rattle.x12_inspect.specs.Standing.{pairs_of_group, pairs_standing};

use std::alloc::{AllocError, Global};
use x12_envelopes::{GroupView, Header, OutlineFault, outline};

/// GS01 and ST01 of sets.
pub(crate) type Pairs = Vec<([u8; 2], [u8; 3])>;

/// Adds GS01 and ST01 of each set of a group.
fn push_group(pairs: &mut Pairs, group: &GroupView<'_>) -> Result<(), AllocError>
    ensures { OnOk result ((d : Delims) →
        pairs.new.items ≡ pairs.old.items ++ pairs_of_group (group_view d group.now)) }
{
    for set in &group.sets {
        pairs.push((group.functional, set.set))?;
    }
    Ok(())
}

/// GS01 and ST01 of each set of these groups.
fn pairs_of_groups(alloc: Global, groups: &[GroupView<'_>]) -> Result<Pairs, AllocError>
    ensures { IfOk result (λ pairs. (d : Delims) →
        pairs.items ≡ flat_map pairs_of_group (map (group_view d) groups.now)) }
{
    let mut pairs = Pairs::new(alloc);
    for group in groups {
        push_group(&mut pairs, group)?;
    }
    Ok(pairs)
}

/// GS01 and ST01 of each set of an interchange with this header; none where its outline can't be read.
pub(crate) fn standing_pairs(
    alloc: Global,
    bytes: &[u8],
    header: &Header,
) -> Result<Pairs, AllocError>
    requires read { header_of bytes.now ≡ Ok header.now }
    ensures { IfOk result (λ pairs.
        pairs.items ≡ pairs_standing (outline_of header.now.delims bytes.now)) }
{
    match outline(alloc, bytes, header) {
        Ok(read) => pairs_of_groups(alloc, &read.groups),
        Err(fault) => {
            if let OutlineFault::Memory = fault {
                return Err(AllocError);
            }
            Ok(Pairs::new(alloc))
        }
    }
}
