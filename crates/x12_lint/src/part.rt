//! The segments of a set, and the elements of a segment, cut once.

ghost use Rattle.std.specs.Prelude.{◌≡◌, IfOk, OnOk};
ghost use Rattle.x12_envelopes.specs.Segment.{parts_of, element_of};
ghost use Rattle.x12_envelopes.specs.Writing.{texts};
ghost use Rattle.x12_lint.specs.Linting.{AreElements};

use std::alloc::{AllocError, Global};
use x12_envelopes::{Delims, cut_at, cut_segment};

/// The segments of a set.
pub(crate) fn segments_of<'r>(
    alloc: Global,
    delims: &Delims,
    set: &'r [u8],
) -> Result<Vec<&'r [u8]>, AllocError>
    ensures { IfOk result (λ parts. texts parts.items ≡ parts_of delims.now set.now) }
{
    let mut parts = Vec::new(alloc);
    let mut rest = set;
    while let Some((part, behind)) = cut_segment(delims, rest) {
        parts.push(part)?;
        rest = behind;
    }
    Ok(parts)
}

/// Puts the identifier and the elements of a segment in the place of what was cut before.
pub(crate) fn cut_elements<'r>(
    delims: &Delims,
    part: &'r [u8],
    elements: &mut Vec<&'r [u8]>,
) -> Result<(), AllocError>
    ensures { OnOk result (AreElements delims.now part.now elements.new.items) }
{
    elements.clear();
    let mut rest = part;
    while let Some((element, behind)) = cut_at(delims.element, rest) {
        elements.push(element)?;
        rest = behind;
    }
    Ok(elements.push(rest)?)
}

/// The element at a place of a segment that was cut into these; empty where it is missing.
pub(crate) fn element_at<'r>(
    delims: &Delims,
    part: &[u8],
    elements: &[&'r [u8]],
    place: usize,
) -> &'r [u8]
    requires { AreElements delims.now part.now elements.now }
    ensures { result.now ≡ element_of delims.now part.now place }
{
    match elements.get(place) {
        Some(element) => element,
        None => &[],
    }
}
