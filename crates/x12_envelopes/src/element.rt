//! Segments as they are meant: from their elements, what reading tells of them from their bytes.

ghost use Rattle.std.specs.Prelude.{◌≡◌, ◌-◌, length, map};
ghost use Rattle.std.specs.List.{list_all};
ghost use Rattle.x12_envelopes.specs.Element.{elements_are_ta1, elements_are_gs, elements_are_st};
ghost use Rattle.x12_envelopes.specs.Envelope.{element_at, elements_view};
ghost use Rattle.x12_envelopes.specs.Fitting.{byte_is_writable, element_is_writable};
ghost use Rattle.x12_envelopes.specs.Fitting.{segment_ends_filled, segment_is_writable};

use crate::content::{have_st_form, have_ta1_form};
use crate::delimiters::Delims;
use crate::remaining::GroupHeader;
use std::convert::AsSlice;

/// An element of a segment by its place from 1, and the identifier at 0; empty where it is missing.
pub(crate) fn nth_element<E: AsSlice<u8>>(elements: &[E], n: usize) -> &[u8]
    ensures { result.now ≡ element_at (map E.items elements.now) n }
{
    match elements.get(n) {
        Some(element) => element.as_slice(),
        None => &[],
    }
}

/// How many elements follow the identifier.
fn element_count<E: AsSlice<u8>>(elements: &[E]) -> usize
    ensures { result ≡ length (map E.items elements.now) - 1 }
{
    elements.len().saturating_sub(1)
}

/// Whether these are the five elements of TA1.
#[tactic(auto, unfolding(crate::specs::Element::elements_are_ta1))]
pub(crate) fn are_ta1(elements: &[Vec<u8>]) -> bool
    ensures { result ≡ elements_are_ta1 (elements_view elements.now) }
{
    have_ta1_form(
        element_count(elements),
        nth_element(elements, 1),
        nth_element(elements, 2),
        nth_element(elements, 3),
        nth_element(elements, 4),
        nth_element(elements, 5),
    )
}

/// Whether these are the eight elements of GS.
#[tactic(auto, unfolding(crate::specs::Element::elements_are_gs))]
pub(crate) fn are_gs<E: AsSlice<u8>>(elements: &[E]) -> bool
    ensures { result ≡ elements_are_gs (map E.items elements.now) }
{
    let gs = GroupHeader {
        functional: nth_element(elements, 1),
        sender: nth_element(elements, 2),
        receiver: nth_element(elements, 3),
        date: nth_element(elements, 4),
        time: nth_element(elements, 5),
        number: nth_element(elements, 6),
        agency: nth_element(elements, 7),
        version: nth_element(elements, 8),
    };
    gs.has_form(element_count(elements))
}

/// Whether these are an ST's elements: the first two of their form.
#[tactic(auto, unfolding(crate::specs::Element::elements_are_st))]
pub(crate) fn are_st<E: AsSlice<u8>>(elements: &[E]) -> bool
    ensures { result ≡ elements_are_st (map E.items elements.now) }
{
    2 <= element_count(elements) && have_st_form(nth_element(elements, 1), nth_element(elements, 2))
}

/// Whether the last element isn't empty.
fn ends_filled<E: AsSlice<u8>>(elements: &[E]) -> bool
    ensures { result ≡ segment_ends_filled (map E.items elements.now) }
{
    match elements.last() {
        Some(element) => !element.as_slice().is_empty(),
        None => false,
    }
}

/// Whether a byte may stand in an element: neither the element separator nor the terminator,
/// and of those below 0x20 the component separator alone.
fn is_writable(delims: &Delims, b: u8) -> bool
    ensures { result ≡ byte_is_writable delims.now b }
{
    b != delims.element && b != delims.terminator && (0x20 <= b || b == delims.component)
}

/// Whether an element can be written.
#[tactic(auto, unfolding(crate::specs::Fitting::element_is_writable))]
fn is_element(delims: &Delims, element: &[u8]) -> bool
    ensures { result ≡ element_is_writable delims.now element.now }
{
    element.iter().all(|b| is_writable(delims, *b))
}

/// Whether each element can be written.
fn are_elements<E: AsSlice<u8>>(delims: &Delims, elements: &[E]) -> bool
    ensures { result ≡ list_all (element_is_writable delims.now) (map E.items elements.now) }
{
    for element in elements {
        if !is_element(delims, element.as_slice()) {
            return false;
        }
    }
    true
}

/// Whether a segment can be written: each of its elements can, and the last isn't empty.
#[tactic(auto, unfolding(crate::specs::Fitting::segment_is_writable))]
pub(crate) fn is_segment<E: AsSlice<u8>>(delims: &Delims, elements: &[E]) -> bool
    ensures { result ≡ segment_is_writable delims.now (map E.items elements.now) }
{
    are_elements(delims, elements) && ends_filled(elements)
}
