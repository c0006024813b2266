//! Orders that are to be written as transaction sets 850 (X12.5, X12.6).

ghost use Rattle.std.specs.Prelude.{◌≡◌, map, IfOk};
ghost use Rattle.std.specs.List.{list_all, list_any};
ghost use Rattle.x12_envelopes.specs.Envelope.{elements_view};
ghost use Rattle.x12_envelopes.specs.Fitting.{field_is_writable};
ghost use Rattle.x12_envelopes.specs.Header.{is_barred};
ghost use Rattle.x12_profile.specs.Order.{is_order, order_delimiters};
ghost use Rattle.x12_station.specs.Ordering.{order_view};

use std::alloc::{AllocError, Global};
use x12_envelopes::{Delims, is_data_segment};

/// An order, to be written as a transaction set 850.
#[derive(Debug, Drop)]
pub struct Body {
    /// The segments between ST and SE: each its identifier, then its elements.
    pub segments: Vec<Vec<Vec<u8>>>,
}

/// The delimiters of orders.
pub(crate) const DELIMS: Delims = Delims {
    element: b'*',
    component: b':',
    terminator: b'~',
};

/// Whether a byte can't stand in an element of an order: a delimiter, or one below 0x20.
fn bars(byte: u8) -> bool
    ensures { result ≡ is_barred order_delimiters byte }
{
    byte == b'*' || byte == b':' || byte == b'~' || byte < 0x20
}

/// Whether a text has a byte that can't stand in an element of an order.
fn has_barred(text: &[u8]) -> bool
    ensures { result ≡ list_any (is_barred order_delimiters) text.now }
{
    text.iter().any(|byte| bars(*byte))
}

/// Whether an element of an order may hold this.
#[tactic(auto, unfolding(x12_envelopes::specs::Fitting::field_is_writable))]
fn is_free(text: &[u8]) -> bool
    ensures { result ≡ field_is_writable order_delimiters text.now }
{
    !has_barred(text)
}

/// Whether elements of an order may hold these.
fn are_free(elements: &[Vec<u8>]) -> bool
    ensures { result ≡ list_all (field_is_writable order_delimiters) (elements_view elements.now) }
{
    for element in elements {
        if !is_free(element) {
            return false;
        }
    }
    true
}

impl Body {
    /// Whether the order can be written as segments (S3).
    pub(crate) fn is_order(&self) -> bool
        ensures { result ≡ is_order (order_view self.now) }
    {
        for segment in &self.segments {
            if !is_data_segment(&DELIMS, segment) || !are_free(segment) {
                return false;
            }
        }
        true
    }
}

/// A segment of these elements.
fn segment(alloc: Global, elements: &[&[u8]]) -> Result<Vec<Vec<u8>>, AllocError>
    ensures { IfOk result (λ s.
        elements_view s.items ≡ map (λ e. e.now) elements.now) }
{
    let mut segment = Vec::with_capacity(alloc, elements.len())?;
    for element in elements {
        segment.push(Vec::from_slice(alloc, element)?)?;
    }
    Ok(segment)
}

impl Body {
    /// The order of these segments: each its identifier, then its elements.
    pub fn new(alloc: Global, segments: &[&[&[u8]]]) -> Result<Body, AllocError>
        ensures { IfOk result (λ b.
            order_view b ≡ map (λ s. map (λ e. e.now) s.now) segments.now) }
    {
        let mut body = Vec::with_capacity(alloc, segments.len())?;
        for elements in segments {
            body.push(segment(alloc, elements)?)?;
        }
        Ok(Body { segments: body })
    }
}
