//! The segments of an interchange that fits (X12.6): a law, as a function that does nothing.

ghost use Rattle.x12_envelopes.specs.WrittenSegments.{SegmentsFit};

/// The law that each segment of an interchange that fits can be written, its trailers included.
pub fn segments_fit()
    ensures fit { SegmentsFit }
{}
