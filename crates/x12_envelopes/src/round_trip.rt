//! What was written is read back (X12.5, X12.6): laws, as functions that do nothing.

ghost use Rattle.x12_envelopes.specs.Text.{TextReadBack, WrittenIsText};
ghost use Rattle.x12_envelopes.specs.RoundTrip.{ElementsReadBack, HeaderReadBack, OutlineReadBack};

/// The law that the elements of a written segment are the segment's.
pub fn elements_are_read_back()
    ensures elements { ElementsReadBack }
{}

/// The law that the header of a written interchange is read back.
pub fn header_is_read_back()
    ensures header { HeaderReadBack }
{}

/// The law that the outline of a written interchange is read back.
pub fn outline_is_read_back()
    ensures outline { OutlineReadBack }
{}

/// The laws that the written text of segments is a text of them, and that segments are read back
/// from each of their texts.
pub fn texts_are_read_back()
    ensures written { WrittenIsText }
    ensures read { TextReadBack }
{}
