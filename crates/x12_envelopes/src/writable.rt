//! What was read can be written under the same delimiters (X12.5, X12.6): a law, as a function that
//! does nothing.

ghost use Rattle.x12_envelopes.specs.Writable.{HeaderIsWritable, OutlineIsWritable};

/// The law that the header of an interchange that was read, and the elements of its functional
/// groups and transaction sets, can be written under its delimiters.
pub fn what_was_read_is_writable()
    ensures header { HeaderIsWritable }
    ensures outline { OutlineIsWritable }
{}
