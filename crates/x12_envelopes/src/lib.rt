//! Reads and writes X12 interchanges: the header (ISA), the outline of TA1s, functional groups and
//! transaction sets, and the written text of an envelope.
#![tactic(auto)]

mod appending;
mod byte;
mod content;
mod cutting;
mod delimiters;
mod element;
mod envelope;
mod fault;
mod first_fault;
mod fitting;
mod grammar;
mod header;
mod length;
mod moment;
mod party;
mod plain_data;
mod readable;
mod reading;
mod remaining;
mod repetition;
mod round_trip;
mod segment;
mod set_order;
mod shape;
mod source;
mod transmission;
mod writable;
mod writing;
mod written_segments;

pub use appending::{
    push_element, push_elements, push_identifier, push_number, push_padded, push_terminator,
};
pub use byte::number_of;
pub use content::Kind;
pub use cutting::{Segments, cut_at, cut_segment, cut_short_segment};
pub use delimiters::Delims;
pub use envelope::{Envelope, GroupEnvelope, SetEnvelope};
pub use first_fault::faults_have_reasons;
pub use fitting::{fits, is_data_segment, written_len};
pub use grammar::{each_tree_is_read, trees_alone_are_read};
pub use header::{
    HEADER_BYTES, Header, HeaderFault, MAX_INTERCHANGE_BYTES, STANDARD, VERSION, read_header,
};
pub use moment::{Moment, is_date, is_time};
pub use party::Party;
pub use readable::numbers_are_readable;
pub use reading::outline;
pub use round_trip::{
    elements_are_read_back, header_is_read_back, outline_is_read_back, texts_are_read_back,
};
pub use segment::Segment;
pub use set_order::set_numbers_compare_as_bytes;
pub use shape::{
    AcknowledgmentCode, GroupTrailer, GroupView, Outline, OutlineFault, SetNo, SetTrailer, SetView,
    Ta1, group_numbers,
};
pub use transmission::split_transmission;
pub use writable::what_was_read_is_writable;
pub use writing::{push_header, push_segment, write, zero_padded};
pub use written_segments::segments_fit;
