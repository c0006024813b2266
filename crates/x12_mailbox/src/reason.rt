//! Why an interchange isn't taken, as a sentence.

use std::alloc::{AllocError, Global};
use x12_envelopes::HeaderFault;
use x12_spool::{NodeFault, Reason};
use x12_station::StationFault;

/// The number and the words of a header's fault.
fn header_text(alloc: Global, fault: HeaderFault) -> Result<String, AllocError> {
    format!(in alloc; "{}: {fault}", fault.number())
}

/// The number and the words of a station's fault.
pub(crate) fn station_text(alloc: Global, fault: StationFault) -> Result<String, AllocError> {
    format!(in alloc; "{}: {fault}", fault.number())
}

/// Why an interchange isn't taken.
pub(crate) fn reason_text(alloc: Global, reason: Reason) -> Result<String, AllocError> {
    match reason {
        Reason::NoHeader(fault) => header_text(alloc, fault),
        Reason::NotSubmitted(fault) => station_text(alloc, fault),
        Reason::AnotherSender => String::from_str(
            alloc,
            "its sender (ISA05, ISA06) isn't the party whose folder it came out of",
        ),
    }
}

/// Why a node did nothing.
pub(crate) fn node_text(fault: NodeFault) -> &'static str {
    match fault {
        NodeFault::Exhausted => "no control number is left",
        NodeFault::Store => "the records failed: see to the device, then run it again",
        NodeFault::Memory => "memory was missing",
    }
}
