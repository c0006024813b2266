//! Why a station refuses.

ghost use Rattle.std.specs.Prelude.{◌≡◌};
ghost use Rattle.x12_station.specs.Number.{station_fault_number};

use crate::records::StoreFault;
use std::alloc::{AllocError, AllocFailed};
use std::error::Error;
use std::fmt;
use x12_envelopes::{HeaderFault, OutlineFault};
use x12_outbound::SubmitFault;

/// Why a station refuses: the first row of the event's table that holds.
#[derive(Clone, Copy, Debug, PartialEq, Eq)]
pub enum StationFault {
    /// S1. The receiver is this station.
    OwnAddress,
    /// S2. No order, or a functional group without a transaction set.
    Empty,
    /// S3. The receiver's address isn't plain (a qualifier of two capital letters or digits, an
    /// identifier of two to fifteen of them, then spaces); or an order has a segment without
    /// elements, with an empty last element or with an identifier that is empty or reserved (ISA,
    /// GS, ST, SE, GE, IEA, TA1); or an element has a byte below 0x20 or `*`, `:` or `~`.
    BadText,
    /// S4. Prepared bytes whose ISA can't be read.
    BadHeader(HeaderFault),
    /// S5. The sender of prepared bytes isn't this station.
    NotMine,
    /// S6. Prepared bytes whose segments can't be read.
    Shape(OutlineFault),
    /// S7. Prepared bytes with a TA1 or an FA group: a station writes these itself.
    Acknowledgments,
    /// S8. One transaction set control number (ST02) twice in a group.
    SetTwice,
    /// S9. More than 400 orders, or an interchange of more than 1,048,576 bytes.
    TooLarge,
    /// S10. Control numbers that don't rise above all that were used.
    NotNew,
    /// S11. No control number up to 999999999 is left, or no number of a submission or arrival.
    Exhausted,
    /// S12. Arriving bytes whose ISA can't be read.
    Unreadable(HeaderFault),
    /// S13. The records failed: what was asked stands whole or not at all, and the next start tells
    /// which.
    Store,
    /// S14. Memory was missing: nothing was done.
    Memory,
}

impl StationFault {
    /// What a person is told; where it goes on with a fault, all in front of that.
    fn sentence(&self) -> &'static str {
        match self {
            StationFault::OwnAddress => "the receiver is this station itself",
            StationFault::Empty =>
                "there is no transaction set to submit, or a functional group has none",
            StationFault::BadText =>
                "the receiver's address isn't plain, or an order can't be written as segments",
            StationFault::BadHeader(_) => "the prepared interchange has no header: ",
            StationFault::NotMine => "the sender of the prepared interchange isn't this station",
            StationFault::Shape(_) => "the prepared interchange can't be read: ",
            StationFault::Acknowledgments => "the prepared interchange holds acknowledgments",
            StationFault::SetTwice =>
                "a transaction set control number stands twice in a functional group",
            StationFault::TooLarge =>
                "there are more than 400 orders, or more than 1,048,576 bytes",
            StationFault::NotNew => "the control numbers aren't above all that were used",
            StationFault::Exhausted => "no control number is left",
            StationFault::Unreadable(_) => "what arrived has no header: ",
            StationFault::Store =>
                "the station's records failed: see to the device, then start the station again",
            StationFault::Memory => "memory was missing",
        }
    }

    /// The fault's number: `S1` to `S14`.
    pub fn number(&self) -> &'static str
        ensures { result.now ≡ station_fault_number self.now }
    {
        match self {
            StationFault::OwnAddress => "S1",
            StationFault::Empty => "S2",
            StationFault::BadText => "S3",
            StationFault::BadHeader(_) => "S4",
            StationFault::NotMine => "S5",
            StationFault::Shape(_) => "S6",
            StationFault::Acknowledgments => "S7",
            StationFault::SetTwice => "S8",
            StationFault::TooLarge => "S9",
            StationFault::NotNew => "S10",
            StationFault::Exhausted => "S11",
            StationFault::Unreadable(_) => "S12",
            StationFault::Store => "S13",
            StationFault::Memory => "S14",
        }
    }
}

impl fmt::Display for StationFault {
    fn fmt<W: fmt::Write>(&self, f: &mut fmt::Formatter<W>) -> fmt::Result {
        f.write_str(self.sentence())?;
        match *self {
            StationFault::BadHeader(fault) => write!(f, "{fault}"),
            StationFault::Shape(fault) => write!(f, "{fault}"),
            StationFault::Unreadable(fault) => write!(f, "{fault}"),
            _ => Ok(()),
        }
    }
}

impl Error for StationFault {}

impl From<AllocError> for StationFault {
    ghost use Rattle.x12_station.specs.declared.fault.StationFault.TheVariants.{Memory};

    ghost from_gives = { λ _ e. e ≡ Memory };

    fn from(_: AllocError) -> Self {
        StationFault::Memory
    }
}

impl<T: Drop> From<AllocFailed<T>> for StationFault {
    ghost use Rattle.x12_station.specs.declared.fault.StationFault.TheVariants.{Memory};

    ghost from_gives = { λ _ e. e ≡ Memory };

    fn from(_: AllocFailed<T>) -> Self {
        StationFault::Memory
    }
}

impl From<SubmitFault> for StationFault {
    ghost use Rattle.x12_station.specs.Fault.{fault_of_submitting};

    ghost from_gives = { λ f e. e ≡ fault_of_submitting f };

    fn from(fault: SubmitFault) -> Self {
        match fault {
            SubmitFault::OwnAddress => StationFault::OwnAddress,
            SubmitFault::Empty => StationFault::Empty,
            SubmitFault::BadHeader(fault) => StationFault::BadHeader(fault),
            SubmitFault::NotMine => StationFault::NotMine,
            SubmitFault::Shape(fault) => StationFault::Shape(fault),
            SubmitFault::Acknowledgments => StationFault::Acknowledgments,
            SubmitFault::SetTwice => StationFault::SetTwice,
            SubmitFault::NotNew => StationFault::NotNew,
            SubmitFault::Memory => StationFault::Memory,
        }
    }
}

impl From<StoreFault> for StationFault {
    ghost use Rattle.x12_station.specs.Fault.{fault_of_records};

    ghost from_gives = { λ f e. e ≡ fault_of_records f };

    fn from(fault: StoreFault) -> Self {
        match fault {
            StoreFault::Device => StationFault::Store,
            StoreFault::Memory => StationFault::Memory,
        }
    }
}
