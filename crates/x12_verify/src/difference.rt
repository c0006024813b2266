//! What is told of records.

use std::alloc::AllocError;
use x12_acks::SetKey;
use x12_outbound::Fate;
use x12_station::{StationFault, StoreFault};

/// The first place where records aren't what the history in them tells. A number is that of a
/// submission or first arrival, from 1.
#[derive(Clone, Copy)]
pub enum Difference {
    /// They name a party that no station can have.
    Owner,
    /// Nothing has this number.
    Missing(u64),
    /// The station can't have submitted what this number has, or can't have heard it: so it refuses.
    Refused(u64, StationFault),
    /// What came under this number has no header.
    NoHeader(u64),
    /// What came under this number isn't filed under its own sender and number (ISA13).
    NotFiled(u64),
    /// Something else is filed there.
    FiledElse(u64),
    /// What is kept as the reply has no header.
    NoReplyHeader(u64),
    /// The reply has a control number above the last one that was used.
    Number(u64),
    /// What is kept as the reply isn't one that was due.
    NotDue(u64),
    /// What came under this number came before.
    CameBefore(u64),
    /// The posting at this place, from 1, isn't the set that was accepted there, or isn't there.
    Posting(u64),
    /// What is kept of the submission of this number (ISA13) isn't what its bytes say.
    Submission(u32),
    /// A submitted set has another fate than what came tells.
    Fate {
        /// The set.
        key: SetKey,
        /// Its fate by the records.
        kept: Fate,
        /// Its fate by what came.
        due: Fate,
    },
}

/// How much was found sound.
#[derive(Clone, Copy)]
pub struct Sound {
    /// How many interchanges were submitted.
    pub submitted: u64,
    /// How many came for the first time.
    pub came: u64,
    /// How many sets were posted.
    pub postings: u64,
}

/// What is told of records.
#[derive(Clone, Copy)]
pub enum Outcome {
    /// They are what their station wrote.
    Sound(Sound),
    /// They aren't, or that can't be told.
    Differs(Difference),
}

/// Why the telling ends early.
#[derive(Clone, Copy)]
pub(crate) enum Stop {
    /// The records answer nothing.
    Store(StoreFault),
    /// They differ.
    Differs(Difference),
}

impl From<StoreFault> for Stop {
    ghost from_gives = { λ _ _. Unit {0} };

    fn from(fault: StoreFault) -> Stop {
        Stop::Store(fault)
    }
}

impl From<AllocError> for Stop {
    ghost from_gives = { λ _ _. Unit {0} };

    fn from(_: AllocError) -> Stop {
        Stop::Store(StoreFault::Memory)
    }
}
