//! What the tests of several crates begin with.
#![tactic(auto)]

use std::alloc::{AllocError, Global};
use std::test::Fail;
use x12_envelopes::{Moment, Party};
use x12_judge::Agreement;

/// The agreement to take purchase orders from a partner: groups PO (GS01) of sets 850 (ST01).
pub fn orders_from(alloc: Global, partner: Party) -> Result<Agreement, AllocError> {
    Ok(Agreement {
        partner,
        lenient: false,
        pairs: vec![in alloc; (*b"PO", *b"850")]?,
    })
}

/// 2 January 2025, 09:31, a minute after the orders of the tests were written.
pub fn moment() -> Result<Moment, Fail> {
    match Moment::new(*b"20250102", *b"0931") {
        Some(at) => Ok(at),
        None => Err(Fail::new("no moment")),
    }
}
