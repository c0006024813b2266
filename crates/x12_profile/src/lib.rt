//! What the network asks of a profile of X12, as definitions and their laws; and the profile of X12
//! 004010, which meets them.
#![tactic(auto)]

mod countdown;
mod edition;
mod laws;

pub use countdown::{Countdown, CountedDown};
pub use edition::{Edition, Marks};
pub use laws::{orders_are_submitted, x12_meets_the_laws};
