//! Callers whose own contracts are the point: what a call ensures is enough for the next one. They open what a stop left of a
//! mailbox, play a network of which the headline holds, and settle sets. The tests of calls stand in tests/, and are unproved.
#![tactic(auto)]

#[cfg(test)]
mod again;
#[cfg(test)]
mod disk;
#[cfg(test)]
mod fixture;
pub mod headline;
#[cfg(test)]
mod hub;
#[cfg(test)]
mod runs;
pub mod settling;
#[cfg(test)]
mod station_stops;
