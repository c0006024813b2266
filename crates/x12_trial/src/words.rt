//! The words of a command line that tell what a trial is told.
ghost use Rattle.std.specs.Prelude.{◌≤◌, IfSome};

use crate::plan::TrialPlan;
use std::error::Error;
use std::fmt;
use thiserror::Error;
use x12_envelopes::number_of;
use x12_links::FaultPlan;

/// The words that give a plan.
#[derive(Clone, Copy)]
pub struct PlanWords<'a> {
    /// How many stations, as `2`.
    pub stations: &'a str,
    /// How many hubs, as `1`.
    pub hubs: &'a str,
    /// How many orders of each, as `20`.
    pub orders: &'a str,
    /// Each how many-th packet is lost, as `0`.
    pub lose: &'a str,
    /// Each how many-th is doubled.
    pub double: &'a str,
    /// Each how many-th is held.
    pub hold: &'a str,
    /// How many turns at most, as `100000`.
    pub turns: &'a str,
}

/// Why words give no plan: the first that holds.
#[derive(Clone, Copy, Debug, Error)]
pub enum PlanFault {
    /// `stations` isn't such a number.
    #[error("--stations wants a number from 2 to 16, in digits")]
    Stations,
    /// `hubs` isn't.
    #[error("--hubs wants a number from 1 to 2, in digits")]
    Hubs,
    /// `orders` isn't.
    #[error("--orders wants a number from 1 to 200, in digits")]
    Orders,
    /// `lose` isn't.
    #[error("--lose wants a number from 0 to 1000, in digits")]
    Lose,
    /// `double` isn't.
    #[error("--double wants a number from 0 to 1000, in digits")]
    Double,
    /// `hold` isn't.
    #[error("--hold wants a number from 0 to 1000, in digits")]
    Hold,
    /// `turns` isn't.
    #[error("--turns wants a number from 1 to 1000000, in digits")]
    Turns,
}

/// The number that a word is, in one to nine digits, where it is one of these.
fn number_in(word: &str, least: u32, most: u32) -> Option<u32>
    ensures least { IfSome result (λ n. least ≤ n) }
    ensures most { IfSome result (λ n. n ≤ most) }
{
    if word.len() > 9 {
        return None;
    }
    match number_of(word.as_bytes()) {
        Some(number) if least <= number && number <= most => Some(number),
        _ => None,
    }
}

/// Reads a plan.
pub fn read_plan(words: &PlanWords<'_>) -> Result<TrialPlan, PlanFault> {
    let stations = number_in(words.stations, 2, 16).ok_or(PlanFault::Stations)?;
    let hubs = number_in(words.hubs, 1, 2).ok_or(PlanFault::Hubs)?;
    let orders = number_in(words.orders, 1, 200).ok_or(PlanFault::Orders)?;
    let lose = number_in(words.lose, 0, 1000).ok_or(PlanFault::Lose)?;
    let double = number_in(words.double, 0, 1000).ok_or(PlanFault::Double)?;
    let hold = number_in(words.hold, 0, 1000).ok_or(PlanFault::Hold)?;
    let turns = number_in(words.turns, 1, 1_000_000).ok_or(PlanFault::Turns)?;
    Ok(TrialPlan {
        stations: stations as u16,
        hubs: hubs as u16,
        orders,
        faults: FaultPlan {
            lose: u64::from(lose),
            double: u64::from(double),
            hold: u64::from(hold),
        },
        turns: u64::from(turns),
    })
}
