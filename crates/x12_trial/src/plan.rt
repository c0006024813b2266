//! What a trial is told.
ghost use Rattle.std.specs.Prelude.{◌≤◌};

use x12_links::FaultPlan;

/// How a trial network is made and run.
#[derive(Clone, Copy)]
pub struct TrialPlan {
    /// How many stations: 2 to 16.
    pub stations: u16,
    /// How many hubs: 1 or 2.
    pub hubs: u16,
    /// How many orders each submits: 1 to 200.
    pub orders: u32,
    /// What links lose, double and hold: each of the three 0 to 1000.
    pub faults: FaultPlan,
    /// How many turns a worker makes at most: 1 to 1000000.
    pub turns: u64,
    ghost two: { 2 ≤ stations },
    ghost few: { stations ≤ 16 },
    ghost one: { 1 ≤ hubs },
    ghost connected: { hubs ≤ 2 },
    ghost some: { 1 ≤ orders },
    ghost most: { orders ≤ 200 },
    ghost lost: { faults.lose ≤ 1000 },
    ghost doubled: { faults.double ≤ 1000 },
    ghost held: { faults.hold ≤ 1000 },
    ghost begins: { 1 ≤ turns },
    ghost ends: { turns ≤ 1000000 },
}
