//! What a link does with each parcel that it takes, by its number.
ghost use Rattle.std.specs.Prelude.{◌≡◌};
ghost use Rattle.x12_links.specs.Plan.{number_divides, handling_of};

/// Which parcels of a link are lost, doubled and held, by their numbers from 1. A row that is 0
/// names none.
#[derive(Clone, Copy)]
pub struct FaultPlan {
    /// Parcels whose number this divides are lost.
    pub lose: u64,
    /// Of the others, those whose number this divides are put twice.
    pub double: u64,
    /// Of the others, those whose number this divides are held until the next one is put.
    pub hold: u64,
}

/// What becomes of a parcel that a link took.
#[derive(Clone, Copy)]
pub enum Handling {
    /// It isn't put.
    Lost,
    /// It is put twice, and behind both copies what is held.
    Doubled,
    /// It joins the end of what is held.
    Held,
    /// It is put, and behind it what is held.
    Passed,
}

impl FaultPlan {
    /// What becomes of the parcel of this number, counted from 1: the first row that divides it.
    pub fn handling(&self, number: u64) -> Handling
        ensures { result ≡ handling_of self.now number }
    {
        if divides(self.lose, number) {
            Handling::Lost
        } else if divides(self.double, number) {
            Handling::Doubled
        } else if divides(self.hold, number) {
            Handling::Held
        } else {
            Handling::Passed
        }
    }
}

fn divides(row: u64, number: u64) -> bool
    ensures { result ≡ number_divides row number }
{
    row != 0 && number % row == 0
}
