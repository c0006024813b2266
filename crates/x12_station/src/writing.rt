//! One commit of an event, and what the records say when they refuse it.

ghost use Rattle.std.specs.Prelude.{◌≡◌, IsTrue, IfOk, IfErr, OnErr};
ghost use Rattle.x12_station.specs.declared.fault.StationFault.TheVariants.{Store};
ghost use Rattle.x12_station.specs.Fault.{IsOfRecords};
ghost use Rattle.x12_station.specs.Plan.{stored_after};
ghost use Rattle.x12_profile.specs.Stop.{CountsFailures};
ghost use Rattle.x12_station.specs.Standing.{MayLeave, MayTake, WereUsed};

use crate::fault::StationFault;
use crate::plan::{Committed, Planned};
use crate::records::Records;

/// Writes a plan, whole or not at all: one commit.
///
/// S13 where the records failed, S14 where they missed memory: then what is held is as it was, and
/// the plan is given up. A stop may leave the plan whole all the same.
pub(crate) fn write<R: Records>(records: &mut R, plan: Planned) -> Result<Committed, StationFault>
    requires { MayTake R.Records records.old plan }
    ensures used { WereUsed R.Records records.old records.new }
    ensures written { IsTrue (R.answers records.new) → IfOk result (λ _.
        R.content records.new ≡ stored_after plan (R.content records.old)) }
    ensures plan { IfOk result (λ c. c ≡ plan) }
    ensures crash { MayLeave R.Records plan result records.old records.new }

    ensures fault { IfErr result IsOfRecords }
    ensures unchanged { IsTrue (R.answers records.new) →
        OnErr result (R.content records.new ≡ R.content records.old) }
    ensures device { CountsFailures result (λ f. f ≡ Store)
        (R.failed records.old) (R.failed records.new) }
{
    match records.commit(plan) {
        Ok(committed) => Ok(committed),
        Err((plan, fault)) => {
            plan.abandon();
            Err(fault.into())
        }
    }
}
