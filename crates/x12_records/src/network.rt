//! A network whose nodes keep their records in SQLite tables.

ghost use Rattle.std.specs.Prelude.{◌≡◌, IfOk, IfErr, OnOk, List, map};
ghost use Rattle.x12_profile.specs.X12.{x12};
ghost use Rattle.x12_world.specs.Disks.{disks_of, AllClean, KeepsEach};
ghost use Rattle.x12_world.specs.Failing.{SaysOneFailed};
ghost use Rattle.x12_world.specs.EventView.{event_view};
ghost use Rattle.x12_world.specs.Headline.{Headline};
ghost use Rattle.x12_world.specs.Loss.{Happening, run_so};
ghost use Rattle.x12_world.specs.Ran.{RanAll, StoppedAt, outcome_view};
ghost use Rattle.x12_world.specs.Reach.{HoldsOnward, OfBoth};
ghost use Rattle.x12_world.specs.Running.{AllAnswer};

use sqlite::Alter;
use x12_hub_records::SqliteHubRecords;
use x12_station_records::SqliteRecords;
use x12_world::{Event, Outcome, Refused, World};

/// A network whose nodes keep their records in SQLite tables: each station in a database of its own,
/// and the hub in one.
pub type SqliteWorld<S, T> = World<SqliteRecords<S>, SqliteHubRecords<T>>;

/// Takes events as `World::run` does: up to the first that is refused, and then what is refused and
/// its place from 0.
///
/// While no database failed and each disk returned what was written to it, whatever was submitted,
/// delivered, lost, repeated and restarted: a transaction set that its sender holds as accepted stands
/// exactly once in its receiver's postings, byte for byte as submitted; one held as rejected stands
/// there not at all, then or after any longer run; a final fate never changes; and once the sender has
/// handled its interchange's kept acknowledgment, no set of it is pending.
pub fn run<S: Alter, T: Alter>(
    network: &mut SqliteWorld<S, T>,
    events: &[Event],
) -> Result<Vec<Outcome>, (usize, Refused)>
    ensures disks { KeepsEach result (disks_of network.old) (disks_of network.new) }
    ensures ran { AllAnswer network.new → IfOk result (λ os. RanAll network.old.world
        (map event_view events.now) (map outcome_view os.items) network.new.world) }
    ensures stopped { AllAnswer network.new → IfErr result (λ e.
        StoppedAt network.old.world (map event_view events.now) e.0 e.1 network.new.world) }
    ensures store { OnOk result (network.new.failures ≡ network.old.failures)
        × IfErr result (λ e. SaysOneFailed e.1 network.old.failures network.new.failures) }
    ensures headline { AllAnswer network.new →
        Headline x12 network.old.world network.new.world
        × ((more : List Happening) →
        Headline x12 network.new.world (run_so x12 more network.new.world)) }
    ensures onward { AllAnswer network.new →
        OfBoth HoldsOnward network.old.world network.new.world }
    // the same of the world before, whatever the run came to
    ensures before { AllAnswer network.old → HoldsOnward network.old.world }
    ensures whole { AllAnswer network.old → AllClean network.new →
        OnOk result (AllAnswer network.new) }
{
    network.run(events)
}
