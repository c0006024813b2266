//! Runs of a network.

ghost use Rattle.std.specs.Prelude.{◌≡◌, IfOk, IfErr, OnOk, List, map};
ghost use Rattle.x12_profile.specs.X12.{x12};
ghost use Rattle.x12_world.specs.Disks.{disks_of, AllClean, KeepsEach};
ghost use Rattle.x12_world.specs.Failing.{SaysOneFailed};
ghost use Rattle.x12_world.specs.EventView.{event_view};
ghost use Rattle.x12_world.specs.Headline.{Headline};
ghost use Rattle.x12_world.specs.Loss.{Happening, run_so};
ghost use Rattle.x12_world.specs.Ran.{RanAll, StoppedAt, outcome_view};
ghost use Rattle.x12_world.specs.Reach.{HoldsOnward, OfBoth};
ghost use Rattle.x12_world.specs.Running.{AllAnswer};

use crate::event::Event;
use crate::outcome::Outcome;
use crate::refused::Refused;
use crate::world::World;
use x12_hub::HubRecords;
use x12_station::Records;

impl<R: Records, H: HubRecords> World<R, H> {
    /// Takes events, one after the other, up to the first that is refused: what is refused, and its
    /// place from 0, with the events before it taken.
    ///
    /// Whatever was submitted, delivered, lost, repeated and restarted: a transaction set that its
    /// sender holds as accepted or noted stands exactly once in its receiver's postings, byte for
    /// byte as submitted; one held as rejected stands there not at all, then or after any longer run;
    /// a final fate never changes; and once the sender has handled its interchange's kept
    /// acknowledgment, no set of it is pending.
    pub fn run(&mut self, events: &[Event]) -> Result<Vec<Outcome>, (usize, Refused)>
        // of each node: over a disk that returned what was written an Ok keeps records answering
        ensures disks { KeepsEach result (disks_of self.old) (disks_of self.new) }
        ensures ran { AllAnswer self.new → IfOk result (λ os. RanAll self.old.world
            (map event_view events.now) (map outcome_view os.items) self.new.world) }
        ensures stopped { AllAnswer self.new → IfErr result (λ e.
            StoppedAt self.old.world (map event_view events.now) e.0 e.1 self.new.world) }
        // an Ok leaves each count as it was; what stopped it says of no store that it failed without cause
        ensures store { OnOk result (self.new.failures ≡ self.old.failures)
            × IfErr result (λ e. SaysOneFailed e.1 self.old.failures self.new.failures) }
        // from the world before to the one after, and from this one to each later one; what follows is
        // of both
        ensures headline { AllAnswer self.new → Headline x12 self.old.world self.new.world
            × ((more : List Happening) →
            Headline x12 self.new.world (run_so x12 more self.new.world)) }
        ensures onward { AllAnswer self.new → OfBoth HoldsOnward self.old.world self.new.world }
        // the same of the world before, whatever the run came to
        ensures before { AllAnswer self.old → HoldsOnward self.old.world }
        ensures whole { AllAnswer self.old → AllClean self.new → OnOk result (AllAnswer self.new) }
    {
        // law: what holds of each world that a network can reach
        crate::x12::reached();
        let Ok(mut outcomes) = Vec::with_capacity(self.alloc, events.len()) else {
            return Err((0, Refused::Memory));
        };
        let mut place = 0;
        for event in events {
            match self.apply(event) {
                Ok(outcome) => outcomes.push_reserved(outcome),
                Err(refused) => return Err((place, refused)),
            }
            place += 1;
        }
        Ok(outcomes)
    }
}
