//! A network over records in memory: a caller has the headline of it, and nothing is supposed of the records.

ghost use Rattle.std.specs.Prelude.{List};
ghost use Rattle.x12_profile.specs.X12.{x12};
ghost use Rattle.x12_world.specs.Headline.{Headline};
ghost use Rattle.x12_world.specs.Loss.{Happening, run_so};

use x12_world::{Event, MemoryWorld, Outcome, Refused, run_in_memory};

/// What a network told of events, and the network after them: whatever happens then, the headline
/// holds of it.
pub fn played(
    network: MemoryWorld,
    events: &[Event],
) -> (MemoryWorld, Result<Vec<Outcome>, (usize, Refused)>)
    ensures headline { (more : List Happening) →
        Headline x12 result.0.world (run_so x12 more result.0.world) }
{
    let mut network = network;
    let told = run_in_memory(&mut network, events);
    (network, told)
}
