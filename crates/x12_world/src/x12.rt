//! The laws of the network at the profile of X12 004010. Nothing is assumed of the bytes: that the
//! network is one (`IsNetwork`) is the only premise left. Its parties are plain and differ, each
//! station is at one of its hubs, and beside a second hub there are at most 16 stations.

ghost use Rattle.x12_profile.specs.X12.{x12};
ghost use Rattle.x12_world.specs.Audit.{KeysTell};
ghost use Rattle.x12_world.specs.Conflict.{NoConflict};
ghost use Rattle.x12_world.specs.Exchange.{EveryRunFollows};
ghost use Rattle.x12_world.specs.Headline.{Headline};
ghost use Rattle.x12_world.specs.Loss.{HeadlineWithLosses};
ghost use Rattle.x12_world.specs.Number.{NumbersAreUsed};
ghost use Rattle.x12_world.specs.Outsider.{OutsidersMoveNothing};
ghost use Rattle.x12_world.specs.Reach.{ReachLaws};
ghost use Rattle.x12_world.specs.Run.{InEveryRun, InEveryWorld};
ghost use Rattle.x12_world.specs.Traffic.{TrafficFacts};

use x12_profile::x12_meets_the_laws;

/// After every list of submissions, deliveries, losses, repeats, retries and restarts, a
/// transaction set that its sender holds as accepted or noted stands exactly once in its
/// receiver's postings, byte for byte as submitted; one held as rejected stands there not at all,
/// then or after any longer list; a final fate never changes; and once the sender has handled its
/// interchange's kept acknowledgment, no set of it is pending.
pub fn headline()
    ensures headline { InEveryRun x12 (Headline x12) }
{
    crate::headline();
    x12_meets_the_laws();
}

/// The headline of runs that lost packets for want of memory.
pub fn losses()
    ensures headline { HeadlineWithLosses x12 }
{
    crate::losses();
    x12_meets_the_laws();
}

/// The five facts over every packet that was ever sent.
pub fn traffic()
    ensures traffic { InEveryWorld x12 (TrafficFacts x12) }
{
    crate::traffic();
    x12_meets_the_laws();
}

/// No evidence between nodes is conflicting, and no node's bytes are ever other bytes under a filed
/// number.
pub fn no_conflict()
    ensures no_conflict { InEveryWorld x12 (NoConflict x12) }
{
    crate::no_conflict();
    x12_meets_the_laws();
}

/// An interchange under no node's name changes no fate of a set addressed to a node, and no posting
/// under a node's name.
pub fn outsiders()
    ensures outsiders { InEveryWorld x12 (OutsidersMoveNothing x12) }
{
    crate::outsiders();
    x12_meets_the_laws();
}

/// Each event is one step of the exchange or none, and fates and postings are the exchange's.
pub fn refinement()
    ensures refinement { EveryRunFollows x12 }
{
    crate::refinement();
    x12_meets_the_laws();
}

/// What is asked by key is what is held.
pub fn keys()
    ensures keys { InEveryWorld x12 (KeysTell x12) }
{
    crate::keys();
    x12_meets_the_laws();
}

/// What a node wrote, ever, has numbers up to its last ones.
pub fn numbers()
    ensures numbers { InEveryWorld x12 (NumbersAreUsed x12) }
{
    crate::numbers();
    x12_meets_the_laws();
}

/// Of every world that a network reached, its packets perhaps lost, and of each later one: the
/// facts, the headline, and the exchange that it refines.
pub fn reached()
    ensures reached { ReachLaws x12 }
{
    crate::reached();
    x12_meets_the_laws();
}
