//! The laws of the network, for every profile that meets those of X12: functions that do nothing.

ghost use Rattle.x12_world.specs.Audit.{KeysTell};
ghost use Rattle.x12_world.specs.Conflict.{NoConflict};
ghost use Rattle.x12_world.specs.Exchange.{EveryRunFollows};
ghost use Rattle.x12_world.specs.Headline.{Headline};
ghost use Rattle.x12_profile.specs.Laws.{Laws};
ghost use Rattle.x12_world.specs.HubState.{HubStepsKeep};
ghost use Rattle.x12_world.specs.Loss.{EveryRunShadows, HeadlineWithLosses};
ghost use Rattle.x12_world.specs.Number.{NumbersAreUsed};
ghost use Rattle.x12_world.specs.Outsider.{OutsidersMoveNothing};
ghost use Rattle.x12_world.specs.Premise.{PremiseIsMet};
ghost use Rattle.x12_profile.specs.Profile.{Profile};
ghost use Rattle.x12_world.specs.Reach.{ReachLaws};
ghost use Rattle.x12_world.specs.Refused.{IsRefusedByName};
ghost use Rattle.x12_world.specs.Traffic.{TrafficFacts};
ghost use Rattle.x12_world.specs.World.{Event, World};
ghost use Rattle.x12_world.specs.Run.{InEveryRun, InEveryWorld};

/// After every list of submissions, deliveries, losses, repeats, retries and restarts, a
/// transaction set that its sender holds as accepted or noted stands exactly once in its
/// receiver's postings, byte for byte as submitted; one held as rejected stands there not at all,
/// then or after any longer list; a final fate never changes; and once the sender has handled its
/// interchange's kept acknowledgment, no set of it is pending.
pub fn headline()
    ensures headline { (p : Profile) → Laws p → InEveryRun p (Headline p) }
{}

/// What holds of every packet that was ever sent: the five facts on which the headline rests.
pub fn traffic()
    ensures traffic { (p : Profile) → Laws p → InEveryWorld p (TrafficFacts p) }
{}

/// No evidence between nodes is conflicting, and no node's bytes are ever other bytes under a filed
/// number.
pub fn no_conflict()
    ensures no_conflict { (p : Profile) → Laws p → InEveryWorld p (NoConflict p) }
{}

/// An interchange under no node's name changes no fate of a set addressed to a node, and no posting
/// under a node's name.
pub fn outsiders()
    ensures outsiders { (p : Profile) → Laws p → InEveryWorld p (OutsidersMoveNothing p) }
{}

/// A run refines the exchange: each event is one of its three steps or none, and after each the
/// nodes' fates and postings are the exchange's.
pub fn refinement()
    ensures refinement { (p : Profile) → Laws p → EveryRunFollows p }
{}

/// A world that lost packets for want of memory goes beside one that lost none: the nodes are the
/// same, and each packet that it holds is one that was sent. So the headline holds of runs with
/// losses too.
pub fn losses()
    ensures losses { (p : Profile) → EveryRunShadows p }
    ensures headline { (p : Profile) → Laws p → HeadlineWithLosses p }
{}

/// The fate by a set's key is the fate that its sender holds; each submitted set has a key of its
/// own, and there is an audit exactly for these, each of its own set.
pub fn keys()
    ensures keys { (p : Profile) → Laws p → InEveryWorld p (KeysTell p) }
{}

/// Each step of the hub keeps its decisions numbered by their items, and decides no bytes twice.
pub fn decisions()
    ensures decisions { (p : Profile) → HubStepsKeep p }
{}

/// What a node wrote, ever, has numbers up to its last ones, and those of a station's submissions
/// rise.
pub fn numbers()
    ensures numbers { (p : Profile) → Laws p → InEveryWorld p (NumbersAreUsed p) }
{}

/// Of every world that a network reached, its packets perhaps lost, and of each later one: the
/// facts, the headline, and the exchange that it refines.
pub fn reached()
    ensures reached { (p : Profile) → Laws p → ReachLaws p }
{}

/// Refusals have names: an event is taken exactly where the table of refusals is empty, and a
/// refused one changes nothing.
pub fn refusals()
    ensures refusals { (p : Profile) (w : World) (e : Event) → IsRefusedByName p w e }
{}

/// The laws can be met: some profile meets them, and runs of it end with a set held as accepted,
/// with one held as noted, and with one held as rejected, with one hub and with two.
pub fn premise()
    ensures premise { PremiseIsMet }
{}
