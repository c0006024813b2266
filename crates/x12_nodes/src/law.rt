//! The laws of the merge: functions that do nothing.

ghost use Rattle.x12_nodes.specs.Law.{FairAmongIsFair, HeadlineOfMerge, MergeIsRun};
ghost use Rattle.x12_nodes.specs.Law.{SubmittedFateIsTold};

use x12_profile::x12_meets_the_laws;
use x12_world::x12;

/// The logs of a network's nodes, merged by their stamps, are one run of the network that ends with
/// the nodes' states, where each log replays, stamps rise, and each entry is fair: a packet that came
/// was sent before, bytes from outside name no node, and a hub's mailboxes are those of nodes.
/// That each is fair can be checked of each by itself. And of the world that such a run ends with, and
/// of each later one, the headline holds.
pub fn merge_is_run()
    ensures run { MergeIsRun }
    ensures each { FairAmongIsFair }
    ensures headline { HeadlineOfMerge }
{
    x12_meets_the_laws();
    x12::headline();
}

/// In a run, who asks a station for the fate of a set that it submitted is told some fate.
pub fn submitted_fate_is_told()
    ensures { SubmittedFateIsTold }
{
    x12::keys();
}
