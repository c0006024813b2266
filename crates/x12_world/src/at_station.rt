//! What a station of a network is asked.

ghost use Rattle.std.specs.Prelude.{◌≡◌, ◌≤◌, IsTrue, IfOk, IfErr, OnErr, length, vec_len};
ghost use Rattle.x12_world.specs.Asking.{states_of};
ghost use Rattle.x12_world.specs.Asks.{IsAsked, IsAskedInVain};
ghost use Rattle.x12_world.specs.Disks.{station_disks, KeepsEach};
ghost use Rattle.x12_world.specs.Failing.{station_failures, CountsAsked};
ghost use Rattle.x12_world.specs.Running.{HasNumbers, Hubs, nodes_of};
ghost use Rattle.x12_world.specs.Running.{station_answers_at, station_nodes};
ghost use Rattle.x12_core.specs.Sends.{sends_view};
ghost use Rattle.x12_core.specs.Submission.{listed};
ghost use Rattle.x12_core.specs.View.{ref_view};
ghost use Rattle.x12_world.specs.Submission.{ListsMore};

use std::alloc::Global;
use x12_core::{AskRef, CoreFault, Sends, Site, ask_station};
use x12_station::{Records, Station};

/// Asks the station of this site. L7; L4 where an agreement can't be copied; L3.
pub(crate) fn at_station<R: Records>(
    alloc: Global,
    stations: &mut Vec<Station<R>>,
    site: Site,
    ask: &AskRef<'_>,
) -> Result<Sends, CoreFault>
    requires there { (1 ≤ site.node) × (site.node ≤ vec_len stations.old) }
    ensures took { IsTrue (station_answers_at stations.new.items site.node) →
        IfOk result (λ sends. (h : Hubs) → HasNumbers h stations.old.items →
        IsAsked (ref_view ask.now) site
        (nodes_of h stations.old.items) (nodes_of h stations.new.items) (sends_view sends)) }
    ensures submits { IsTrue (station_answers_at stations.new.items site.node) →
        IfOk result (λ sends. ListsMore (states_of stations.old.items) (states_of stations.new.items) (listed sends)) }
    ensures refused { IsTrue (station_answers_at stations.new.items site.node) →
        IfErr result (λ r. (h : Hubs) → HasNumbers h stations.old.items →
        IsAskedInVain (ref_view ask.now) site.node (nodes_of h stations.old.items) r) }
    ensures unchanged { IsTrue (station_answers_at stations.new.items site.node) →
        OnErr result (station_nodes stations.new.items ≡ station_nodes stations.old.items) }
    ensures store { CountsAsked result
        (station_failures stations.old.items) (station_failures stations.new.items) }
    ensures disks { KeepsEach result
        (station_disks stations.old.items) (station_disks stations.new.items) }
    ensures len { length stations.new.items ≡ length stations.old.items }
{
    let station = &mut stations[site.node as usize - 1];
    ask_station(alloc, station, site, ask)
}
