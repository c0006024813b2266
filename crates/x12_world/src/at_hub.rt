//! What a hub of a network is asked.

ghost use Rattle.std.specs.Prelude.{◌≡◌, ℕ, List, [], IsTrue, IfOk, IfErr, OnErr, is_some, length, true};
ghost use Rattle.x12_core.specs.Node.{Node};
ghost use Rattle.x12_core.specs.Sends.{sends_view};
ghost use Rattle.x12_core.specs.Submission.{listed};
ghost use Rattle.x12_core.specs.View.{ref_view};
ghost use Rattle.x12_world.specs.Asks.{IsAsked, IsAskedInVain};
ghost use Rattle.x12_world.specs.Disks.{disks_beside, Disks, KeepsEach};
ghost use Rattle.x12_world.specs.Failing.{CountsAsked, failures_beside};
ghost use Rattle.x12_world.specs.Nodes.{is_hub_number};
ghost use Rattle.x12_world.specs.Running.{beside, hub_answers, hubs_in};

use crate::hubs::Hubs;
use x12_core::{AskRef, CoreFault, HUB_NODE, Sends, Site, ask_hub};
use x12_hub::HubRecords;

/// Asks the hub of this site. L7 and L3.
pub(crate) fn at_hub<H: HubRecords>(
    hubs: &mut Hubs<H>,
    site: Site,
    ask: &AskRef<'_>,
) -> Result<Sends, CoreFault>
    requires there { is_hub_number (is_some hubs.old.second) site.node ≡ true }
    ensures took { IsTrue (hub_answers hubs.new site.node) → IfOk result (λ sends. (ns : List Node) →
        IsAsked (ref_view ask.now) site (beside (hubs_in hubs.old) ns)
        (beside (hubs_in hubs.new) ns) (sends_view sends)) }
    ensures submits { IfOk result (λ sends. listed sends ≡ []) }
    ensures refused { IsTrue (hub_answers hubs.new site.node) → IfErr result (λ f. (ns : List Node) →
        IsAskedInVain (ref_view ask.now) site.node (beside (hubs_in hubs.old) ns) f) }
    ensures unchanged { IsTrue (hub_answers hubs.new site.node) →
        OnErr result (hubs_in hubs.new ≡ hubs_in hubs.old) }
    ensures second { is_some hubs.new.second ≡ is_some hubs.old.second }
    ensures store { (fs : List ℕ) → CountsAsked result
        (failures_beside hubs.old fs) (failures_beside hubs.new fs) }
    ensures disks { (d : Disks) → length d.answers ≡ length d.clean →
        KeepsEach result (disks_beside hubs.old d) (disks_beside hubs.new d) }
{
    if site.node == HUB_NODE {
        return ask_hub(&mut hubs.first, site, ask);
    }
    match &mut hubs.second {
        Some(hub) => ask_hub(hub, site, ask),
        None => Err(CoreFault::WrongKind),
    }
}
