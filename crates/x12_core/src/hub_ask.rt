//! What a hub does where it is asked.

ghost use Rattle.std.specs.Prelude.{◌≡◌, ◌≤◌, [], ◌∷◌, IsTrue, IfOk, IfErr, OnErr, Some, length};
ghost use Rattle.x12_hub.specs.Record.{decision_view};
ghost use Rattle.x12_core.specs.Action.{acts};
ghost use Rattle.x12_core.specs.Ask.{does_at, Comes, Do};
ghost use Rattle.x12_core.specs.Bound.{hub_bound};
ghost use Rattle.x12_core.specs.Disk.{hub_disk, HubStopsWhole, KeepsAnswers};
ghost use Rattle.x12_core.specs.Core.{IsCoreRefusal};
ghost use Rattle.x12_core.specs.Effect.{comes_to_hub, refusals, reports_taken};
ghost use Rattle.x12_core.specs.Fault.{CountsCore};
ghost use Rattle.x12_core.specs.Sends.{sends_view};
ghost use Rattle.x12_core.specs.Packet.{PacketName, Refusal};
ghost use Rattle.x12_core.specs.Submission.{listed, TakesNothing};
ghost use Rattle.x12_core.specs.View.{action_view, load_view, packet_view, ref_view};
ghost use Rattle.x12_core.specs.Node.{IsHub};
ghost use Rattle.x12_profile.specs.X12.{x12};

use crate::action::Action;
use crate::ask::AskRef;
use crate::fault::CoreFault;
use crate::packet::{Load, Packet, Site};
use crate::sends::{Sends, report};
use x12_envelopes::Moment;
use x12_hub::{Decision, Hub, HubRecords};

/// A hub's refusal, for the node that waits for it.
fn refusal(hub: u16, to: u16, reply: Vec<u8>) -> Packet
    ensures { packet_view result ≡ record { from = hub; to = to; load = Refusal reply.items } }
{
    Packet {
        from: hub,
        to,
        load: Load::Refusal(reply),
    }
}

/// The refusal of a deposit, for the node that sent it.
fn refused(hub: u16, to: u16, decision: Decision) -> Sends
    ensures sends { sends_view result ≡ refusals hub (Some to) (decision_view decision) }
    ensures listed { listed result ≡ [] }
{
    match decision {
        Decision::Boxed { .. } => Sends::Nothing,
        Decision::Refused(reply) => Sends::One(refusal(hub, to, reply)),
    }
}

/// The report of an item as taken, and then its refusal, for the hub that sent it.
fn reported(hub: u16, to: u16, item: u32, decision: Decision) -> Sends
    ensures sends { sends_view result
        ≡ reports_taken hub to item ∷ refusals hub (Some to) (decision_view decision) }
    ensures listed { listed result ≡ [] }
{
    let taken = report(hub, to, item);
    match decision {
        Decision::Boxed { .. } => Sends::One(taken),
        Decision::Refused(reply) => Sends::Two(taken, refusal(hub, to, reply)),
    }
}

/// The hub of this site acts so. L7 and L3.
fn act<H: HubRecords>(hub: &mut Hub<H>, site: Site, action: &Action) -> Result<Sends, CoreFault>
    ensures disk { KeepsAnswers result (hub_disk hub.old) (hub_disk hub.new) }
    ensures crash { HubStopsWhole H.HubRecords (acts x12 site (action_view action.now) (IsHub hub.old.hub))
        result hub.old hub.new }
    ensures took { IsTrue hub.new.answers → IfOk result (λ sends.
        acts x12 site (action_view action.now) (IsHub hub.old.hub)
        ≡ Some (record { node = IsHub hub.new.hub; sends = sends_view sends })) }
    ensures nothing { TakesNothing result }
    ensures refused { IsTrue hub.new.answers → IfErr result
        (IsCoreRefusal site.node (Do (action_view action.now)) (IsHub hub.old.hub)) }
    ensures unchanged { IsTrue hub.new.answers → OnErr result (hub.new.hub ≡ hub.old.hub) }
    ensures bounded { IfOk result (λ sends. length (sends_view sends)
        ≤ hub_bound (Do (action_view action.now)) hub.old.memory) }
    ensures store { CountsCore result hub.old.failures hub.new.failures }
{
    if action.node_served() == Some(site.node) {
        return Err(CoreFault::WrongKind);
    }
    match action {
        Action::Collect { node } => {
            let items = hub.collect(*node)?;
            Ok(Sends::Items(site.node, *node, items))
        }
        Action::Enrol { party, node } => {
            hub.enrol(*party, *node)?;
            Ok(Sends::Nothing)
        }
        Action::Dismiss { party } => {
            hub.dismiss(party)?;
            Ok(Sends::Nothing)
        }
        Action::Restart => {
            hub.restart()?;
            Ok(Sends::Nothing)
        }
        _ => Err(CoreFault::WrongKind),
    }
}

/// The hub of this node takes what a packet brings. L3.
fn take<H: HubRecords>(
    hub: &mut Hub<H>,
    node: u16,
    from: u16,
    load: &Load,
    at: &Moment,
) -> Result<Sends, CoreFault>
    ensures disk { KeepsAnswers result (hub_disk hub.old) (hub_disk hub.new) }
    ensures crash { HubStopsWhole H.HubRecords (comes_to_hub x12 node from at.now hub.old.hub (load_view load.now))
        result hub.old hub.new }
    ensures took { IsTrue hub.new.answers → IfOk result (λ sends.
        comes_to_hub x12 node from at.now hub.old.hub (load_view load.now)
        ≡ Some (record { node = IsHub hub.new.hub; sends = sends_view sends })) }
    ensures nothing { TakesNothing result }
    ensures refused { IsTrue hub.new.answers → IfErr result (λ f. (name : PacketName) →
        IsCoreRefusal node (Comes name from (load_view load.now) at.now) (IsHub hub.old.hub) f) }
    ensures unchanged { IsTrue hub.new.answers → OnErr result (hub.new.hub ≡ hub.old.hub) }
    ensures bounded { IfOk result (λ sends. length (sends_view sends) ≤ 2) }
    ensures store { CountsCore result hub.old.failures hub.new.failures }
{
    match load {
        Load::Deposit(sent) => {
            let decision = hub.deposit(sent.bytes(), at)?;
            Ok(refused(node, from, decision))
        }
        Load::Item(item, bytes) => {
            let decision = hub.deposit(bytes, at)?;
            Ok(reported(node, from, *item, decision))
        }
        Load::Refusal(bytes) => {
            hub.deposit(bytes, at)?;
            Ok(Sends::Nothing)
        }
        Load::Taken(item) => {
            hub.taken(from, *item)?;
            Ok(Sends::Nothing)
        }
    }
}

/// Asks the hub of this site. L7 and L3.
pub fn ask_hub<H: HubRecords>(
    hub: &mut Hub<H>,
    site: Site,
    ask: &AskRef<'_>,
) -> Result<Sends, CoreFault>
    ensures disk { KeepsAnswers result (hub_disk hub.old) (hub_disk hub.new) }
    ensures crash { HubStopsWhole H.HubRecords (does_at x12 site (ref_view ask.now) (IsHub hub.old.hub))
        result hub.old hub.new }
    ensures took { IsTrue hub.new.answers → IfOk result (λ sends.
        does_at x12 site (ref_view ask.now) (IsHub hub.old.hub)
        ≡ Some (record { node = IsHub hub.new.hub; sends = sends_view sends })) }
    ensures nothing { TakesNothing result }
    ensures refused { IsTrue hub.new.answers →
        IfErr result (IsCoreRefusal site.node (ref_view ask.now) (IsHub hub.old.hub)) }
    ensures unchanged { IsTrue hub.new.answers → OnErr result (hub.new.hub ≡ hub.old.hub) }
    ensures bounded { IfOk result (λ sends.
        length (sends_view sends) ≤ hub_bound (ref_view ask.now) hub.old.memory) }
    ensures store { CountsCore result hub.old.failures hub.new.failures }
{
    match ask {
        AskRef::Do(action) => act(hub, site, action),
        AskRef::Deliver { from, load, at, .. } => take(hub, site.node, *from, load, at),
        AskRef::Outside { bytes, at } => {
            hub.deposit(bytes, at)?;
            Ok(Sends::Nothing)
        }
    }
}
