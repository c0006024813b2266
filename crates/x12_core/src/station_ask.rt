//! What a station does where it is asked.

ghost use Rattle.std.specs.Prelude.{◌≡◌, ◌≤◌, ◌∷◌, [], IsTrue, IfOk, IfErr, OnErr, Some, length};
ghost use Rattle.std.specs.Prelude.{option_to_list};
ghost use Rattle.std.specs.Arc.{arc_slice_items};
ghost use Rattle.x12_inbound.specs.Filing.{reply_bytes};
ghost use Rattle.x12_judge.specs.Agreement.{agreement_view};
ghost use Rattle.x12_core.specs.Action.{acts};
ghost use Rattle.x12_core.specs.Ask.{does_at, Comes, Do};
ghost use Rattle.x12_core.specs.Bound.{station_bound};
ghost use Rattle.x12_core.specs.Disk.{station_disk, KeepsAnswers, StopsWhole};
ghost use Rattle.x12_core.specs.Core.{IsCoreRefusal};
ghost use Rattle.x12_core.specs.Effect.{comes_to_station, deposits, reports_taken};
ghost use Rattle.x12_core.specs.Fault.{CountsCore};
ghost use Rattle.x12_core.specs.Packet.{PacketName};
ghost use Rattle.x12_core.specs.Sends.{sends_view};
ghost use Rattle.x12_core.specs.Submission.{listed, SubmitsMore};
ghost use Rattle.x12_core.specs.Node.{IsStation};
ghost use Rattle.x12_core.specs.View.{action_view, load_view, ref_view};
ghost use Rattle.x12_profile.specs.X12.{x12};

use crate::action::Action;
use crate::ask::AskRef;
use crate::fault::CoreFault;
use crate::packet::{Load, Site};
use crate::sends::{Sends, deposit, report};
use std::alloc::{AllocError, Global};
use x12_envelopes::Moment;
use x12_judge::Agreement;
use x12_station::{Outgoing, Records, Sent, Station};

/// What was submitted, for the station's hub.
fn submitted(at: Site, sent: Sent) -> Sends
    ensures sends { sends_view result ≡ deposits at (arc_slice_items sent.bytes ∷ []) }
    ensures listed { listed result ≡ record { node = at.node; icn = sent.icn } ∷ [] }
{
    let Sent { icn, bytes } = sent;
    Sends::Submitted(at, icn, bytes)
}

/// A reply, if there is one, for the station's hub.
fn answered(at: Site, reply: Option<Vec<u8>>) -> Sends
    ensures sends { sends_view result ≡ deposits at (option_to_list (reply_bytes reply)) }
    ensures listed { listed result ≡ [] }
{
    match reply {
        Some(reply) => Sends::One(deposit(at, Outgoing::Own(reply))),
        None => Sends::Nothing,
    }
}

/// The report of an item as taken, for the hub that sent it, and then its reply, if there is one.
fn reported(at: Site, from: u16, item: u32, reply: Option<Vec<u8>>) -> Sends
    ensures sends { sends_view result
        ≡ reports_taken at.node from item ∷ deposits at (option_to_list (reply_bytes reply)) }
    ensures listed { listed result ≡ [] }
{
    let taken = report(at.node, from, item);
    match reply {
        Some(reply) => Sends::Two(taken, deposit(at, Outgoing::Own(reply))),
        None => Sends::One(taken),
    }
}

/// A copy of an agreement.
fn copied(alloc: Global, agreement: &Agreement) -> Result<Agreement, AllocError>
    ensures { IfOk result (λ a. agreement_view a ≡ agreement_view agreement.now) }
{
    Ok(Agreement {
        partner: agreement.partner,
        lenient: agreement.lenient,
        pairs: Vec::from_slice(alloc, &agreement.pairs)?,
    })
}

/// The station of this site acts so. L7; L4 where an agreement can't be copied; L3.
fn act<R: Records>(
    alloc: Global,
    station: &mut Station<R>,
    site: Site,
    action: &Action,
) -> Result<Sends, CoreFault>
    ensures disk { KeepsAnswers result (station_disk station.old) (station_disk station.new) }
    ensures crash { StopsWhole R.Records (acts x12 site (action_view action.now) (IsStation station.old.state))
        result station.old station.new }
    ensures took { IsTrue station.new.answers → IfOk result (λ sends.
        acts x12 site (action_view action.now) (IsStation station.old.state)
        ≡ Some (record { node = IsStation station.new.state; sends = sends_view sends })) }
    ensures submits { IsTrue station.new.answers → IfOk result (λ sends.
        SubmitsMore site.node station.old.state station.new.state (listed sends)) }
    ensures refused { IsTrue station.new.answers → IfErr result
        (IsCoreRefusal site.node (Do (action_view action.now)) (IsStation station.old.state)) }
    ensures unchanged { IsTrue station.new.answers →
        OnErr result (station.new.state ≡ station.old.state) }
    ensures bounded { IfOk result (λ sends. length (sends_view sends)
        ≤ station_bound (Do (action_view action.now)) station.old.memory) }
    ensures store { CountsCore result station.old.failures station.new.failures }
{
    match action {
        Action::SubmitOrders { to, at, orders } => {
            let sent = station.submit_orders(*to, at, orders)?;
            Ok(submitted(site, sent))
        }
        Action::SubmitPrepared { bytes } => {
            let sent = station.submit_prepared(bytes)?;
            Ok(submitted(site, sent))
        }
        Action::Tick { now } => {
            let due = station.tick(*now)?;
            Ok(Sends::Deposits(site, due))
        }
        Action::Agree { agreement } => {
            let agreement = copied(alloc, agreement)?;
            station.set_agreement(agreement)?;
            Ok(Sends::Nothing)
        }
        Action::Restart => {
            station.restart()?;
            Ok(Sends::Nothing)
        }
        _ => Err(CoreFault::WrongKind),
    }
}

/// The station of this site takes what a packet brings. L7 and L3.
fn take<R: Records>(
    station: &mut Station<R>,
    site: Site,
    from: u16,
    load: &Load,
    at: &Moment,
) -> Result<Sends, CoreFault>
    ensures disk { KeepsAnswers result (station_disk station.old) (station_disk station.new) }
    ensures crash { StopsWhole R.Records (comes_to_station x12 site from at.now station.old.state (load_view load.now))
        result station.old station.new }
    ensures took { IsTrue station.new.answers → IfOk result (λ sends.
        comes_to_station x12 site from at.now station.old.state (load_view load.now)
        ≡ Some (record { node = IsStation station.new.state; sends = sends_view sends })) }
    ensures submits { IsTrue station.new.answers → IfOk result (λ sends.
        SubmitsMore site.node station.old.state station.new.state (listed sends)) }
    ensures refused { IsTrue station.new.answers → IfErr result (λ f. (name : PacketName) →
        IsCoreRefusal site.node (Comes name from (load_view load.now) at.now)
        (IsStation station.old.state) f) }
    ensures unchanged { IsTrue station.new.answers →
        OnErr result (station.new.state ≡ station.old.state) }
    ensures bounded { IfOk result (λ sends. length (sends_view sends) ≤ 2) }
    ensures store { CountsCore result station.old.failures station.new.failures }
{
    match load {
        Load::Item(item, bytes) => {
            let arrival = station.arrive(bytes, at)?;
            Ok(reported(site, from, *item, arrival.reply))
        }
        Load::Refusal(bytes) => {
            let arrival = station.arrive(bytes, at)?;
            Ok(answered(site, arrival.reply))
        }
        Load::Deposit(_) => Err(CoreFault::WrongKind),
        Load::Taken(_) => Err(CoreFault::WrongKind),
    }
}

/// Asks the station of this site. L7; L4 where an agreement can't be copied; L3.
pub fn ask_station<R: Records>(
    alloc: Global,
    station: &mut Station<R>,
    site: Site,
    ask: &AskRef<'_>,
) -> Result<Sends, CoreFault>
    ensures disk { KeepsAnswers result (station_disk station.old) (station_disk station.new) }
    ensures crash { StopsWhole R.Records (does_at x12 site (ref_view ask.now) (IsStation station.old.state))
        result station.old station.new }
    ensures took { IsTrue station.new.answers → IfOk result (λ sends.
        does_at x12 site (ref_view ask.now) (IsStation station.old.state)
        ≡ Some (record { node = IsStation station.new.state; sends = sends_view sends })) }
    ensures submits { IsTrue station.new.answers → IfOk result (λ sends.
        SubmitsMore site.node station.old.state station.new.state (listed sends)) }
    ensures refused { IsTrue station.new.answers → IfErr result
        (IsCoreRefusal site.node (ref_view ask.now) (IsStation station.old.state)) }
    ensures unchanged { IsTrue station.new.answers →
        OnErr result (station.new.state ≡ station.old.state) }
    ensures bounded { IfOk result (λ sends.
        length (sends_view sends) ≤ station_bound (ref_view ask.now) station.old.memory) }
    ensures store { CountsCore result station.old.failures station.new.failures }
{
    match ask {
        AskRef::Do(action) => act(alloc, station, site, action),
        AskRef::Deliver { from, load, at, .. } => take(station, site, *from, load, at),
        AskRef::Outside { bytes, at } => {
            let arrival = station.arrive(bytes, at)?;
            Ok(answered(site, arrival.reply))
        }
    }
}
