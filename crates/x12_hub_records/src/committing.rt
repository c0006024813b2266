//! A commit of a hub's records: one transaction, by what the tables stand for.

ghost use Rattle.std.specs.Prelude.{◌≡◌, ◌<◌, IsTrue, IfSome, MatchResult, false};
ghost use Rattle.sqlite.specs.Held.{state};
ghost use Rattle.sql_rows.specs.Kept.{IsWhole, IsPart};
ghost use Rattle.x12_hub.specs.Plan.{hub_stored_after, Decides, hub_changed};
ghost use Rattle.x12_profile.specs.Stop.{WritesWhole};
ghost use Rattle.x12_hub.specs.Stored.{IsSoundHub};
ghost use Rattle.x12_hub.specs.Hub.{Boxed};
ghost use Rattle.x12_hub.specs.Record.{hub_act_view, decision_view};
ghost use Rattle.x12_tables.specs.Change.{ChangesSeen};
ghost use Rattle.x12_hub_records.specs.HubChange.{last_after, FollowsHubCommit, TurnsHub};
ghost use Rattle.x12_hub_records.specs.HubChange.{FitsAfter, MakesHubAct};
ghost use Rattle.x12_hub_records.specs.HubContent.{hub_content_of, IsValidHub, MayHoldHub};

use crate::decisions::{add_boxed, add_refused};
use crate::directory::{dismiss, enrol};
use crate::hub_numbers::count;
use crate::mailboxes::{put, take};
use sqlite::{Alter, Connection, Error, ErrorCode, Transaction};
use x12_hub::{Decision, HubChange, HubPlan};

/// The last number of an entry after a plan that gives `at` to what it enrols.
fn last_after_plan(last: u32, at: u32, plan: &HubPlan) -> u32
    ensures { result ≡ last_after plan.now.change at last }
{
    match plan.view().change {
        HubChange::Enrolled(_, _) => at,
        _ => last,
    }
}

/// A number above the last one, if there is one.
fn next_number(last: u32) -> Option<u32>
    ensures { IfSome result (λ at. last < at) }
{
    last.checked_add(1)
}

/// Writes a plan, whole or not at all.
pub(crate) fn commit<S: Alter>(
    conn: &mut Connection<S>,
    last: &mut u32,
    plan: &HubPlan,
) -> Result<(), Error>
    requires valid { IsValidHub last.old (state S.Store conn.old) }
    requires fits { IsTrue (state S.Store conn.old).is_open →
        IsSoundHub (hub_stored_after plan.now (hub_content_of (state S.Store conn.old).now.trees)) }
    ensures valid { IsValidHub last.new (state S.Store conn.new) }
    ensures never_won_back { IsTrue (state S.Store conn.new).is_open →
        IsTrue (state S.Store conn.old).is_open }
    ensures written { IsTrue (state S.Store conn.new).is_open → MatchResult result
        (λ done. hub_content_of (state S.Store conn.new).now.trees
        ≡ hub_stored_after plan.now (hub_content_of (state S.Store conn.old).now.trees))
        (λ e. hub_content_of (state S.Store conn.new).now.trees
        ≡ hub_content_of (state S.Store conn.old).now.trees) }
    ensures crash { WritesWhole (λ d. IsTrue (state S.Store conn.old).is_open
        × (d ≡ hub_stored_after plan.now (hub_content_of (state S.Store conn.old).now.trees)))
        result (state S.Store conn.old).is_clean (state S.Store conn.new).is_clean
        (state S.Store conn.new).is_open (MayHoldHub (state S.Store conn.old))
        (MayHoldHub (state S.Store conn.new)) }
{
    let Some(at) = next_number(*last) else {
        return Err(Error::SqliteFailure(ErrorCode::NoRowid));
    };
    match write(conn, at, plan) {
        Ok(()) => {
            *last = last_after_plan(*last, at, plan);
            Ok(())
        }
        Err(error) => Err(error),
    }
}

/// Writes a plan in one transaction, whole or not at all; an enrolled entry gets the number `at`.
pub(crate) fn write<S: Alter>(
    conn: &mut Connection<S>,
    at: u32,
    plan: &HubPlan,
) -> Result<(), Error>
    requires { conn.old.in_transaction ≡ false }
    ensures mode { conn.new.in_transaction ≡ false }
    ensures whole { IsWhole (FollowsHubCommit at plan.now) result
        (state S.Store conn.old) (state S.Store conn.new) }
{
    let mut tx = conn.transaction();
    make(&mut tx, at, plan)?;
    tx.commit()
}

/// Boxes an item under the next item number: the decision, and then its place in the mailbox.
fn box_item<S: Alter>(
    tx: &mut Transaction<'_, S>,
    item: u32,
    bytes: &[u8],
    node: u16,
    boxed: u32,
) -> Result<(), Error>
    ensures same_reference { tx.new.conn.ghost_name ≡ tx.old.conn.ghost_name }
    ensures part { IsPart (TurnsHub (hub_changed (Decides bytes.now (Boxed node boxed)))
        (FitsAfter item (Decides bytes.now (Boxed node boxed)))) result
        (state S.Store tx.old.conn.now) (state S.Store tx.new.conn.now) }
{
    add_boxed(tx, item, bytes, node)?;
    put(tx, node, boxed)
}

/// Adds a first decision, under the next item number.
fn decide<S: Alter>(
    tx: &mut Transaction<'_, S>,
    item: u32,
    bytes: &[u8],
    decision: &Decision,
) -> Result<(), Error>
    ensures same_reference { tx.new.conn.ghost_name ≡ tx.old.conn.ghost_name }
    ensures part { IsPart (TurnsHub (hub_changed (Decides bytes.now (decision_view decision.now)))
        (FitsAfter item (Decides bytes.now (decision_view decision.now)))) result
        (state S.Store tx.old.conn.now) (state S.Store tx.new.conn.now) }
{
    match decision {
        Decision::Boxed { node, item: boxed } => box_item(tx, item, bytes, *node, *boxed),
        Decision::Refused(reply) => add_refused(tx, item, bytes, reply),
    }
}

/// Makes a plan's change; an enrolled entry gets the number `at`.
fn change<S: Alter>(
    tx: &mut Transaction<'_, S>,
    at: u32,
    item: u32,
    change: &HubChange,
) -> Result<(), Error>
    ensures same_reference { tx.new.conn.ghost_name ≡ tx.old.conn.ghost_name }
    ensures part { IsPart (MakesHubAct at item (hub_act_view change.now)) result
        (state S.Store tx.old.conn.now) (state S.Store tx.new.conn.now) }
{
    match change {
        HubChange::Decided { bytes, decision } => decide(tx, item, bytes, decision),
        HubChange::PutBack { node, item } => put(tx, *node, *item),
        HubChange::TakenOut(item) => take(tx, *item),
        HubChange::Enrolled(party, node) => enrol(tx, at, party, *node),
        HubChange::Dismissed(party) => dismiss(tx, party),
    }
}

/// Makes a plan's change, and writes its numbers.
pub(crate) fn make<S: Alter>(
    tx: &mut Transaction<'_, S>,
    at: u32,
    plan: &HubPlan,
) -> Result<(), Error>
    ensures same_reference { tx.new.conn.ghost_name ≡ tx.old.conn.ghost_name }
    ensures part { IsPart (ChangesSeen (FollowsHubCommit at plan.now)) result
        (state S.Store tx.old.conn.now) (state S.Store tx.new.conn.now) }
{
    let view = plan.view();
    change(tx, at, view.item, view.change)?;
    count(tx, view.icn, view.item)
}
