//! A commit of a station's records: one transaction, by what the tables stand for.

ghost use Rattle.std.specs.Prelude.{◌≡◌, IsTrue, MatchResult, false, map};
ghost use Rattle.sqlite.specs.Held.{state};
ghost use Rattle.x12_station.specs.Plan.{stored_after, Submits, Files, Agrees};
ghost use Rattle.x12_profile.specs.Stop.{WritesWhole};
ghost use Rattle.x12_station.specs.Stored.{IsSound};
ghost use Rattle.x12_judge.specs.Agreement.{agreement_view};
ghost use Rattle.x12_outbound.specs.Entry.{entry_row};
ghost use Rattle.x12_outbound.specs.Settling.{target_view};
ghost use Rattle.x12_station.specs.Record.{change_view};
ghost use Rattle.x12_tables.specs.Change.{ChangesSeen};
ghost use Rattle.x12_station_records.specs.StationContent.{content_of, IsValid, MayHold};
ghost use Rattle.x12_station_records.specs.StationPart.{PartGoesOn};
ghost use Rattle.x12_station_records.specs.StationPlan.{FollowsCommit, IsWholeWith, Makes};
ghost use Rattle.x12_station_records.specs.StationPlan.{IsPartWith};

use crate::station_agreements::agree;
use crate::station_inbound::file;
use crate::station_numbers::count;
use crate::station_outbound::submit;
use sqlite::{Alter, Connection, Error, Transaction};
use x12_acks::SetKey;
use x12_inbound::Kept;
use x12_judge::Agreement;
use x12_outbound::{Entry, Fate};
use x12_station::{Change, Planned};

/// Writes a plan, whole or not at all; the next rows get other numbers where it was written.
pub(crate) fn commit<S: Alter>(
    conn: &mut Connection<S>,
    next: &mut NextRows,
    plan: &Planned,
) -> Result<(), Error>
    requires valid { IsValid next.old (state S.Store conn.old) }
    requires fits { IsTrue (state S.Store conn.old).is_open →
        IsSound (stored_after plan.now (content_of (state S.Store conn.old).now.trees)) }
    ensures valid { IsValid next.new (state S.Store conn.new) }
    ensures never_won_back { IsTrue (state S.Store conn.new).is_open →
        IsTrue (state S.Store conn.old).is_open }
    ensures written { IsTrue (state S.Store conn.new).is_open → MatchResult result
        (λ done. content_of (state S.Store conn.new).now.trees
        ≡ stored_after plan.now (content_of (state S.Store conn.old).now.trees))
        (λ e. content_of (state S.Store conn.new).now.trees
        ≡ content_of (state S.Store conn.old).now.trees) }
    ensures crash { WritesWhole (λ d. IsTrue (state S.Store conn.old).is_open
        × (d ≡ stored_after plan.now (content_of (state S.Store conn.old).now.trees)))
        result (state S.Store conn.old).is_clean (state S.Store conn.new).is_clean
        (state S.Store conn.new).is_open (MayHold (state S.Store conn.old))
        (MayHold (state S.Store conn.new)) }
{
    match write(conn, *next, plan) {
        Ok(to) => {
            *next = to;
            Ok(())
        }
        Err(error) => Err(error),
    }
}

/// Writes a plan in one transaction, whole or not at all; the numbers of the next rows.
pub(crate) fn write<S: Alter>(
    conn: &mut Connection<S>,
    next: NextRows,
    plan: &Planned,
) -> Result<NextRows, Error>
    requires { conn.old.in_transaction ≡ false }
    ensures mode { conn.new.in_transaction ≡ false }
    ensures whole { IsWholeWith (λ to. FollowsCommit plan.now next to) result
        (state S.Store conn.old) (state S.Store conn.new) }
{
    let mut tx = conn.transaction();
    let to = write_plan(&mut tx, next, plan)?;
    tx.commit()?;
    Ok(to)
}

/// The numbers that the next rows get.
#[derive(Clone, Copy)]
pub(crate) struct NextRows {
    /// Of a pair of an agreement.
    pub(crate) agreement: u64,
    /// Of a transaction set.
    pub(crate) set: u64,
    /// Of a posting.
    pub(crate) posting: u64,
}

/// Writes a submission under this number; the numbers of the next rows.
fn write_submission<S: Alter>(
    tx: &mut Transaction<'_, S>,
    next: NextRows,
    seq: u64,
    entry: &Entry,
) -> Result<NextRows, Error>
    ensures same_reference { tx.new.conn.ghost_name ≡ tx.old.conn.ghost_name }
    ensures part { PartGoesOn (λ to. Makes seq (Submits (entry_row entry.now)) next to) result
        (state S.Store tx.old.conn.now) (state S.Store tx.new.conn.now) }
{
    let set = submit(tx, next.set, seq, entry)?;
    Ok(NextRows { set, ..next })
}

/// Writes a first arrival under this number, and what it settles; the numbers of the next rows.
fn write_arrival<S: Alter>(
    tx: &mut Transaction<'_, S>,
    next: NextRows,
    seq: u64,
    kept: &Kept,
    settled: &[(SetKey, Fate)],
) -> Result<NextRows, Error>
    ensures same_reference { tx.new.conn.ghost_name ≡ tx.old.conn.ghost_name }
    ensures part { PartGoesOn (λ to. Makes seq (Files kept.now (map target_view settled.now)) next to)
        result (state S.Store tx.old.conn.now) (state S.Store tx.new.conn.now) }
{
    let posting = file(tx, next.posting, seq, kept, settled)?;
    Ok(NextRows { posting, ..next })
}

/// Writes an agreement; the numbers of the next rows.
fn write_agreement<S: Alter>(
    tx: &mut Transaction<'_, S>,
    next: NextRows,
    agreement: &Agreement,
) -> Result<NextRows, Error>
    ensures same_reference { tx.new.conn.ghost_name ≡ tx.old.conn.ghost_name }
    ensures part { (seq : _) → PartGoesOn (λ to. Makes seq (Agrees (agreement_view agreement.now))
        next to) result (state S.Store tx.old.conn.now) (state S.Store tx.new.conn.now) }
{
    let agreement = agree(tx, next.agreement, agreement)?;
    Ok(NextRows { agreement, ..next })
}

/// Makes a plan's change; a submission or an arrival gets this number. Gives the numbers of the next
/// rows.
fn write_change<S: Alter>(
    tx: &mut Transaction<'_, S>,
    next: NextRows,
    seq: u64,
    change: &Change,
) -> Result<NextRows, Error>
    ensures same_reference { tx.new.conn.ghost_name ≡ tx.old.conn.ghost_name }
    ensures part { PartGoesOn (λ to. Makes seq (change_view change.now) next to) result
        (state S.Store tx.old.conn.now) (state S.Store tx.new.conn.now) }
{
    match change {
        Change::Submitted(entry) => write_submission(tx, next, seq, entry),
        Change::Arrived { kept, settled } => write_arrival(tx, next, seq, kept, settled),
        Change::Agreed(agreement) => write_agreement(tx, next, agreement),
        Change::Numbered => Ok(next),
    }
}

/// Writes a plan's numbers, and makes its change; the numbers of the next rows.
pub(crate) fn write_plan<S: Alter>(
    tx: &mut Transaction<'_, S>,
    next: NextRows,
    plan: &Planned,
) -> Result<NextRows, Error>
    ensures same_reference { tx.new.conn.ghost_name ≡ tx.old.conn.ghost_name }
    ensures part { IsPartWith (λ to. ChangesSeen (FollowsCommit plan.now next to)) result
        (state S.Store tx.old.conn.now) (state S.Store tx.new.conn.now) }
{
    let view = plan.view();
    count(tx, view.book, view.seq)?;
    write_change(tx, next, view.seq, view.change)
}
