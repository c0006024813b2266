//! What each piece of evidence is for a ledger, the pieces before it counted.
ghost use Rattle.std.specs.Prelude.{◌≡◌, IfOk, OnOk, map, Some};
ghost use Rattle.x12_acks.specs.Key.{key_view};
ghost use Rattle.x12_acks.specs.Submission.{TransactionSetKey};
ghost use Rattle.x12_outbound.specs.Fate.{final_fate};
ghost use Rattle.x12_outbound.specs.Piece.{finding_view};
ghost use Rattle.x12_outbound.specs.Ledger.{row_view, IcnsRise};
ghost use Rattle.x12_outbound.specs.Settling.{finding, finding_by_fate, fates_after, findings};
ghost use Rattle.x12_outbound.specs.Statement.{evidence_told};
ghost use Rattle.x12_outbound.specs.Finding.{fates_in_both, fates_since, findings_kept};

use crate::evidence::{Finding, Piece, Statement};
use crate::fate::{Fate, FinalFate};
use crate::row::{Row, set_of};
use std::alloc::{AllocError, Global};
use std::collections::BTreeMap;
use x12_acks::SetKey;
use x12_envelopes::Party;

/// The sets that earlier pieces settle, each by its interchange's number and its places.
type Settled = BTreeMap<(u32, u16, u16), FinalFate>;

/// What evidence of this fate is for a set that was accepted, with or without errors noted.
fn finding_at_accepted(fate: FinalFate) -> Finding
    ensures accepted { finding_view result ≡ finding_by_fate (Some Fate.Accepted) (final_fate fate) }
    ensures noted { finding_view result ≡ finding_by_fate (Some Fate.Noted) (final_fate fate) }
{
    match fate {
        FinalFate::Accepted => Finding::Repeats,
        FinalFate::Noted => Finding::Repeats,
        FinalFate::Rejected => Finding::Conflicts,
    }
}

/// What evidence of this fate is for a set that fares so.
fn finding_at(fares: Option<Fate>, fate: FinalFate) -> Finding
    ensures { finding_view result ≡ finding_by_fate fares (final_fate fate) }
{
    match fares {
        None => Finding::Unmatched,
        Some(Fate::Pending) => Finding::Settles,
        Some(Fate::Accepted) => finding_at_accepted(fate),
        Some(Fate::Noted) => finding_at_accepted(fate),
        Some(Fate::Rejected) => match fate {
            FinalFate::Accepted => Finding::Conflicts,
            FinalFate::Noted => Finding::Conflicts,
            FinalFate::Rejected => Finding::Repeats,
        },
    }
}

/// How a set of the ledger, or else of the closed interchanges, fares.
fn fate_in_both(rows: &[Row], closed: &[Row], me: &Party, key: &SetKey) -> Option<Fate>
    requires held { IcnsRise (map row_view rows.now) }
    requires closed { IcnsRise (map row_view closed.now) }
    ensures { result
        ≡ fates_in_both me.now (map row_view rows.now) (map row_view closed.now)
        (key_view key.now) }
{
    match set_of(rows, me, key) {
        Some(set) => Some(set.fate),
        None => match set_of(closed, me, key) {
            Some(set) => Some(set.fate),
            None => None,
        },
    }
}

/// How a set fares, the sets that earlier pieces settle counted.
fn fate_with(
    settled: &Settled,
    rows: &[Row],
    closed: &[Row],
    me: &Party,
    key: &SetKey,
) -> Option<Fate>
    requires held { IcnsRise (map row_view rows.now) }
    requires closed { IcnsRise (map row_view closed.now) }
    ensures { result
        ≡ fates_since settled.now
        (fates_in_both me.now (map row_view rows.now) (map row_view closed.now))
        (key_view key.now) }
{
    let before = fate_in_both(rows, closed, me, key)?;
    match settled.get(&(key.icn, key.group, key.set)) {
        Some(fate) => Some(fate.fate()),
        None => Some(before),
    }
}

/// What a statement is found to be; keeps what it settles.
#[tactic(auto, unfolding(crate::specs::Settling::finding))]
fn find(
    settled: &mut Settled,
    rows: &[Row],
    closed: &[Row],
    me: &Party,
    statement: &Option<Statement>,
) -> Result<Finding, AllocError>
    requires held { IcnsRise (map row_view rows.now) }
    requires closed { IcnsRise (map row_view closed.now) }
    ensures found { IfOk result (λ f.
        let fates = fates_in_both me.now (map row_view rows.now) (map row_view closed.now) in
        finding_view f ≡ finding (fates_since settled.old fates) (evidence_told statement.now)) }
    ensures after { OnOk result (
        let fates = fates_in_both me.now (map row_view rows.now) (map row_view closed.now) in
        (k : TransactionSetKey) → fates_since settled.new fates k
        ≡ fates_after (fates_since settled.old fates) (evidence_told statement.now) k) }
{
    let Some(statement) = statement else {
        return Ok(Finding::Unmatched);
    };
    let key = &statement.key;
    let finding = finding_at(fate_with(settled, rows, closed, me, key), statement.fate);
    if finding != Finding::Settles {
        return Ok(finding);
    }
    settled.insert((key.icn, key.group, key.set), statement.fate)?;
    Ok(Finding::Settles)
}

/// The pieces of a plan, of the statements that answers make.
pub(crate) fn pieces_of(
    alloc: Global,
    rows: &[Row],
    closed: &[Row],
    me: &Party,
    statements: &[Option<Statement>],
) -> Result<Vec<Piece>, AllocError>
    requires held { IcnsRise (map row_view rows.now) }
    requires closed { IcnsRise (map row_view closed.now) }
    ensures said { IfOk result (λ v. map (λ p. p.statement) v.items ≡ statements.now) }
    ensures found { IfOk result (λ v.
        let fates = fates_in_both me.now (map row_view rows.now) (map row_view closed.now) in
        findings_kept v.items ≡ findings fates (map evidence_told statements.now)) }
{
    let mut settled = BTreeMap::new(alloc);
    let mut pieces = Vec::new(alloc);
    for statement in statements {
        let finding = find(&mut settled, rows, closed, me, statement)?;
        pieces.push(Piece {
            statement: *statement,
            finding,
        })?;
    }
    Ok(pieces)
}
