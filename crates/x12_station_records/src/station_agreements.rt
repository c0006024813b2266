//! The table of a station's agreements.

ghost use Rattle.std.specs.Prelude.{◌≡◌, ◌<◌, ◌^◌, ◌++◌, [], ◌∷◌, OnOk, map, IfOk, ◌+◌, ℕ, ◌&&◌};
ghost use Rattle.std.specs.Bool.{beq};
ghost use Rattle.std.specs.List.{list_any};
ghost use Rattle.sqlite.specs.Held.{state};
ghost use Rattle.sqlite.specs.Order.{column};
ghost use Rattle.sqlite.specs.declared.error.Error.TheVariants.{SqliteFailure};
ghost use Rattle.sqlite.specs.declared.error.ErrorCode.TheVariants.{OutOfMemory};
ghost use Rattle.sql_rows.specs.Kept.{IsPart};
ghost use Rattle.x12_judge.specs.Agreement.{agreement_view, is_same_party};
ghost use Rattle.x12_tables.specs.Adopt.{TakesRows};
ghost use Rattle.x12_tables.specs.Change.{Always};
ghost use Rattle.x12_tables.specs.Party.{IsWideParty, bytes_in};
ghost use Rattle.x12_tables.specs.declared.fault.TableFault.TheVariants.{Memory};
ghost use Rattle.x12_station_records.specs.StationAdopt.{IsPair, ArePairs, AreAgreed};
ghost use Rattle.x12_station_records.specs.StationAgreed.{pair_shown, of_one_pair, with_pair};
ghost use Rattle.x12_station_records.specs.StationAgreed.{AreKept};
ghost use Rattle.x12_station_records.specs.StationChange.{Turns, Enters, withdrawn, with_pairs};
ghost use Rattle.x12_station_records.specs.StationContent.{agreements_of};
ghost use Rattle.x12_station_records.specs.StationPart.{PartGoesOn, AddsPair, AddsPairs, AgreesAll};
ghost use Rattle.x12_station_records.specs.StationPart.{is_same_pair};
ghost use Rattle.x12_station_records.specs.StationRead.{StationAnswers};
ghost use Rattle.x12_station_records.specs.StationTables.{pair_of};
ghost use Rattle.x12_station_records.specs.StationTaken.{HasPair, ArePairsKept};

use crate::values::{code_in, lenient_in_row, lenient_value, test_party};
use sql_rows::run;
use sqlite::types::ValueRef;
use sqlite::{Alter, Connection, Error, Row, Transaction};
use std::alloc::Global;
use x12_envelopes::Party;
use x12_judge::Agreement;
use x12_tables::{TableFault, integer, long_in, misplaced, party_bytes, party_in_row, read};

/// GS01 and ST01 of what is taken.
pub(crate) type Pair = ([u8; 2], [u8; 3]);

/// Takes a partner's agreement out, if it has one.
fn withdraw<S: Alter>(tx: &mut Transaction<'_, S>, partner: &Party) -> Result<(), Error>
    ensures same_reference { tx.new.conn.ghost_name ≡ tx.old.conn.ghost_name }
    ensures part { IsPart (Turns (withdrawn partner.now) Always) result
        (state S.Store tx.old.conn.now) (state S.Store tx.new.conn.now) }
    ensures wide { IsWideParty partner.now }
{
    let bytes = party_bytes(partner);
    run(
        tx,
        "DELETE FROM agreement WHERE partner = ?1",
        &[ValueRef::Blob(&bytes)],
    )
}

/// Adds a pair to this agreement, the last one, as the row of this number.
fn add_pair<S: Alter>(
    tx: &mut Transaction<'_, S>,
    at: u64,
    agreement: &Agreement,
    pair: Pair,
) -> Result<(), Error>
    ensures same_reference { tx.new.conn.ghost_name ≡ tx.old.conn.ghost_name }
    ensures part { (pairs : _) → IsPart (Enters at (with_pairs (agreement_view agreement.now) pairs)
        (with_pairs (agreement_view agreement.now) (pairs ++ pair ∷ []))) result
        (state S.Store tx.old.conn.now) (state S.Store tx.new.conn.now) }
    ensures few { OnOk result (at < 2 ^ 63) }
{
    let at = integer(at)?;
    let bytes = party_bytes(&agreement.partner);
    let lenient = lenient_value(agreement.lenient);
    let (functional, set) = pair;
    run(
        tx,
        "INSERT INTO agreement (at, partner, functional, lenient, setid) VALUES (?1, ?2, ?3, ?4, ?5)",
        &[
            ValueRef::Int(at),
            ValueRef::Blob(&bytes),
            ValueRef::Blob(&functional),
            ValueRef::Int(lenient),
            ValueRef::Blob(&set),
        ],
    )
}

/// Whether a pair is among these.
pub(crate) fn is_among(pair: Pair, pairs: &[Pair]) -> bool
    ensures { result ≡ list_any (is_same_pair pair) pairs.now }
{
    pairs.contains(&pair)
}

/// Adds a pair to this agreement, the last one, unless it is among those before; the number of the
/// next row.
fn add_once<S: Alter>(
    tx: &mut Transaction<'_, S>,
    at: u64,
    agreement: &Agreement,
    before: &[Pair],
    pair: Pair,
) -> Result<u64, Error>
    ensures same_reference { tx.new.conn.ghost_name ≡ tx.old.conn.ghost_name }
    ensures part { PartGoesOn (λ to. AddsPair (agreement_view agreement.now) before.now pair at to)
        result (state S.Store tx.old.conn.now) (state S.Store tx.new.conn.now) }
{
    if is_among(pair, before) {
        return Ok(at);
    }
    add_pair(tx, at, agreement, pair)?;
    Ok(at + 1)
}

/// Adds pairs, each once, to this agreement, the last one, of which no pair is written; the number of
/// the next row.
fn add_pairs<S: Alter>(
    tx: &mut Transaction<'_, S>,
    at: u64,
    agreement: &Agreement,
    pairs: &[Pair],
) -> Result<u64, Error>
    ensures same_reference { tx.new.conn.ghost_name ≡ tx.old.conn.ghost_name }
    ensures part { PartGoesOn (λ to. AddsPairs (agreement_view agreement.now) at pairs.now to) result
        (state S.Store tx.old.conn.now) (state S.Store tx.new.conn.now) }
{
    let mut next = at;
    for (i, pair) in pairs.iter().enumerate() {
        next = add_once(tx, next, agreement, &pairs[..i], *pair)?;
    }
    Ok(next)
}

/// Makes an agreement in place of an earlier one with its partner, its pairs as rows from this
/// number on; without pairs it is withdrawn. Gives the number of the next row.
pub(crate) fn agree<S: Alter>(
    tx: &mut Transaction<'_, S>,
    at: u64,
    agreement: &Agreement,
) -> Result<u64, Error>
    ensures same_reference { tx.new.conn.ghost_name ≡ tx.old.conn.ghost_name }
    ensures part { PartGoesOn (λ to. AgreesAll (agreement_view agreement.now) at to) result
        (state S.Store tx.old.conn.now) (state S.Store tx.new.conn.now) }
{
    withdraw(tx, &agreement.partner)?;
    add_pairs(tx, at, agreement, &agreement.pairs)
}

/// The pair in a row of its partner, GS01, ST01 and whether its agreement is lenient.
fn pair_in_row(row: &Row) -> Result<Pair, Error>
    ensures functional { IfOk result (λ pair. pair.0 ≡ bytes_in (column row.now 1)) }
    ensures set { IfOk result (λ pair. pair.1 ≡ bytes_in (column row.now 2)) }
    ensures taken { TakesRows (HasPair row.now) (SqliteFailure OutOfMemory) result }
{
    let functional = code_in(row, 1)?;
    let set = code_in(row, 2)?;
    Ok((functional, set))
}

/// Whether an agreement is with this partner.
fn is_with(agreement: &Agreement, partner: &Party) -> bool
    ensures { result ≡ is_same_party agreement.now.partner partner.now }
{
    agreement.partner == *partner
}

/// Whether a partner has one of these agreements.
fn has_agreement(agreements: &[Agreement], partner: &Party) -> bool
    ensures { result ≡ list_any (λ a. is_same_party a.partner partner.now)
        (map agreement_view agreements.now) }
{
    for agreement in agreements {
        if is_with(agreement, partner) {
            return true;
        }
    }
    false
}

/// Whether an agreement is with this partner, and as lenient.
fn is_of(agreement: &Agreement, partner: &Party, lenient: bool) -> bool
    ensures { result ≡ (is_same_party agreement.now.partner partner.now
        && beq agreement.now.lenient lenient) }
{
    is_with(agreement, partner) && agreement.lenient == lenient
}

/// Puts an agreement of one pair behind the others. Its partner may have none yet.
fn start_agreement(
    agreements: &mut Vec<Agreement>,
    alloc: Global,
    partner: Party,
    lenient: bool,
    pair: Pair,
) -> Result<(), Error>
    requires { AreKept (map agreement_view agreements.old.items) }
    ensures started { OnOk result (map agreement_view agreements.new.items
        ≡ map agreement_view agreements.old.items ++ of_one_pair partner lenient pair ∷ []) }
    ensures kept { OnOk result (AreKept (map agreement_view agreements.new.items)) }
    ensures taken { TakesRows (AreKept (map agreement_view agreements.old.items
        ++ of_one_pair partner lenient pair ∷ [])) (SqliteFailure OutOfMemory) result }
{
    if has_agreement(agreements, &partner) {
        return Err(misplaced());
    }
    let mut pairs = Vec::new(alloc);
    pairs.push(pair)?;
    agreements.push(Agreement {
        partner,
        lenient,
        pairs,
    })?;
    Ok(())
}

/// Puts the last agreement behind the others, with a pair more. It may not have the pair yet.
fn join_agreement(
    agreements: &mut Vec<Agreement>,
    mut last: Agreement,
    pair: Pair,
) -> Result<(), Error>
    requires { AreKept (map agreement_view agreements.old.items ++ agreement_view last ∷ []) }
    ensures joined { OnOk result (map agreement_view agreements.new.items
        ≡ map agreement_view agreements.old.items ++ with_pair (agreement_view last) pair ∷ []) }
    ensures kept { OnOk result (AreKept (map agreement_view agreements.new.items)) }
    ensures taken { TakesRows (AreKept (map agreement_view agreements.old.items
        ++ with_pair (agreement_view last) pair ∷ [])) (SqliteFailure OutOfMemory) result }
{
    if is_among(pair, &last.pairs) {
        return Err(misplaced());
    }
    last.pairs.push(pair)?;
    agreements.push(last)?;
    Ok(())
}

/// Puts a pair behind the others: into the last agreement, or into a new one.
fn put_pair(
    agreements: &mut Vec<Agreement>,
    alloc: Global,
    partner: Party,
    lenient: bool,
    pair: Pair,
) -> Result<(), Error>
    requires { AreKept (map agreement_view agreements.old.items) }
    ensures put { OnOk result ((ps : _) → map agreement_view agreements.old.items ≡ agreements_of ps →
        map agreement_view agreements.new.items
        ≡ agreements_of (ps ++ pair_of partner lenient pair ∷ [])) }
    ensures kept { OnOk result (AreKept (map agreement_view agreements.new.items)) }
    ensures taken { TakesRows ((ps : _) × (map agreement_view agreements.old.items ≡ agreements_of ps)
        × AreKept (agreements_of (ps ++ pair_of partner lenient pair ∷ [])))
        (SqliteFailure OutOfMemory) result }
{
    let Some(last) = agreements.pop() else {
        return start_agreement(agreements, alloc, partner, lenient, pair);
    };
    if is_of(&last, &partner, lenient) {
        return join_agreement(agreements, last, pair);
    }
    agreements.push(last)?;
    start_agreement(agreements, alloc, partner, lenient, pair)
}

/// The agreements of rows of a partner, GS01, ST01 and whether the agreement is lenient.
pub(crate) fn agreements_in_rows(alloc: Global, rows: &[Row]) -> Result<Vec<Agreement>, Error>
    ensures agreements { IfOk result (λ v. map agreement_view v.items
        ≡ agreements_of (map pair_shown rows.now)) }
    ensures kept { IfOk result (λ v. AreKept (map agreement_view v.items)) }
    ensures taken { TakesRows (ArePairsKept rows.now) (SqliteFailure OutOfMemory) result }
{
    let mut agreements = Vec::new(alloc);
    for row in rows {
        let partner = party_in_row(row, 0)?;
        let pair = pair_in_row(row)?;
        let lenient = lenient_in_row(row, 3)?;
        put_pair(&mut agreements, alloc, partner, lenient, pair)?;
    }
    Ok(agreements)
}

/// The agreements in force, in the order in which they were made. A pair out of order is a failure of
/// the device.
pub(crate) fn load_agreements<S: Alter>(conn: &mut Connection<S>) -> Result<Vec<Agreement>, Error>
    ensures answers { StationAnswers (λ s v. map agreement_view v.items ≡ s.agreements) result
        (state S.Store conn.old) (state S.Store conn.new) }
    ensures kept { IfOk result (λ v. AreKept (map agreement_view v.items)) }
{
    let rows = read(
        conn,
        "SELECT partner, functional, setid, lenient FROM agreement ORDER BY at",
        &[],
    )?;
    agreements_in_rows(*rows.allocator(), &rows)
}

/// The number of a pair, in a row of its partner, GS01, ST01, whether its agreement is lenient, and that
/// number, which is above the last.
fn pair_number(row: &Row, last: u64) -> Result<u64, TableFault>
    ensures is { IfOk result (λ at. IsPair last at row.now) }
    ensures taken { TakesRows ((at : ℕ) × IsPair last at row.now) Memory result }
{
    let at = long_in(row, 4)?;
    test_party(row, 0)?;
    let _functional: [u8; 2] = code_in(row, 1)?;
    let _set: [u8; 3] = code_in(row, 2)?;
    let _lenient = lenient_in_row(row, 3)?;
    if at <= last {
        return Err(TableFault::Store);
    }
    Ok(at)
}

/// The number of the last pair; 0 where there is none.
fn last_pair(rows: &[Row]) -> Result<u64, TableFault>
    ensures are { IfOk result (λ end. ArePairs 0 end rows.now) }
    ensures taken { TakesRows ((end : ℕ) × ArePairs 0 end rows.now) Memory result }
{
    let mut last = 0;
    for row in rows {
        last = pair_number(row, last)?;
    }
    Ok(last)
}

/// Tests that one agreement stands for a partner, with each pair once.
fn test_agreements(alloc: Global, rows: &[Row]) -> Result<(), TableFault>
    ensures kept { OnOk result (AreKept (agreements_of (map pair_shown rows.now))) }
    ensures taken { TakesRows (ArePairsKept rows.now) Memory result }
{
    let _agreements = agreements_in_rows(alloc, rows)?;
    Ok(())
}

/// The number of the next pair of an agreement.
pub(crate) fn next_pair(alloc: Global, rows: &[Row]) -> Result<u64, TableFault>
    ensures are { IfOk result (λ next. AreAgreed next rows.now) }
    ensures taken { TakesRows ((end : ℕ) × ArePairs 0 end rows.now × (end + 1 < 2 ^ 64)
        × ArePairsKept rows.now) Memory result }
{
    test_agreements(alloc, rows)?;
    let last = last_pair(rows)?;
    match last.checked_add(1) {
        Some(next) => Ok(next),
        None => Err(TableFault::Store),
    }
}
