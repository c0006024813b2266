//! A station over SQLite tables ends: its records are taken out, taken over, and opened again.

ghost use Rattle.std.specs.Prelude.{IsTrue};
ghost use Rattle.sqlite.specs.Held.{state};
ghost use Rattle.x12_station.specs.Durable.{IsHistoryOf};
ghost use Rattle.x12_station_records.specs.StationContent.{content_of};

use crate::fixture::{ALPHA, BETA, FIRST, HUB, OTHER};
use sqlite::{Alter, Connection};
use std::alloc::Global;
use std::test::Fail;
use x12_acks::SetKey;
use x12_envelopes::{Moment, Party};
use x12_judge::Agreement;
use x12_outbound::Fate;
use x12_records::{RecordsFault, SqliteHubRecords, SqliteRecords};
use x12_samples::moment;
use x12_station::{Records, Station};

/// The set of ALPHA's order.
const ORDER: SetKey = SetKey {
    sender: ALPHA,
    icn: 1,
    group: 1,
    set: 1,
};

/// BETA's reply to it: its set is accepted.
const ACCEPTED: &[u8] =
    b"ISA*00*          *00*          *ZZ*BETA           *ZZ*ALPHA          *250102*0931*U*00401*000000001*0*P*:~GS*FA*BETA*ALPHA*20250102*0931*1*X*004010~ST*997*0001~AK1*PO*1~AK2*850*0001~AK5*A~AK9*A*1*1*1~SE*6*0001~GE*1*1~IEA*1*000000001~";

/// A station of this party over records that are made in a database, or nothing where they can't be
/// made.
pub(crate) fn made<S: Alter + Drop>(
    alloc: Global,
    me: Party,
    conn: Connection<S>,
) -> Option<Station<SqliteRecords<S>>> {
    if !me.is_plain() {
        return None;
    }
    match SqliteRecords::create(conn, me, HUB, None) {
        Ok(records) => Station::open(alloc, me, HUB, None, records).ok(),
        Err(_) => None,
    }
}

/// The database of a station, which it leaves.
fn ended<S: Alter + Drop>(station: Station<SqliteRecords<S>>) -> Connection<S>
    ensures written { IsTrue (state S.Store result).is_open →
        IsHistoryOf station.state.me station.state.hubs (content_of (state S.Store result).now.trees) }
{
    station.close().into_connection()
}

/// The station of a database that this one's records leave, or nothing where they aren't taken over.
pub(crate) fn opened_again<S: Alter + Drop>(
    alloc: Global,
    station: Station<SqliteRecords<S>>,
) -> Option<Station<SqliteRecords<S>>> {
    let (me, hub, other) = (station.party(), station.hub(), station.other());
    match SqliteRecords::adopt(ended(station), me, hub, other) {
        Ok(records) => Station::open(alloc, me, hub, other, records).ok(),
        Err(_) => None,
    }
}

/// Whether ALPHA submits its order, and learns from BETA that it was accepted.
fn learns<R: Records>(alpha: &mut Station<R>, at: &Moment) -> bool {
    alpha.submit_prepared(FIRST).is_ok() && alpha.arrive(ACCEPTED, at).is_ok()
}

#[test]
fn a_fate_stays_when_its_station_is_opened_again(rt: HostRuntime) -> Result<(), Fail> {
    let at = moment()?;
    let conn = Connection::open_in_memory(rt.alloc())?;
    let mut alpha = made(rt.alloc(), ALPHA, conn).ok_or("not made")?;
    let has_learnt = learns(&mut alpha, &at);
    let mut again = opened_again(rt.alloc(), alpha).ok_or("not opened again")?;
    let found = again.fate(&ORDER);
    let _ = again.close();
    assert!(rt; has_learnt && found? == Some(Fate::Accepted));
    Ok(())
}

/// BETA's reply to ALPHA's order, which it agreed to take, and how many sets are posted then.
fn answered<R: Records>(
    alloc: Global,
    beta: &mut Station<R>,
    at: &Moment,
) -> Option<(Vec<u8>, usize)> {
    let pairs = vec![in alloc; (*b"PO", *b"850")].ok()?;
    let partner = ALPHA;
    beta.set_agreement(Agreement {
        partner,
        lenient: false,
        pairs,
    })
    .ok()?;
    let reply = beta.arrive(FIRST, at).ok()?.reply?;
    Some((reply, beta.postings().ok()?.len()))
}

#[test]
fn a_repeat_gets_the_kept_reply_when_its_station_is_opened_again(
    rt: HostRuntime,
) -> Result<(), Fail> {
    let at = moment()?;
    let conn = Connection::open_in_memory(rt.alloc())?;
    let mut beta = made(rt.alloc(), BETA, conn).ok_or("not made")?;
    let first = answered(rt.alloc(), &mut beta, &at);
    let mut again = opened_again(rt.alloc(), beta).ok_or("not opened again")?;
    let second = answered(rt.alloc(), &mut again, &at);
    let _ = again.close();
    let (reply, posted) = first.ok_or("not answered")?;
    let (kept, still_posted) = second.ok_or("not answered again")?;
    assert!(rt; reply == kept && posted == 1 && still_posted == 1);
    Ok(())
}

/// Whether ALPHA's records aren't found in this database.
fn is_refused<S: Alter + Drop>(conn: Connection<S>) -> bool {
    match SqliteRecords::adopt(conn, ALPHA, HUB, None) {
        Ok(_) => false,
        Err((_, fault)) => matches!(fault, RecordsFault::NotOurs),
    }
}

#[test]
fn no_other_database_is_taken_over(rt: HostRuntime) -> Result<(), Fail> {
    let alloc = rt.alloc();
    assert!(rt; is_refused(Connection::open_in_memory(alloc)?));
    match SqliteHubRecords::create(Connection::open_in_memory(alloc)?, HUB) {
        Ok(records) => assert!(rt; is_refused(records.into_connection())),
        Err(_) => return Err(Fail::new("not made")),
    }
    Ok(())
}

/// What `adopt` says of ALPHA's new records, asked for as those of this party at this hub.
fn asked_for(alloc: Global, me: Party, hub: Party) -> Result<Option<RecordsFault>, Fail> {
    asked_at(alloc, None, (me, hub, None))
}

/// What it says where ALPHA's hub is connected to this one; asked for by a party, its hub, and the
/// one that this is connected to.
fn asked_at(
    alloc: Global,
    other: Option<Party>,
    wanted: (Party, Party, Option<Party>),
) -> Result<Option<RecordsFault>, Fail> {
    let conn = Connection::open_in_memory(alloc)?;
    let alpha = match SqliteRecords::create(conn, ALPHA, HUB, other) {
        Ok(records) => records,
        Err(_) => return Err(Fail::new("not made")),
    };
    let conn = alpha.into_connection();
    Ok(
        match SqliteRecords::adopt(conn, wanted.0, wanted.1, wanted.2) {
            Ok(_) => None,
            Err((_, fault)) => Some(fault),
        },
    )
}

#[test]
fn no_other_station_takes_records_over(rt: HostRuntime) -> Result<(), Fail> {
    let other = |found, wanted| Some(RecordsFault::OtherParty { found, wanted });
    assert!(rt; asked_for(rt.alloc(), ALPHA, HUB)?.is_none());
    assert!(rt; asked_for(rt.alloc(), BETA, HUB)? == other(ALPHA, BETA));
    assert!(rt; asked_for(rt.alloc(), ALPHA, BETA)? == other(HUB, BETA));
    Ok(())
}

#[test]
fn records_are_taken_over_at_both_their_hubs(rt: HostRuntime) -> Result<(), Fail> {
    let fault = |found, wanted| Some(RecordsFault::OtherParty { found, wanted });
    let cases: [(&str, Option<Party>, Option<Party>, Option<RecordsFault>); 4] = [
        ("both", Some(OTHER), Some(OTHER), None),
        ("one of two", Some(OTHER), None, fault(OTHER, HUB)),
        ("two of one", None, Some(OTHER), fault(HUB, OTHER)),
        ("another one", Some(OTHER), Some(BETA), fault(OTHER, BETA)),
    ];
    for (name, other, wanted, expected) in cases {
        let found = asked_at(rt.alloc(), other, (ALPHA, HUB, wanted))?;
        assert!(rt; found == expected, "{name}");
    }
    Ok(())
}

#[test]
fn records_say_whose_they_are(rt: HostRuntime) -> Result<(), Fail> {
    let conn = Connection::open_in_memory(rt.alloc())?;
    let mut alpha = match SqliteRecords::create(conn, ALPHA, HUB, None) {
        Ok(records) => records,
        Err(_) => return Err(Fail::new("not made")),
    };
    let owner = alpha.owner()?;
    assert!(rt; owner.party == ALPHA && owner.hub == HUB && owner.other.is_none());
    Ok(())
}
