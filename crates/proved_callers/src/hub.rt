//! A hub over SQLite tables: its records are given back, and taken over again.

use crate::fixture::{BETA, FIRST, HUB, SECOND};
use sqlite::{Alter, Connection};
use std::alloc::Global;
use std::test::Fail;
use x12_hub::{Decision, Hub, HubRecords};
use x12_records::{RecordsFault, SqliteHubRecords};
use x12_samples::moment;

/// A hub over records that are made in a database, or nothing where they can't be made.
#[tactic(auto, unfolding(x12_envelopes::specs::Party::is_plain_party))]
pub(crate) fn made<S: Alter + Drop>(
    alloc: Global,
    conn: Connection<S>,
) -> Option<Hub<SqliteHubRecords<S>>> {
    match SqliteHubRecords::create(conn, HUB) {
        Ok(records) => Hub::open(alloc, HUB, records).ok(),
        Err(_) => None,
    }
}

/// A hub over the records that are found in a database, or nothing where they aren't taken over.
#[tactic(auto, unfolding(x12_envelopes::specs::Party::is_plain_party))]
pub(crate) fn taken_over<S: Alter + Drop>(
    alloc: Global,
    conn: Connection<S>,
) -> Option<Hub<SqliteHubRecords<S>>> {
    match SqliteHubRecords::adopt(conn, HUB) {
        Ok(records) => Hub::open(alloc, HUB, records).ok(),
        Err(_) => None,
    }
}

/// The database of a hub, which it leaves.
pub(crate) fn ended<S: Alter + Drop>(hub: Hub<SqliteHubRecords<S>>) -> Connection<S> {
    hub.close().into_connection()
}

/// Whether an interchange was put into the mailbox of BETA's node, as the item of this number.
pub(crate) fn boxes(decision: &Decision, number: u32) -> bool {
    match decision {
        Decision::Boxed { node, item } => *node == 2 && *item == number,
        Decision::Refused(_) => false,
    }
}

/// Whether a deposit is decided as the item of this number, for BETA's node.
pub(crate) fn is_boxed<H: HubRecords>(
    hub: &mut Hub<H>,
    bytes: &[u8],
    number: u32,
) -> Result<bool, Fail> {
    let at = moment()?;
    Ok(boxes(&hub.deposit(bytes, &at)?, number))
}

/// Whether these are the items of these interchanges, numbered from 1.
pub(crate) fn are_items(found: &[(u32, Vec<u8>)], all: &[&[u8]]) -> bool {
    let mut number = 0u32;
    for ((item, bytes), want) in found.iter().zip(all) {
        number = number.saturating_add(1);
        if *item != number || bytes.as_slice() != *want {
            return false;
        }
    }
    found.len() == all.len()
}

/// Whether BETA's node finds these interchanges in its mailbox, with item numbers from 1.
pub(crate) fn holds<H: HubRecords>(hub: &mut Hub<H>, all: &[&[u8]]) -> Result<bool, Fail> {
    Ok(are_items(&hub.collect(2)?, all))
}

#[test]
fn records_that_are_given_back_are_taken_over_again(rt: HostRuntime) -> Result<(), Fail> {
    let conn = Connection::open_in_memory(rt.alloc())?;
    let mut hub = made(rt.alloc(), conn).ok_or("not made")?;
    hub.enrol(BETA, 2)?;
    assert!(rt; is_boxed(&mut hub, FIRST, 1)? && is_boxed(&mut hub, SECOND, 2)?);
    let mut hub = taken_over(rt.alloc(), ended(hub)).ok_or("not taken over")?;
    assert!(rt; !hub.is_new() && holds(&mut hub, &[FIRST, SECOND])?);
    assert!(rt; is_boxed(&mut hub, FIRST, 1)? && hub.taken(2, 1)?);
    Ok(())
}

#[test]
fn tables_are_made_once_and_others_are_refused(rt: HostRuntime) -> Result<(), Fail> {
    let conn = Connection::open_in_memory(rt.alloc())?;
    let (conn, fault) = SqliteHubRecords::adopt(conn, HUB)
        .err()
        .ok_or("taken over")?;
    assert_eq!(rt; fault, RecordsFault::NotOurs);
    let hub = made(rt.alloc(), conn).ok_or("not made")?;
    let (conn, fault) = SqliteHubRecords::create(ended(hub), HUB)
        .err()
        .ok_or("made twice")?;
    assert_eq!(rt; fault, RecordsFault::NotOurs);
    let (conn, fault) = SqliteHubRecords::adopt(conn, BETA)
        .err()
        .ok_or("taken over")?;
    let (found, wanted) = (HUB, BETA);
    assert_eq!(rt; fault, RecordsFault::OtherParty { found, wanted });
    assert!(rt; taken_over(rt.alloc(), conn).is_some());
    Ok(())
}
