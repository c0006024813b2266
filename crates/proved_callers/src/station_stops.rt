//! A station over a database whose files both stop at one of their calls: a submission and an arrival
//! are kept whole or not at all, and whole where they were answered; what was said before stays; and
//! the call made again does what it would have done. Each station is opened over what the stop left,
//! by what the end of the one before it ensures.

ghost use Rattle.std.specs.Prelude.{IsTrue, IfOk};
ghost use Rattle.proved_callers.specs.Stop.{MayOpen, MayStop};

use crate::again::made;
use crate::disk::{NEVER, STEPS, Stop, Stops, empty, killed, large, lost, opened, small};
use crate::fixture::{ALPHA, BETA, FIRST, FROM_GAMMA, GAMMA, HUB, MIXED, THIRD, first_set};
use sqlite::Files;
use sqlite_disk::Disk;
use std::alloc::Global;
use std::process::Abort;
use std::test::Fail;
use x12_envelopes::Moment;
use x12_outbound::Fate;
use x12_records::{leave_station, open_station_over};
use x12_samples::{moment, orders_from};
use x12_station::{ArrivalKind, Item, Outgoing, Records, Station, StationFault};

/// How many moments a call has at which both files may stop, at most.
const MOST: u64 = 400;

/// What a station is asked, as its files stop.
#[derive(Clone, Copy, PartialEq, Eq)]
enum Asked {
    /// To submit ALPHA's next order.
    Submission,
    /// To take an interchange that accepts the first one, and has an order to ALPHA.
    Arrival,
}

/// ALPHA agrees with both partners, submits its first order, and takes GAMMA's: the reply.
fn told<R: Records>(alloc: Global, alpha: &mut Station<R>) -> Result<Vec<u8>, Fail> {
    alpha.set_agreement(orders_from(alloc, BETA)?)?;
    alpha.set_agreement(orders_from(alloc, GAMMA)?)?;
    alpha.submit_prepared(FIRST)?;
    Ok(
        alpha
            .arrive(FROM_GAMMA, &moment()?)?
            .reply
            .ok_or("no reply")?,
    )
}

/// What a station of ALPHA that was told so leaves in files that hold nothing, and the reply that it
/// gave.
fn before<D: Disk + Drop>(alloc: Global, files: Files<D>) -> Result<(Files<D>, Vec<u8>), Fail>
    ensures { IfOk result (λ r. MayStop D.Disk r.0) }
{
    let conn = opened(alloc, files).ok_or("not opened")?;
    let mut alpha = made(alloc, ALPHA, conn).ok_or("not made")?;
    let reply = told(alloc, &mut alpha);
    let files = leave_station(alpha);
    Ok((files, reply?))
}

/// What the call answers, which is to be sent; none where none is due.
fn ask<R: Records>(
    alpha: &mut Station<R>,
    asked: Asked,
    at: &Moment,
) -> Result<Option<Outgoing>, StationFault> {
    match asked {
        Asked::Submission => Ok(Some(Outgoing::Shared(alpha.submit_prepared(THIRD)?.bytes))),
        Asked::Arrival => match alpha.arrive(MIXED, at)?.reply {
            Some(reply) => Ok(Some(Outgoing::Own(reply))),
            None => Ok(None),
        },
    }
}

/// Whether ALPHA's next order is among its submissions, among all items, and pending.
fn has_submitted<R: Records>(alpha: &mut Station<R>) -> Result<[bool; 3], Fail> {
    let is_kept = match alpha.submission(3)? {
        Some(bytes) => bytes.as_slice() == THIRD,
        None => false,
    };
    let is_item = match alpha.item(3)? {
        Some(Item::Submitted(bytes)) => bytes.as_slice() == THIRD,
        Some(Item::Came(_filed)) => false,
        None => false,
    };
    let fate = alpha.fate(&first_set(ALPHA, 3))?;
    Ok([is_kept, is_item, fate == Some(Fate::Pending)])
}

/// Whether BETA's interchange is among all items with its reply, its order is posted, and the first
/// order of ALPHA accepted.
fn has_taken<R: Records>(alpha: &mut Station<R>) -> Result<[bool; 3], Fail> {
    let is_item = match alpha.item(3)? {
        Some(Item::Came(filed)) => filed.bytes.as_slice() == MIXED && filed.reply.is_some(),
        Some(Item::Submitted(_bytes)) => false,
        None => false,
    };
    let is_posted = alpha.posting(2)?.is_some();
    let fate = alpha.fate(&first_set(ALPHA, 1))?;
    Ok([is_item, is_posted, fate == Some(Fate::Accepted)])
}

/// Whether the call stands, all of it or nothing.
fn stands<R: Records>(alpha: &mut Station<R>, asked: Asked) -> Result<bool, Fail> {
    let [first, second, third] = match asked {
        Asked::Submission => has_submitted(alpha)?,
        Asked::Arrival => has_taken(alpha)?,
    };
    if first != second || second != third {
        return Err(Fail::new("the half of it stands"));
    }
    Ok(first)
}

/// Whether the station has what it had before the call: its first order, and GAMMA's, which is
/// answered again as it was and posted once.
fn keeps<R: Records>(alpha: &mut Station<R>, said: &[u8], at: &Moment) -> Result<bool, Fail> {
    let is_kept = match alpha.submission(1)? {
        Some(bytes) => bytes.as_slice() == FIRST,
        None => false,
    };
    let again = alpha.arrive(FROM_GAMMA, at)?;
    let is_said = match &again.reply {
        Some(reply) => reply.as_slice() == said,
        None => false,
    };
    let is_posted = alpha.posted(&first_set(GAMMA, 7))?.is_some();
    Ok(is_kept && is_said && again.kind == ArrivalKind::Same && is_posted)
}

/// Whether the call made again does what it would have done: an arrival is answered the same way,
/// and a submission that stands is refused as one whose numbers were used.
fn is_done_again<R: Records>(
    alpha: &mut Station<R>,
    asked: Asked,
    stood: bool,
    wanted: &[u8],
    at: &Moment,
) -> Result<bool, Fail> {
    match ask(alpha, asked, at) {
        Ok(Some(sent)) => { Ok(sent.bytes() == wanted && (!stood || asked == Asked::Arrival)) }
        Err(StationFault::NotNew) => Ok(stood && asked == Asked::Submission),
        _ => Ok(false),
    }
}

/// What a call answers that nothing stops, and what was said before it.
#[derive(Drop)]
struct Answers {
    wanted: Outgoing,
    said: Vec<u8>,
}

/// Stops the test unless a station that was opened again is whole, and does the call again; whether
/// the call stood.
fn is_whole<R: Records>(
    rt: &impl Abort,
    alpha: &mut Station<R>,
    asked: Asked,
    answers: &Answers,
) -> Result<bool, Fail> {
    let at = moment()?;
    let stood = stands(alpha, asked)?;
    assert!(rt; keeps(alpha, &answers.said, &at)?);
    assert!(rt; is_done_again(alpha, asked, stood, answers.wanted.bytes(), &at)?);
    assert!(rt; stands(alpha, asked)?);
    Ok(stood)
}

/// The same of the station that is opened over files.
#[tactic(auto, unfolding(x12_envelopes::specs::Party::is_plain_party))]
fn is_left_whole<D: Disk + Drop>(
    rt: &impl Abort,
    alloc: Global,
    files: Files<D>,
    asked: Asked,
    answers: &Answers,
) -> Result<bool, Fail>
    requires log { IsTrue (D.Disk.is_usable files.log) }
    requires db { IsTrue (D.Disk.is_usable files.db) }
    requires left { MayOpen D.Disk files }
{
    let mut alpha = open_station_over(alloc, files, large(), ALPHA, HUB, None)?;
    let found = is_whole(rt, &mut alpha, asked, answers);
    drop(leave_station(alpha));
    found
}

/// What the call answers where both files stop at this moment, nothing where the records fail it, and
/// the files then.
#[tactic(auto, unfolding(x12_envelopes::specs::Party::is_plain_party))]
fn stopped<D: Stops + Drop>(
    alloc: Global,
    before: &Files<D>,
    stop: Stop,
    asked: Asked,
) -> Result<(Option<Outgoing>, Files<D>), Fail>
    requires { MayStop D.Disk before.now }
    ensures { IfOk result (λ r. MayStop D.Disk r.1) }
{
    let at = moment()?;
    let files = killed(alloc, before, stop)?;
    let mut alpha = open_station_over(alloc, files, small(), ALPHA, HUB, None)?;
    let answer = ask(&mut alpha, asked, &at);
    let files = leave_station(alpha);
    match answer {
        Ok(sent) => Ok((sent, files)),
        Err(StationFault::Store) => Ok((None, files)),
        Err(fault) => Err(fault.into()),
    }
}

/// Whether the station is opened where both files stop at this moment.
#[tactic(auto, unfolding(x12_envelopes::specs::Party::is_plain_party))]
fn is_station_opened<D: Stops + Drop>(
    alloc: Global,
    before: &Files<D>,
    stop: Stop,
) -> Result<bool, Fail>
    requires { MayStop D.Disk before.now }
{
    let files = killed(alloc, before, stop)?;
    match open_station_over(alloc, files, small(), ALPHA, HUB, None) {
        Ok(alpha) => {
            drop(leave_station(alpha));
            Ok(true)
        }
        Err(_) => Ok(false),
    }
}

/// The first moment at which the station is open: each file passes what the opening takes.
fn first_stop<D: Stops + Drop>(alloc: Global, before: &Files<D>) -> Result<Stop, Fail>
    requires { MayStop D.Disk before.now }
{
    let mut stop = Stop { log: 0, ..NEVER };
    for step in STEPS {
        let log = stop.log.saturating_add(step);
        if !is_station_opened(alloc, before, Stop { log, ..stop })? {
            stop.log = log;
        }
    }
    stop.log = stop.log.saturating_add(1);
    stop.db = 0;
    for step in STEPS {
        let db = stop.db.saturating_add(step);
        if !is_station_opened(alloc, before, Stop { db, ..stop })? {
            stop.db = db;
        }
    }
    stop.db = stop.db.saturating_add(1);
    Ok(stop)
}

/// Both files stop at the first moment of a call, at the next one, and so on, until it is answered:
/// at calls of the log, and of the database file. What a killed program leaves is opened again, and
/// what a loss of power leaves.
fn is_whole_wherever_it_stops<D: Stops + Drop>(
    rt: &impl Abort,
    alloc: Global,
    before: &Files<D>,
    asked: Asked,
    said: Vec<u8>,
) -> Result<(), Fail>
    requires { MayStop D.Disk before.now }
{
    let (unstopped, _) = stopped(alloc, before, NEVER, asked)?;
    let wanted = unstopped.ok_or("not answered")?;
    let answers = Answers { wanted, said };
    let first = first_stop(alloc, before)?;
    let mut stop = first;
    for _ in 0..MOST {
        let (answer, mut files) = stopped(alloc, before, stop, asked)?;
        let in_kill = is_left_whole(rt, alloc, killed(alloc, &files, NEVER)?, asked, &answers)?;
        let next = stop.next(&mut files);
        let in_loss = is_left_whole(rt, alloc, lost(files), asked, &answers)?;
        if answer.is_some() {
            assert!(rt; in_kill && in_loss);
            assert!(rt; stop.log > first.log && stop.db > first.db);
            return Ok(());
        }
        stop = next;
    }
    Err(Fail::new("never answered"))
}

#[test]
fn a_submission_that_stops_is_kept_whole_or_not_at_all(rt: HostRuntime) -> Result<(), Fail> {
    let (files, said) = before(rt.alloc(), empty(rt.alloc()))?;
    is_whole_wherever_it_stops(&rt, rt.alloc(), &files, Asked::Submission, said)
}

#[test]
fn an_arrival_that_stops_is_kept_whole_or_not_at_all(rt: HostRuntime) -> Result<(), Fail> {
    let (files, said) = before(rt.alloc(), empty(rt.alloc()))?;
    is_whole_wherever_it_stops(&rt, rt.alloc(), &files, Asked::Arrival, said)
}
