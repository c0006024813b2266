//! A station runs, is stopped in whatever way, and is opened again over what the stop left: by
//! contracts alone, run after run.

ghost use Rattle.std.specs.Prelude.{IsTrue, IfOk, IfSome};
ghost use Rattle.x12_envelopes.specs.Party.{is_plain_party};
ghost use Rattle.proved_callers.specs.Stop.{MayOpen, MayStop};

use crate::again::made;
use crate::disk::{NEVER, Stops, empty, killed, large, lost, opened, small};
use crate::fixture::{ALPHA, FIRST, HUB, SECOND};
use sqlite::Files;
use sqlite_disk::Disk;
use std::alloc::Global;
use std::test::Fail;
use x12_envelopes::Party;
use x12_records::{leave_station, open_station_over};
use x12_station::{Records, Station};

/// One run: the station of this party is opened over files, submits an interchange, and ends as it
/// stands. Nothing where it isn't opened.
fn run<D: Disk + Drop>(alloc: Global, files: Files<D>, me: Party, bytes: &[u8]) -> Option<Files<D>>
    requires plain { IsTrue (is_plain_party me) }
    requires log { IsTrue (D.Disk.is_usable files.log) }
    requires db { IsTrue (D.Disk.is_usable files.db) }
    requires left { MayOpen D.Disk files }
    ensures left { IfSome result (MayStop D.Disk) }
{
    let mut station = match open_station_over(alloc, files, small(), me, HUB, None) {
        Ok(station) => station,
        Err(_) => return None,
    };
    let _ = station.submit_prepared(bytes);
    Some(leave_station(station))
}

/// A run for each interchange, and after each one a loss of power: what it leaves of the files, the
/// next run is opened over.
fn runs<D: Stops + Drop>(
    alloc: Global,
    files: Files<D>,
    me: Party,
    all: &[&[u8]],
) -> Option<Files<D>>
    requires plain { IsTrue (is_plain_party me) }
    requires log { IsTrue (D.Disk.is_usable files.log) }
    requires db { IsTrue (D.Disk.is_usable files.db) }
    requires left { MayOpen D.Disk files }
    ensures log { IfSome result (λ f. IsTrue (D.Disk.is_usable f.log)) }
    ensures db { IfSome result (λ f. IsTrue (D.Disk.is_usable f.db)) }
    ensures left { IfSome result (MayOpen D.Disk) }
{
    let mut files = files;
    for bytes in all {
        files = lost(run(alloc, files, me, bytes)?);
    }
    Some(files)
}

/// Whether a station submitted these interchanges, under the numbers from 1.
fn holds<R: Records>(station: &mut Station<R>, all: &[&[u8]]) -> Result<bool, Fail> {
    let mut icn = 0_u32;
    for bytes in all {
        icn = icn.saturating_add(1);
        let is_there = match station.submission(icn)? {
            Some(submitted) => submitted.as_slice() == *bytes,
            None => false,
        };
        if !is_there {
            return Ok(false);
        }
    }
    Ok(true)
}

/// Whether a station of this party is opened over files, and submitted these interchanges.
fn has_submitted<D: Disk + Drop>(
    alloc: Global,
    files: Files<D>,
    me: Party,
    all: &[&[u8]],
) -> Result<bool, Fail>
    requires plain { IsTrue (is_plain_party me) }
    requires log { IsTrue (D.Disk.is_usable files.log) }
    requires db { IsTrue (D.Disk.is_usable files.db) }
    requires left { MayOpen D.Disk files }
{
    let mut station = open_station_over(alloc, files, large(), me, HUB, None)?;
    let found = holds(&mut station, all);
    drop(leave_station(station));
    found
}

/// The files of ALPHA's station, which has done nothing yet.
pub(crate) fn first_files<D: Disk + Drop>(alloc: Global, files: Files<D>) -> Result<Files<D>, Fail>
    ensures { IfOk result (MayStop D.Disk) }
{
    let conn = opened(alloc, files).ok_or("not opened")?;
    let alpha = made(alloc, ALPHA, conn).ok_or("not made")?;
    Ok(leave_station(alpha))
}

#[test]
#[tactic(auto, unfolding(x12_envelopes::specs::Party::is_plain_party))]
fn what_a_run_leaves_the_next_one_opens(rt: HostRuntime) -> Result<(), Fail> {
    let alloc = rt.alloc();
    let files = first_files(alloc, empty(alloc))?;
    let files = killed(alloc, &files, NEVER)?;
    let files = runs(alloc, files, ALPHA, &[FIRST, SECOND]).ok_or("a run wasn't opened")?;
    assert!(rt; has_submitted(alloc, files, ALPHA, &[FIRST, SECOND])?);
    Ok(())
}
