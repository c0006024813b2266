//! `van migrate`: brings a station's records of an older version to the newest.

use crate::opening::{Migration, OpensRecords, no_plain_party, records_in, unopened};
use crate::options::{DIR, STATUSES, text};
use crate::say::say;
use crate::stop::Stop;
use crate::whose::{Whose, read_whose};
use crate::words::party_text;
use clap::ArgMatches;
use command_table::{Row, Word};
use std::alloc::{AllocError, Global};
use x12_envelopes::Party;

/// The words of the command.
static WORDS: [Word; 1] = [DIR];

/// The command's part of the command line.
pub(crate) fn row() -> Row {
    Row {
        name: "migrate",
        about: "Brings a station's records of an older version to the newest.",
        more: STATUSES,
        words: &WORDS,
    }
}

/// What the words say.
#[derive(Clone, Copy)]
pub(crate) struct MigrateWords<'a> {
    /// The folder.
    dir: &'a str,
}

impl<'a> MigrateWords<'a> {
    /// Reads the words.
    pub(crate) fn of(found: &ArgMatches<'a>) -> MigrateWords<'a> {
        MigrateWords {
            dir: text(found, "dir"),
        }
    }
}

/// The line that says what was done.
fn migrated_text(alloc: Global, migration: Migration) -> Result<String, AllocError> {
    let Migration { was, is } = migration;
    if was == is {
        return format!(in alloc; "its records are of version {is}, the newest: nothing to do");
    }
    format!(in alloc; "migrated: its records were of version {was}, and are of version {is}")
}

/// Brings the records of this station to the newest version.
fn migrate_station<O: OpensRecords>(
    rt: &HostRuntime,
    opens: &O,
    dir: &str,
    me: Party,
    hub: Party,
    other: Option<Party>,
) -> Result<Migration, Stop> {
    let path = records_in(rt, dir)?;
    if !me.is_plain() {
        return Err(no_plain_party(rt, dir));
    }
    match opens.migrate_station(rt, path.as_str(), me, hub, other) {
        Ok(migration) => Ok(migration),
        Err(fault) => Err(unopened(rt, opens, path.as_str(), fault)),
    }
}

/// Brings a station's records to the newest version, and says so.
pub(crate) fn migrate<O: OpensRecords>(
    rt: &HostRuntime,
    opens: &O,
    words: &MigrateWords<'_>,
) -> Result<u8, Stop> {
    let (me, hub, other) = match read_whose(rt, words.dir)? {
        Whose::Station(me, hub, other) => (me, hub, other),
        Whose::Hub(me) => {
            let me = party_text(rt.alloc(), &me)?;
            say(
                rt,
                &[
                    "the records of a hub, as of ",
                    me.as_str(),
                    ", need no migration",
                ],
            )?;
            return Ok(0);
        }
    };
    let migration = migrate_station(rt, opens, words.dir, me, hub, other)?;
    say(rt, &[migrated_text(rt.alloc(), migration)?.as_str()])?;
    Ok(0)
}
