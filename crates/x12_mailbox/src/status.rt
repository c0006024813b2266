//! `van status`: the status of each submitted set of a station, or what waits at a hub.

use crate::enrolling::hub_trouble;
use crate::form::Form;
use crate::history::{Look, Submitted, look_at_all, sets_of, unanswered};
use crate::opening::{Opened, OpensRecords, open};
use crate::options::{CSV, DIR, JSON, STATUSES, form_of, text};
use crate::say::{say, say_columns};
use crate::stop::Stop;
use crate::words::{party_text, shown};
use clap::ArgMatches;
use command_table::{Kind, Row, Word};
use std::alloc::{AllocError, Global};
use x12_acks::SetKey;
use x12_envelopes::{Party, read_header};
use x12_hub::{HubLoaded, HubRecords};
use x12_outbound::{Entry, Fate};
use x12_station::Records;
use x12_words::fate_word;

/// The words of the command.
static WORDS: [Word; 4] = [
    DIR,
    Word {
        kind: Kind::Flag,
        name: "overdue",
        value: "",
        help: "Only sets that are pending still, the oldest first",
    },
    JSON,
    CSV,
];

/// The command's part of the command line.
pub(crate) fn row() -> Row {
    Row {
        name: "status",
        about: "Prints the status of each submitted set of a station, or what waits at a hub.",
        more: STATUSES,
        words: &WORDS,
    }
}

/// What the words say.
#[derive(Clone, Copy)]
pub(crate) struct StatusWords<'a> {
    /// The folder.
    dir: &'a str,
    /// `--overdue`.
    overdue: bool,
    /// `--json`, `--csv`.
    form: Form,
}

impl<'a> StatusWords<'a> {
    /// Reads the words.
    pub(crate) fn of(found: &ArgMatches<'a>) -> StatusWords<'a> {
        StatusWords {
            dir: text(found, "dir"),
            overdue: found.get_flag("overdue"),
            form: form_of(found),
        }
    }
}

/// A set's interchange, group and place, as `000000001 01 001`.
pub(crate) fn key_text(alloc: Global, key: &SetKey) -> Result<String, AllocError> {
    let SetKey {
        sender: _,
        icn,
        group,
        set,
    } = *key;
    format!(in alloc; "{icn:09} {group:02} {set:03}")
}

/// The date and the time of an interchange (ISA09, ISA10).
fn when_text(alloc: Global, bytes: &[u8]) -> Result<String, AllocError> {
    let Ok(header) = read_header(bytes) else {
        return String::from_str(alloc, "");
    };
    let mut when = shown(alloc, &header.date)?;
    when.push(' ')?;
    when.push_str(shown(alloc, &header.time)?.as_str())?;
    Ok(when)
}

/// What is said of submissions.
#[derive(Drop)]
struct Lines<'a> {
    rt: &'a HostRuntime,
    me: Party,
    form: Form,
    overdue: bool,
    pending: u64,
    accepted: u64,
    noted: u64,
    rejected: u64,
}

impl<'a> Lines<'a> {
    /// Counts a set.
    fn count(&mut self, fate: Fate) {
        let counter = match fate {
            Fate::Pending => &mut self.pending,
            Fate::Accepted => &mut self.accepted,
            Fate::Noted => &mut self.noted,
            Fate::Rejected => &mut self.rejected,
        };
        *counter = counter.saturating_add(1);
    }

    /// The line of a set.
    fn line(&self, set: &Submitted, to: &str, when: &str) -> Result<String, AllocError> {
        let alloc = self.rt.alloc();
        let fate = fate_word(set.fate);
        let text = key_text(alloc, &set.key)?;
        let SetKey {
            sender: _,
            icn,
            group,
            set,
        } = set.key;
        match self.form {
            Form::Words => format!(in alloc; "{text} {to} {when} {fate}"),
            Form::Json => format!(in alloc;
                "{{\"interchange\":{icn},\"group\":{group},\"set\":{set},\"to\":\"{to}\",\"at\":\"{when}\",\"fate\":\"{fate}\"}}"
            ),
            Form::Csv => format!(in alloc; "{icn:09},{group},{set},{to},{when},{fate}"),
        }
    }
}

impl<'a> Look for Lines<'a> {
    fn look(&mut self, entry: &Entry) -> Result<(), Stop> {
        let alloc = self.rt.alloc();
        let to = party_text(alloc, &entry.partner)?;
        let when = when_text(alloc, &entry.bytes)?;
        for set in &sets_of(alloc, &self.me, entry)? {
            self.count(set.fate);
            if !self.overdue || set.fate == Fate::Pending {
                let line = self.line(set, to.as_str(), when.as_str())?;
                say(self.rt, &[line.as_str()])?;
            }
        }
        Ok(())
    }
}

/// How many sets fare how, and how many postings there are.
fn counts_text(lines: &Lines<'_>, postings: usize) -> Result<String, AllocError> {
    let alloc = lines.rt.alloc();
    let pending = lines.pending;
    let accepted = lines.accepted;
    let noted = lines.noted;
    let rejected = lines.rejected;
    if lines.form == Form::Json {
        return format!(in alloc;
            "{{\"pending\":{pending},\"accepted\":{accepted},\"noted\":{noted},\"rejected\":{rejected},\"postings\":{postings}}}"
        );
    }
    format!(in alloc;
        "{pending} pending, {accepted} accepted, {noted} noted, {rejected} rejected; {postings} postings"
    )
}

/// The status of a station.
fn station_status<R: Records>(
    rt: &HostRuntime,
    words: &StatusWords<'_>,
    me: Party,
    records: &mut R,
) -> Result<u8, Stop>
    requires { R.valid records.old }
{
    let mut lines = Lines {
        rt,
        me,
        form: words.form,
        overdue: words.overdue,
        pending: 0,
        accepted: 0,
        noted: 0,
        rejected: 0,
    };
    say_columns(rt, words.form, "interchange,group,set,to,at,fate")?;
    look_at_all(rt, words.dir, records, &mut lines)?;
    if words.form == Form::Csv {
        return Ok(0);
    }
    match records.postings() {
        Ok(postings) => say(rt, &[counts_text(&lines, postings.len())?.as_str()])?,
        Err(fault) => return Err(unanswered(rt, words.dir, fault)),
    }
    Ok(0)
}

/// How many items wait in a mailbox.
fn waiting(loaded: &HubLoaded, node: u16) -> usize {
    loaded
        .mailboxes
        .iter()
        .filter(|item| item.0 == node)
        .count()
}

/// The line of a mailbox.
fn mailbox_text(
    alloc: Global,
    form: Form,
    party: &str,
    node: u16,
    count: usize,
) -> Result<String, AllocError> {
    match form {
        Form::Words => format!(in alloc; "{party} mailbox {node}: {count} waiting"),
        Form::Json => format!(in alloc;
            "{{\"party\":\"{party}\",\"mailbox\":{node},\"waiting\":{count}}}"
        ),
        Form::Csv => format!(in alloc; "{party},{node},{count}"),
    }
}

/// Prints how many items wait in each mailbox.
fn say_waiting(rt: &HostRuntime, words: &StatusWords<'_>, loaded: &HubLoaded) -> Result<(), Stop> {
    let alloc = rt.alloc();
    say_columns(rt, words.form, "party,mailbox,waiting")?;
    for (party, node) in &loaded.directory {
        let party = party_text(alloc, party)?;
        let count = waiting(loaded, *node);
        let line = mailbox_text(alloc, words.form, party.as_str(), *node, count)?;
        say(rt, &[line.as_str()])?;
    }
    Ok(())
}

/// The status of a hub.
fn hub_status<H: HubRecords>(
    rt: &HostRuntime,
    words: &StatusWords<'_>,
    records: &mut H,
) -> Result<u8, Stop>
    requires { H.valid records.old }
{
    match records.load() {
        Ok(loaded) => say_waiting(rt, words, &loaded)?,
        Err(fault) => return Err(hub_trouble(rt, words.dir, fault.into())),
    }
    Ok(0)
}

/// Prints the status of each submitted set, or what waits.
pub(crate) fn status<O: OpensRecords>(
    rt: &HostRuntime,
    opens: &O,
    words: &StatusWords<'_>,
) -> Result<u8, Stop> {
    match open(rt, opens, words.dir)? {
        Opened::Station(station) => {
            let me = station.party();
            let mut records = station.close();
            station_status(rt, words, me, &mut records)
        }
        Opened::Hub(hub) => {
            let mut records = hub.close();
            hub_status(rt, words, &mut records)
        }
    }
}
