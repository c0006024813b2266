//! `van log`: what a station's records tell, in the order in which it was submitted and came.

use crate::form::Form;
use crate::history::{find_entry, loaded, unanswered};
use crate::hub_log::log_hub;
use crate::opening::{Opened, OpensRecords, open};
use crate::options::{CSV, DIR, JSON, form_of, text};
use crate::search::{Search, Told, search_of};
use crate::stop::Stop;
use crate::words::shown;
use clap::ArgMatches;
use command_table::{Kind, Row, Word};
use std::alloc::{AllocError, Global};
use x12_envelopes::{Header, read_header};
use x12_inbound::{Filed, Posting};
use x12_outbound::{Entry, Fate};
use x12_station::{Item, Loaded, Records};

const MORE: &str = "\
Exit status:
  0  done
  1  nothing was found, or something failed
  2  the command line is wrong";

/// The words of the command.
static WORDS: [Word; 7] = [
    DIR,
    Word {
        kind: Kind::Value,
        name: "partner",
        value: "QQID",
        help: "Only interchanges to or from this party",
    },
    Word {
        kind: Kind::Value,
        name: "number",
        value: "N",
        help: "Only interchanges of this number",
    },
    Word {
        kind: Kind::Value,
        name: "text",
        value: "TEXT",
        help: "Only interchanges in which this stands",
    },
    Word {
        kind: Kind::Flag,
        name: "bytes",
        value: "",
        help: "Writes the interchanges as they are, and no lines",
    },
    JSON,
    CSV,
];

/// The command's part of the command line.
pub(crate) fn row() -> Row {
    Row {
        name: "log",
        about: "Tells what a station submitted, took and posted, or what went through a hub.",
        more: MORE,
        words: &WORDS,
    }
}

/// What the words say.
#[derive(Clone, Copy)]
pub(crate) struct LogWords<'a> {
    /// The folder.
    pub(crate) dir: &'a str,
    /// `--partner`.
    pub(crate) partner: Option<&'a str>,
    /// `--number`.
    pub(crate) number: Option<&'a str>,
    /// `--text`.
    pub(crate) text: Option<&'a str>,
    /// `--bytes`.
    pub(crate) bytes: bool,
    /// `--json`, `--csv`.
    pub(crate) form: Form,
}

impl<'a> LogWords<'a> {
    /// Reads the words.
    pub(crate) fn of(found: &ArgMatches<'a>) -> LogWords<'a> {
        LogWords {
            dir: text(found, "dir"),
            partner: found.get_str("partner"),
            number: found.get_str("number"),
            text: found.get_str("text"),
            bytes: found.get_flag("bytes"),
            form: form_of(found),
        }
    }
}

/// What was replied to an arrival.
fn answer_text(alloc: Global, filed: &Filed) -> Result<String, AllocError> {
    let Some(reply) = &filed.reply else {
        return String::from_str(alloc, "no reply");
    };
    match read_header(reply) {
        Ok(header) => format!(in alloc; "replied {:09}", header.icn),
        Err(_) => String::from_str(alloc, "replied"),
    }
}

/// How many sets of an interchange fare so.
fn count(entry: &Entry, fate: Fate) -> usize {
    let mut count = 0_usize;
    for group in &entry.groups {
        for set in &group.sets {
            if set.fate == fate {
                count = count.saturating_add(1);
            }
        }
    }
    count
}

/// How the sets of an interchange fare.
fn fates_text(alloc: Global, entry: &Entry) -> Result<String, AllocError> {
    let pending = count(entry, Fate::Pending);
    let accepted = count(entry, Fate::Accepted);
    let noted = count(entry, Fate::Noted);
    let rejected = count(entry, Fate::Rejected);
    format!(in alloc; "{pending} pending, {accepted} accepted, {noted} noted, {rejected} rejected")
}

/// What is told of a submission.
fn submission_told(alloc: Global, header: &Header, entry: &Entry) -> Result<Told, AllocError> {
    Ok(Told {
        what: "out",
        way: "to",
        icn: header.icn,
        set: None,
        partner: header.receiver,
        said: fates_text(alloc, entry)?,
    })
}

/// What is told of an arrival.
fn arrival_told(alloc: Global, header: &Header, filed: &Filed) -> Result<Told, AllocError> {
    let answer = answer_text(alloc, filed)?;
    let said = format!(in alloc; "{} bytes, {answer}", filed.bytes.len())?;
    Ok(Told {
        what: "in",
        way: "from",
        icn: header.icn,
        set: None,
        partner: header.sender,
        said,
    })
}

/// What is told of a posting.
fn posting_told(alloc: Global, posting: &Posting) -> Result<Told, AllocError> {
    let set = shown(alloc, &posting.set)?;
    let number = shown(alloc, posting.number.as_bytes())?;
    let said = format!(in alloc; "{set} {number}")?;
    Ok(Told {
        what: "posted",
        way: "from",
        icn: posting.key.icn,
        set: Some((posting.key.group, posting.key.set)),
        partner: posting.key.sender,
        said,
    })
}

/// Tells of a submission that is looked for.
fn log_submission<R: Records>(
    search: &mut Search<'_>,
    records: &mut R,
    loaded: &Loaded,
    header: &Header,
    bytes: &[u8],
) -> Result<(), Stop>
    requires { R.valid records.old }
    ensures { R.valid records.new }
{
    if search.wants_bytes() {
        return search.write(bytes);
    }
    let (rt, dir) = (search.rt, search.dir);
    if let Some(entry) = find_entry(rt, dir, records, loaded, header.icn)? {
        search.tell(&submission_told(rt.alloc(), header, &entry)?)?;
    }
    Ok(())
}

/// Tells of an arrival that is looked for, and of its sets that were posted.
fn log_arrival(
    search: &mut Search<'_>,
    postings: &[Posting],
    header: &Header,
    filed: &Filed,
) -> Result<(), Stop> {
    if search.wants_bytes() {
        return search.write(&filed.bytes);
    }
    let alloc = search.rt.alloc();
    search.tell(&arrival_told(alloc, header, filed)?)?;
    for posting in postings {
        search.tell(&posting_told(alloc, posting)?)?;
    }
    Ok(())
}

/// How many postings at the front are of this arrival.
fn count_of(postings: &[Posting], header: &Header) -> usize {
    let mut count = 0_usize;
    for posting in postings {
        if posting.key.icn != header.icn || posting.key.sender != header.sender {
            return count;
        }
        count = count.saturating_add(1);
    }
    count
}

/// Tells of an arrival, if it is looked for; the postings behind its own.
fn log_came<'x>(
    search: &mut Search<'_>,
    postings: &'x [Posting],
    filed: &Filed,
) -> Result<&'x [Posting], Stop> {
    let Ok(header) = read_header(&filed.bytes) else {
        return Ok(postings);
    };
    let Some((own, behind)) = postings.split_at_checked(count_of(postings, &header)) else {
        return Ok(postings);
    };
    if search.wants_party(&header.sender) && search.wants(header.icn, &filed.bytes) {
        log_arrival(search, own, &header, filed)?;
    }
    Ok(behind)
}

/// Tells of a submission, if it is looked for.
fn log_submitted<R: Records>(
    search: &mut Search<'_>,
    records: &mut R,
    loaded: &Loaded,
    bytes: &[u8],
) -> Result<(), Stop>
    requires { R.valid records.old }
    ensures { R.valid records.new }
{
    let Ok(header) = read_header(bytes) else {
        return Ok(());
    };
    if search.wants_party(&header.receiver) && search.wants(header.icn, bytes) {
        log_submission(search, records, loaded, &header, bytes)?;
    }
    Ok(())
}

/// Tells of what has a number of the history, if it is looked for; the postings behind its own.
fn log_item<'x, R: Records>(
    search: &mut Search<'_>,
    records: &mut R,
    loaded: &Loaded,
    postings: &'x [Posting],
    seq: u64,
) -> Result<&'x [Posting], Stop>
    requires { R.valid records.old }
    ensures { R.valid records.new }
{
    let found = match records.find_item(seq) {
        Ok(found) => found,
        Err(fault) => return Err(unanswered(search.rt, search.dir, fault)),
    };
    match found {
        Some(Item::Submitted(bytes)) => {
            log_submitted(search, records, loaded, &bytes)?;
            Ok(postings)
        }
        Some(Item::Came(filed)) => log_came(search, postings, &filed),
        None => Ok(postings),
    }
}

/// Tells of the whole history what is looked for.
fn log_history<R: Records>(
    search: &mut Search<'_>,
    records: &mut R,
    loaded: &Loaded,
    postings: &[Posting],
) -> Result<(), Stop>
    requires { R.valid records.old }
    ensures { R.valid records.new }
{
    let mut rest = postings;
    for seq in 1..=loaded.seq {
        rest = log_item(search, records, loaded, rest, seq)?;
    }
    Ok(())
}

/// Tells what is looked for of a station.
fn log_station<R: Records>(search: &mut Search<'_>, records: &mut R) -> Result<u8, Stop>
    requires { R.valid records.old }
{
    let (rt, dir) = (search.rt, search.dir);
    let loaded = loaded(rt, dir, records)?;
    let postings = match records.postings() {
        Ok(postings) => postings,
        Err(fault) => return Err(unanswered(rt, dir, fault)),
    };
    search.begin()?;
    log_history(search, records, &loaded, &postings)?;
    search.ended()
}

/// Tells what was submitted, came and was posted, or what went through a hub.
pub(crate) fn log<O: OpensRecords>(
    rt: &HostRuntime,
    opens: &O,
    words: &LogWords<'_>,
) -> Result<u8, Stop> {
    let mut search = search_of(rt, words)?;
    match open(rt, opens, words.dir)? {
        Opened::Station(station) => log_station(&mut search, &mut station.close()),
        Opened::Hub(hub) => log_hub(&mut search, &mut hub.close()),
    }
}
