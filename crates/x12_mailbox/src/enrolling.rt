//! `van enrol`: who has a mailbox at a hub.
//!
//! A mailbox is a folder of the party's name below the hub's: `in`, into which the party puts, `out`,
//! into which the hub puts, `refused`, and a file `node`, which says the mailbox's number in the
//! records. The number stays the party's for good, also where it is dismissed and comes again: what
//! waits in a mailbox is never another's. A party at another hub has that hub's mailbox.

use crate::connecting::{enrol_beyond, other_hub};
use crate::folder::put;
use crate::making::make_below;
use crate::numbers::{add_of_folders, known_numbers};
use crate::opening::{OpensRecords, open_a_hub};
use crate::options::{STATUSES, text};
use crate::rights::{group_of, share};
use crate::say::{misuse, refusal, say, text_of, trouble};
use crate::stop::Stop;
use crate::whose::marked_hub;
use crate::words::{below, party_name, party_text, wanted_party};
use clap::ArgMatches;
use command_table::{Kind, Row, Word};
use std::fs;
use std::io::ErrorKind;
use x12_envelopes::Party;
use x12_hub::{Hub, HubFault, HubRecords};
use x12_spool::next_node;

/// The words of the command.
static WORDS: [Word; 6] = [
    Word {
        kind: Kind::One,
        name: "dir",
        value: "HUB",
        help: "The folder of a hub",
    },
    Word {
        kind: Kind::One,
        name: "party",
        value: "QQID",
        help: "The party that gets a mailbox, as ZZBETA",
    },
    Word {
        kind: Kind::Value,
        name: "at",
        value: "HUBDIR",
        help: "The folder of the hub that the party is at, if that is another one on this machine",
    },
    Word {
        kind: Kind::Value,
        name: "hub",
        value: "QQID",
        help: "The hub that the party is at, if that is one on another machine",
    },
    Word {
        kind: Kind::Value,
        name: "group",
        value: "GROUP",
        help: "Whose accounts may write into the mailbox's `in` and read its `out`: the group of the partner and of the hub, by name or number",
    },
    Word {
        kind: Kind::Flag,
        name: "dismiss",
        value: "",
        help: "It loses its mailbox; the folder stays",
    },
];

/// The command's part of the command line.
pub(crate) fn row() -> Row {
    Row {
        name: "enrol",
        about: "Gives a party a mailbox at a hub.",
        more: STATUSES,
        words: &WORDS,
    }
}

/// What the words say.
#[derive(Clone, Copy)]
pub(crate) struct EnrolWords<'a> {
    /// The folder of the hub.
    pub(crate) dir: &'a str,
    /// The party that gets a mailbox.
    pub(crate) party: &'a str,
    /// `--at`.
    pub(crate) at: Option<&'a str>,
    /// `--hub`.
    pub(crate) hub: Option<&'a str>,
    /// `--group`.
    pub(crate) group: Option<&'a str>,
    /// `--dismiss`.
    pub(crate) dismiss: bool,
}

impl<'a> EnrolWords<'a> {
    /// Reads the words.
    pub(crate) fn of(found: &ArgMatches<'a>) -> EnrolWords<'a> {
        EnrolWords {
            dir: text(found, "dir"),
            party: text(found, "party"),
            at: found.get_str("at"),
            hub: found.get_str("hub"),
            group: found.get_str("group"),
            dismiss: found.get_flag("dismiss"),
        }
    }
}

/// The file of a mailbox that says its number.
const NODE: &str = "node";

/// The number of the mailbox in a folder, if it is one.
pub(crate) fn node_in(rt: &HostRuntime, mailbox: &str) -> Result<Option<u16>, Stop> {
    let path = below(rt.alloc(), mailbox, NODE)?;
    let path = path.as_str();
    match fs::read_to_string(rt, path) {
        Ok(text) => match text.as_str().trim_ascii_end().parse() {
            Ok(node) => Ok(Some(node)),
            Err(_) => Err(trouble(rt, &[path, ": it holds no number from 0 to 65535"])),
        },
        Err(error)
            if error.kind() == ErrorKind::NotFound || error.kind() == ErrorKind::NotADirectory =>
            Ok(None),
        Err(error) => Err(refusal(rt, path, "it can't be read", &error)),
    }
}

/// The number of a party's mailbox: its own, or one above all that were given, of which the records know
/// these; it is written down before the records have it.
fn node_for(rt: &HostRuntime, dir: &str, mailbox: &str, known: &[u16]) -> Result<u16, Stop> {
    if let Some(node) = node_in(rt, mailbox)? {
        return Ok(node);
    }
    let mut given = Vec::from_slice(rt.alloc(), known)?;
    add_of_folders(rt, dir, &mut given)?;
    let Some(node) = next_node(&given) else {
        return Err(trouble(rt, &[dir, " has no number left for a mailbox"]));
    };
    let text = format!(in rt.alloc(); "{node}\n")?;
    put(rt, mailbox, NODE, text.as_bytes())?;
    Ok(node)
}

/// Says why a hub did nothing.
pub(crate) fn hub_trouble(rt: &HostRuntime, dir: &str, fault: HubFault) -> Stop {
    match text_of(rt.alloc(), fault) {
        Ok(why) => trouble(rt, &[dir, ": ", why.as_str()]),
        Err(_) => Stop::Memory,
    }
}

/// The path of a mailbox below a hub's folder.
pub(crate) fn mailbox_of(rt: &HostRuntime, dir: &str, party: &Party) -> Result<String, Stop> {
    let alloc = rt.alloc();
    Ok(below(alloc, dir, party_name(alloc, party)?.as_str())?)
}

/// Gives a party the mailbox of this folder, and says so.
pub(crate) fn enrol_in<H: HubRecords>(
    rt: &HostRuntime,
    hub: &mut Hub<H>,
    dir: &str,
    mailbox: &str,
    party: Party,
    known: &[u16],
) -> Result<u8, Stop> {
    let alloc = rt.alloc();
    let node = node_for(rt, dir, mailbox, known)?;
    if let Err(fault) = hub.enrol(party, node) {
        return Err(hub_trouble(rt, dir, fault));
    }
    let node = text_of(alloc, node)?;
    let party = party_text(alloc, &party)?;
    say(
        rt,
        &[
            party.as_str(),
            " has mailbox ",
            node.as_str(),
            ": ",
            mailbox,
        ],
    )?;
    Ok(0)
}

/// Makes the folders of a mailbox, and gives a group its rights there, if one is named.
fn make_mailbox(rt: &HostRuntime, words: &EnrolWords<'_>, mailbox: &str) -> Result<(), Stop> {
    let Some(word) = words.group else {
        return make_below(rt, mailbox, &["in", "out", "refused"]);
    };
    let group = group_of(rt, word)?;
    make_below(rt, mailbox, &["in", "out", "refused"])?;
    share(rt, words.dir, mailbox, group)
}

/// Gives a party a mailbox of its own.
fn enrol_at<H: HubRecords>(
    rt: &HostRuntime,
    hub: &mut Hub<H>,
    words: &EnrolWords<'_>,
    party: Party,
    known: &[u16],
) -> Result<u8, Stop> {
    let dir = words.dir;
    let mailbox = mailbox_of(rt, dir, &party)?;
    let mailbox = mailbox.as_str();
    if marked_hub(rt, mailbox)?.is_some() {
        return Err(trouble(rt, &[mailbox, " is the mailbox of a hub, and of no party"]));
    }
    make_mailbox(rt, words, mailbox)?;
    enrol_in(rt, hub, dir, mailbox, party, known)
}

/// Takes a party's mailbox from it.
fn dismiss_at<H: HubRecords>(
    rt: &HostRuntime,
    hub: &mut Hub<H>,
    dir: &str,
    party: Party,
) -> Result<u8, Stop> {
    let shown = party_text(rt.alloc(), &party)?;
    match hub.dismiss(&party) {
        Ok(true) => {
            say(rt, &[shown.as_str(), " has no mailbox any more"])?;
            Ok(0)
        }
        Ok(false) => Err(trouble(rt, &[shown.as_str(), " has no mailbox in ", dir])),
        Err(fault) => Err(hub_trouble(rt, dir, fault)),
    }
}

/// Enrols or dismisses a party at an open hub.
fn enrol_or_dismiss<H: HubRecords>(
    rt: &HostRuntime,
    hub: &mut Hub<H>,
    words: &EnrolWords<'_>,
    party: Party,
    other: Option<Party>,
    known: &[u16],
) -> Result<u8, Stop> {
    if words.dismiss {
        return dismiss_at(rt, hub, words.dir, party);
    }
    if party == hub.party() {
        return Err(trouble(rt, &[words.dir, " is the hub of this party itself"]));
    }
    match other {
        Some(other) => enrol_beyond(rt, hub, words, other, party, known),
        None => enrol_at(rt, hub, words, party, known),
    }
}

/// Whether a party is to get a mailbox that has no number yet.
fn is_new(
    rt: &HostRuntime,
    words: &EnrolWords<'_>,
    party: &Party,
    other: &Option<Party>,
) -> Result<bool, Stop> {
    let whose = match other {
        Some(other) => other,
        None => party,
    };
    let mailbox = mailbox_of(rt, words.dir, whose)?;
    Ok(!words.dismiss && node_in(rt, mailbox.as_str())?.is_none())
}

/// Gives a party a mailbox, or takes it away.
pub(crate) fn enrol<O: OpensRecords>(
    rt: &HostRuntime,
    opens: &O,
    words: &EnrolWords<'_>,
) -> Result<u8, Stop> {
    let party = wanted_party(rt, "QQID", words.party)?;
    let other = other_hub(rt, words)?;
    if words.dismiss && other.is_some() {
        return Err(misuse(rt, &["--dismiss goes with neither --at nor --hub"]));
    }
    if words.group.is_some() && (words.dismiss || other.is_some()) {
        return Err(misuse(rt, &["--group goes with none of --dismiss, --at and --hub"]));
    }
    // what another program gives meanwhile stands in a folder, which is read while the hub is open
    let known = if is_new(rt, words, &party, &other)? {
        known_numbers(rt, opens, words.dir)?
    } else {
        Vec::new(rt.alloc())
    };
    let mut hub = open_a_hub(rt, opens, words.dir)?;
    let done = enrol_or_dismiss(rt, &mut hub, words, party, other, &known);
    drop(hub.close());
    done
}
