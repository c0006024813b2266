//! Two connected hubs: at each, the other one has a mailbox, which is that of its parties.
//!
//! A hub's mailbox is a folder as a party's is, with a file `hub` in it that says so. Where the other hub
//! is on this machine, its `out` is a link to the `in` of the mailbox that this hub has there.

use crate::enrolling::{EnrolWords, enrol_in, mailbox_of, node_in};
use crate::linking::link;
use crate::listing::names_in;
use crate::making::make_below;
use crate::opening::no_hub;
use crate::say::{misuse, refusal, text_of, trouble};
use crate::stop::Stop;
use crate::whose::{Whose, mark_hub, marked_hub, read_whose};
use crate::words::{below, party_text, wanted_party};
use std::{fs, str};
use x12_envelopes::Party;
use x12_hub::{Hub, HubRecords};
use x12_spool::Depositor;

/// The hubs that have a mailbox below a hub's folder, each with its number.
fn hubs_below(rt: &HostRuntime, dir: &str) -> Result<Vec<(Party, u16)>, Stop> {
    let alloc = rt.alloc();
    let mut hubs = Vec::new(alloc);
    for name in &names_in(rt, dir)? {
        if let Ok(name) = str::from_utf8(name) {
            let mailbox = below(alloc, dir, name)?;
            if let Some(hub) = marked_hub(rt, mailbox.as_str())? {
                if let Some(node) = node_in(rt, mailbox.as_str())? {
                    hubs.push((hub, node))?;
                }
            }
        }
    }
    Ok(hubs)
}

/// The hub whose mailbox has this number, if it is a hub's.
fn hub_with(hubs: &[(Party, u16)], node: u16) -> Option<Party> {
    for (hub, number) in hubs {
        if *number == node {
            return Some(*hub);
        }
    }
    None
}

/// Whether a mailbox of this number is among these.
fn has_node(mailboxes: &[(Depositor, u16)], node: u16) -> bool {
    for (_, number) in mailboxes {
        if *number == node {
            return true;
        }
    }
    false
}

/// Who puts into the mailbox of this number, which the directory names for a party.
fn depositor_of(hubs: &[(Party, u16)], party: &Party, node: u16) -> Depositor {
    match hub_with(hubs, node) {
        Some(hub) => Depositor::Hub(hub),
        None => Depositor::Party(*party),
    }
}

/// Wants a party's folder to say no other number than the mailbox has that the directory names for it:
/// where the folder of another hub is gone, what waits there is for none of its parties alone.
fn want_own(rt: &HostRuntime, dir: &str, party: &Party, node: u16) -> Result<(), Stop> {
    let mailbox = mailbox_of(rt, dir, party)?;
    let number = node_in(rt, mailbox.as_str())?.unwrap_or(node);
    if number == node {
        return Ok(());
    }
    let node = text_of(rt.alloc(), node)?;
    Err(trouble(
        rt,
        &[
            mailbox.as_str(),
            " isn't mailbox ",
            node.as_str(),
            ", which the records name for this party",
        ],
    ))
}

/// The mailboxes that a hub's directory names, in its order, each once.
pub(crate) fn mailboxes_of(
    rt: &HostRuntime,
    dir: &str,
    directory: &[(Party, u16)],
) -> Result<Vec<(Depositor, u16)>, Stop> {
    let hubs = hubs_below(rt, dir)?;
    let mut mailboxes = Vec::new(rt.alloc());
    for (party, node) in directory {
        if !has_node(&mailboxes, *node) {
            let depositor = depositor_of(&hubs, party, *node);
            if let Depositor::Party(party) = &depositor {
                want_own(rt, dir, party, *node)?;
            }
            mailboxes.push((depositor, *node))?;
        }
    }
    Ok(mailboxes)
}

/// The hub whose folder it is.
pub(crate) fn hub_of(rt: &HostRuntime, dir: &str) -> Result<Party, Stop> {
    match read_whose(rt, dir)? {
        Whose::Hub(hub) => Ok(hub),
        Whose::Station(me, _, _) => Err(no_hub(rt, dir, &me)),
    }
}

/// The other hub that the command line names, by its folder or by its party.
pub(crate) fn other_hub(rt: &HostRuntime, words: &EnrolWords<'_>) -> Result<Option<Party>, Stop> {
    match (words.at, words.hub) {
        (None, None) => Ok(None),
        (Some(dir), None) => Ok(Some(hub_of(rt, dir)?)),
        (None, Some(hub)) => Ok(Some(wanted_party(rt, "--hub", hub)?)),
        (Some(_), Some(_)) => Err(misuse(
            rt,
            &["--hub goes without --at: that folder says whose hub it is"],
        )),
    }
}

/// Wants a folder below a hub's that is another hub's mailbox, or none yet.
fn want_no_party(rt: &HostRuntime, mailbox: &str) -> Result<(), Stop> {
    if node_in(rt, mailbox)?.is_some() && marked_hub(rt, mailbox)?.is_none() {
        return Err(trouble(rt, &[mailbox, " is the mailbox of a party, and of no hub"]));
    }
    Ok(())
}

/// Wants another hub than this one, and another party than that hub.
fn want_other(
    rt: &HostRuntime,
    dir: &str,
    me: &Party,
    other: &Party,
    party: &Party,
) -> Result<(), Stop> {
    let shown = party_text(rt.alloc(), other)?;
    if other == me {
        return Err(trouble(rt, &[dir, " is the hub ", shown.as_str(), " itself"]));
    }
    if other == party {
        return Err(trouble(
            rt,
            &[shown.as_str(), " is the other hub, and no party at it"],
        ));
    }
    Ok(())
}

/// The path of a folder that is there, from the root.
pub(crate) fn whole_path(rt: &HostRuntime, path: &str) -> Result<String, Stop> {
    match fs::canonicalize(rt, path) {
        Ok(whole) => Ok(text_of(rt.alloc(), whole.display())?),
        Err(error) => Err(refusal(rt, path, "it can't be looked at", &error)),
    }
}

/// Links what goes on to another hub to where that one finds it, in its own folder.
fn link_there(rt: &HostRuntime, mailbox: &str, there: &str) -> Result<(), Stop> {
    make_below(rt, there, &["in"])?;
    let alloc = rt.alloc();
    let to = whole_path(rt, below(alloc, there, "in")?.as_str())?;
    link(rt, to.as_str(), below(alloc, mailbox, "out")?.as_str())
}

/// The folders of another hub's mailbox, where what goes on is linked to this folder of the other one.
fn linked_folders(rt: &HostRuntime, mailbox: &str, there: &str) -> Result<(), Stop> {
    want_no_party(rt, there)?;
    make_below(rt, mailbox, &["in", "refused"])?;
    link_there(rt, mailbox, there)
}

/// The folders of another hub's mailbox.
fn hub_folders(rt: &HostRuntime, at: Option<&str>, me: &Party, mailbox: &str) -> Result<(), Stop> {
    want_no_party(rt, mailbox)?;
    match at {
        Some(dir) => linked_folders(rt, mailbox, mailbox_of(rt, dir, me)?.as_str()),
        None => make_below(rt, mailbox, &["in", "out", "refused"]),
    }
}

/// Gives a party at another hub that hub's mailbox.
pub(crate) fn enrol_beyond<H: HubRecords>(
    rt: &HostRuntime,
    hub: &mut Hub<H>,
    words: &EnrolWords<'_>,
    other: Party,
    party: Party,
    known: &[u16],
) -> Result<u8, Stop> {
    let me = hub.party();
    want_other(rt, words.dir, &me, &other, &party)?;
    let mailbox = mailbox_of(rt, words.dir, &other)?;
    hub_folders(rt, words.at, &me, mailbox.as_str())?;
    mark_hub(rt, mailbox.as_str(), other)?;
    enrol_in(rt, hub, words.dir, mailbox.as_str(), party, known)
}
