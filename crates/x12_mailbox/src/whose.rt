//! Whose folder it is: a line in its file `mailbox`, which `van init` writes last. And which mailbox
//! below a hub's folder is another hub's: the same line in its file `hub`.

use crate::folder::{put, stands};
use crate::say::{joined, refusal, trouble};
use crate::stop::Stop;
use crate::words::{below, party_name, party_of};
use std::alloc::{AllocError, Global};
use std::fs;
use std::io::ErrorKind;
use x12_envelopes::Party;

/// The file that says whose folder it is.
const NAME: &str = "mailbox";

/// The file that says which hub's a mailbox is, where it isn't a party's.
const MARK: &str = "hub";

/// Whose folder it is.
#[derive(Clone, Copy)]
pub(crate) enum Whose {
    /// A station's, its hub, and the hub that this one is connected to, if it is.
    Station(Party, Party, Option<Party>),
    /// A hub's.
    Hub(Party),
}

/// A space and a party's name, or nothing.
fn name_behind(alloc: Global, party: &Option<Party>) -> Result<String, AllocError> {
    let Some(party) = party else {
        return String::from_str(alloc, "");
    };
    let name = party_name(alloc, party)?;
    joined(alloc, &[" ", name.as_str()])
}

/// The line that says so.
fn line_of(alloc: Global, whose: &Whose) -> Result<String, AllocError> {
    match whose {
        Whose::Station(me, hub, other) => {
            let me = party_name(alloc, me)?;
            let hub = party_name(alloc, hub)?;
            let other = name_behind(alloc, other)?;
            joined(
                alloc,
                &["station ", me.as_str(), " ", hub.as_str(), other.as_str()],
            )
        }
        Whose::Hub(me) => {
            let me = party_name(alloc, me)?;
            joined(alloc, &["hub ", me.as_str()])
        }
    }
}

/// The hubs that words name.
fn hubs_of(words: &str) -> Option<(Party, Option<Party>)> {
    match words.split_once(' ') {
        Some((hub, other)) => Some((party_of(hub)?, Some(party_of(other)?))),
        None => Some((party_of(words)?, None)),
    }
}

/// What a line says.
fn whose_of(line: &str) -> Option<Whose> {
    let (kind, words) = line.split_once(' ')?;
    if kind == "hub" {
        return Some(Whose::Hub(party_of(words)?));
    }
    if kind != "station" {
        return None;
    }
    let (me, hubs) = words.split_once(' ')?;
    let me = party_of(me)?;
    let (hub, other) = hubs_of(hubs)?;
    Some(Whose::Station(me, hub, other))
}

/// Writes a line into a file of this name.
fn write_line(rt: &HostRuntime, dir: &str, name: &str, whose: &Whose) -> Result<(), Stop> {
    let mut line = line_of(rt.alloc(), whose)?;
    line.push('\n')?;
    Ok(put(rt, dir, name, line.as_bytes())?)
}

/// Writes whose folder it is.
pub(crate) fn write_whose(rt: &HostRuntime, dir: &str, whose: &Whose) -> Result<(), Stop> {
    write_line(rt, dir, NAME, whose)
}

/// Writes that a mailbox is that of a hub.
pub(crate) fn mark_hub(rt: &HostRuntime, mailbox: &str, hub: Party) -> Result<(), Stop> {
    write_line(rt, mailbox, MARK, &Whose::Hub(hub))
}

/// Whether a folder says whose it is.
pub(crate) fn is_mailbox(rt: &HostRuntime, dir: &str) -> Result<bool, Stop> {
    let path = below(rt.alloc(), dir, NAME)?;
    Ok(stands(rt, path.as_str())?)
}

/// Says that a file doesn't say whose folder it is.
fn no_line(rt: &HostRuntime, path: &str) -> Stop {
    trouble(
        rt,
        &[
            path,
            ": it doesn't say whose folder this is, so something else than van wrote it",
        ],
    )
}

/// The hub whose mailbox it is, if it is marked as a hub's.
pub(crate) fn marked_hub(rt: &HostRuntime, mailbox: &str) -> Result<Option<Party>, Stop> {
    let path = below(rt.alloc(), mailbox, MARK)?;
    let path = path.as_str();
    match fs::read_to_string(rt, path) {
        Ok(text) => match whose_of(text.as_str().trim_ascii_end()) {
            Some(Whose::Hub(hub)) => Ok(Some(hub)),
            _ => Err(no_line(rt, path)),
        },
        Err(error)
            if error.kind() == ErrorKind::NotFound || error.kind() == ErrorKind::NotADirectory =>
            Ok(None),
        Err(error) => Err(refusal(rt, path, "it can't be read", &error)),
    }
}

/// Whose folder it is, as it says.
pub(crate) fn read_whose(rt: &HostRuntime, dir: &str) -> Result<Whose, Stop> {
    let path = below(rt.alloc(), dir, NAME)?;
    let path = path.as_str();
    match fs::read_to_string(rt, path) {
        Ok(text) => match whose_of(text.as_str().trim_ascii_end()) {
            Some(whose) => Ok(whose),
            None => Err(no_line(rt, path)),
        },
        Err(error) if error.kind() == ErrorKind::NotFound => Err(trouble(
            rt,
            &[
                dir,
                " is no mailbox: there is no file ",
                path,
                "; van init makes a mailbox",
            ],
        )),
        Err(error) => Err(refusal(rt, path, "it can't be read", &error)),
    }
}
