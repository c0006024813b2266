//! The links of a station's folder to its mailbox at a hub on this machine.

use crate::connecting::{hub_of, whole_path};
use crate::folder::put;
use crate::say::{refusal, text_of, trouble};
use crate::stop::Stop;
use crate::words::{below, party_name, party_text};
use std::fs;
use std::io::ErrorKind;
use std::os::unix::fs::symlink;
use x12_envelopes::Party;

/// The file of a mailbox that says which station is linked to it.
const STATION: &str = "station";

/// Makes a link that isn't there.
fn new_link(rt: &HostRuntime, to: &str, at: &str) -> Result<(), Stop> {
    match symlink(rt, to, at) {
        Ok(()) => Ok(()),
        Err(error) => Err(refusal(rt, at, "the link can't be made", &error)),
    }
}

/// Links a folder to one of another node's, unless that is done.
pub(crate) fn link(rt: &HostRuntime, to: &str, at: &str) -> Result<(), Stop> {
    match fs::read_link(rt, at) {
        Ok(found) if text_of(rt.alloc(), found.display())?.as_str() == to => Ok(()),
        Err(error) if error.kind() == ErrorKind::NotFound => new_link(rt, to, at),
        _ => Err(trouble(rt, &[at, " is there already, and is no link to ", to])),
    }
}

/// The path of a party's mailbox in a hub's folder, from the root.
fn mailbox_at(rt: &HostRuntime, hub_dir: &str, me: &Party) -> Result<String, Stop> {
    let alloc = rt.alloc();
    let name = party_name(alloc, me)?;
    let path = below(alloc, hub_dir, name.as_str())?;
    match fs::canonicalize(rt, path.as_str()) {
        Ok(whole) => Ok(text_of(alloc, whole.display())?),
        Err(_) => Err(trouble(
            rt,
            &[
                path.as_str(),
                " isn't there: van enrol ",
                hub_dir,
                " ",
                name.as_str(),
                " makes the mailbox",
            ],
        )),
    }
}

/// Wants the folder of a station's hub to be that hub's.
pub(crate) fn want_hub(rt: &HostRuntime, hub_dir: &str, hub: &Party) -> Result<(), Stop> {
    let found = hub_of(rt, hub_dir)?;
    if found == *hub {
        return Ok(());
    }
    let found = party_text(rt.alloc(), &found)?;
    let hub = party_text(rt.alloc(), hub)?;
    let parts = [
        hub_dir,
        " is the hub ",
        found.as_str(),
        ", and not ",
        hub.as_str(),
    ];
    Err(trouble(rt, &parts))
}

/// Writes into a mailbox which station's folder is linked to it, unless that is done. Two stations at one
/// mailbox would take each other's answers.
fn claim_mailbox(rt: &HostRuntime, mailbox: &str, dir: &str) -> Result<(), Stop> {
    let alloc = rt.alloc();
    let path = below(alloc, mailbox, STATION)?;
    let path = path.as_str();
    let dir = whole_path(rt, dir)?;
    match fs::read_to_string(rt, path) {
        Ok(text) => {
            let linked = text.as_str().trim_ascii_end();
            if linked == dir.as_str() {
                return Ok(());
            }
            Err(trouble(
                rt,
                &[
                    mailbox,
                    " is linked to the station in ",
                    linked,
                    " already: where that one is gone, remove ",
                    path,
                ],
            ))
        }
        Err(error) if error.kind() == ErrorKind::NotFound => {
            let line = format!(in alloc; "{dir}\n")?;
            Ok(put(rt, mailbox, STATION, line.as_bytes())?)
        }
        Err(error) => Err(refusal(rt, path, "it can't be read", &error)),
    }
}

/// Links the folders of a station to its mailbox at the hub: what it puts comes to the hub, and what
/// the hub puts comes to it.
pub(crate) fn link_folders(
    rt: &HostRuntime,
    dir: &str,
    hub_dir: &str,
    me: &Party,
) -> Result<(), Stop> {
    let alloc = rt.alloc();
    let mailbox = mailbox_at(rt, hub_dir, me)?;
    let mailbox = mailbox.as_str();
    claim_mailbox(rt, mailbox, dir)?;
    link(
        rt,
        below(alloc, mailbox, "out")?.as_str(),
        below(alloc, dir, "in")?.as_str(),
    )?;
    link(
        rt,
        below(alloc, mailbox, "in")?.as_str(),
        below(alloc, dir, "out")?.as_str(),
    )
}
