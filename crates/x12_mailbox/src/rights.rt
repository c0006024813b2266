//! The rights of a partner's account in its mailbox: its group writes into `in` and reads `out`, and
//! nothing else below the hub's folder.

use crate::say::{misuse, refusal};
use crate::stop::Stop;
use crate::words::below;
use std::fs::Permissions;
use std::os::unix::fs::{PermissionsExt, chown};
use std::{fs, io};

/// The rights of folders that lead to a mailbox: whoever knows a name in them passes.
const PASSED: u32 = 0o711;

/// The rights of a folder into which the group writes. What is made there is the group's.
const WRITTEN: u32 = 0o2770;

/// The rights of a folder that the group reads. What is made there is the group's.
const READ: u32 = 0o2750;

/// Where the names of groups stand.
const GROUPS: &str = "/etc/group";

/// The number of the group of this name, in the lines of `name:password:number:members`.
fn number_in(groups: &str, name: &str) -> Option<u32> {
    for line in groups.lines() {
        let mut fields = line.split(':');
        if fields.next() == Some(name) {
            return fields.nth(1)?.parse().ok();
        }
    }
    None
}

/// The number of a group, which a word names or is.
pub(crate) fn group_of(rt: &HostRuntime, word: &str) -> Result<u32, Stop> {
    if let Ok(number) = word.parse() {
        return Ok(number);
    }
    let groups = match fs::read_to_string(rt, GROUPS) {
        Ok(groups) => groups,
        Err(error) => return Err(refusal(rt, GROUPS, "it can't be read", &error)),
    };
    match number_in(groups.as_str(), word) {
        Some(number) => Ok(number),
        None => Err(misuse(rt, &["--group: this machine has no group ", word])),
    }
}

/// Sets the rights of a folder.
fn set_rights(rt: &HostRuntime, path: &str, rights: u32) -> io::Result<()> {
    fs::set_permissions(rt, path, Permissions::from_mode(rights))
}

/// Gives a folder to a group, with these rights.
fn give(rt: &HostRuntime, path: &str, group: u32, rights: u32) -> Result<(), Stop> {
    if let Err(error) = chown(rt, path, None, Some(group)) {
        return Err(refusal(rt, path, "its group can't be set", &error));
    }
    match set_rights(rt, path, rights) {
        Ok(()) => Ok(()),
        Err(error) => Err(refusal(rt, path, "its rights can't be set", &error)),
    }
}

/// Lets everybody pass through a folder.
fn let_pass(rt: &HostRuntime, path: &str) -> Result<(), Stop> {
    match set_rights(rt, path, PASSED) {
        Ok(()) => Ok(()),
        Err(error) => Err(refusal(rt, path, "its rights can't be set", &error)),
    }
}

/// Gives a group its rights in a mailbox below a hub's folder.
pub(crate) fn share(rt: &HostRuntime, dir: &str, mailbox: &str, group: u32) -> Result<(), Stop> {
    let alloc = rt.alloc();
    give(rt, below(alloc, mailbox, "in")?.as_str(), group, WRITTEN)?;
    give(rt, below(alloc, mailbox, "out")?.as_str(), group, READ)?;
    let_pass(rt, mailbox)?;
    let_pass(rt, dir)
}
