//! The names in a folder. A name may have any bytes: one that isn't UTF-8 is told and passed over.

use crate::folder::remove;
use crate::say::{fault, tell};
use crate::stop::Stop;
use crate::words::below;
use std::alloc::{AllocError, Global};
use std::io::Read;
use std::rt::Files;
use std::{io, str};
use x12_spool::SpoolFault;

/// The names in a folder, as the system lists them: each is ended by a NUL.
fn listed(rt: &HostRuntime, path: &str) -> io::Result<Vec<u8>> {
    let alloc = rt.alloc();
    // the slash makes the system follow a link to a folder
    let mut folder = rt.open_dir(below(alloc, path, "")?.as_str())?;
    let mut names = Vec::new(alloc);
    let mut part = [0_u8; 4096];
    for _ in 0..u64::MAX {
        let read = folder.read(&mut part)?;
        if read == 0 {
            return Ok(names);
        }
        names.extend_from_slice(part.get(..read).unwrap_or(&[]))?;
    }
    Ok(names)
}

/// A digit of a hexadecimal number.
fn hexadecimal(digit: u8) -> char {
    if digit < 10 {
        char::from(b'0'.saturating_add(digit))
    } else {
        char::from(b'A'.saturating_add(digit.saturating_sub(10)))
    }
}

/// The text of a name: a byte that isn't printable ASCII stands as `\xFF`.
fn escaped(alloc: Global, name: &[u8]) -> Result<String, AllocError> {
    let mut text = String::new(alloc);
    for byte in name {
        if byte.is_ascii_graphic() || *byte == b' ' {
            text.push(char::from(*byte))?;
        } else {
            text.push_str("\\x")?;
            text.push(hexadecimal(*byte / 16))?;
            text.push(hexadecimal(*byte % 16))?;
        }
    }
    Ok(text)
}

/// Why nothing was said, to a spool.
pub(crate) fn silent(stop: Stop) -> SpoolFault {
    match stop {
        Stop::Memory => SpoolFault::Memory,
        _ => SpoolFault::Files,
    }
}

/// Says that a name is passed over.
fn pass_over(rt: &HostRuntime, path: &str, name: &[u8]) -> Result<(), SpoolFault> {
    let name = escaped(rt.alloc(), name)?;
    let parts = [
        path,
        "/",
        name.as_str(),
        " is passed over: its name isn't UTF-8, so rename it",
    ];
    match tell(rt, &parts) {
        Ok(()) => Ok(()),
        Err(stop) => Err(silent(stop)),
    }
}

/// Whether a name has a dot in front, but for those of the folder itself and the one above it.
fn is_dotted(name: &[u8]) -> bool {
    name.starts_with(b".") && name != b".".as_slice() && name != b"..".as_slice()
}

/// Whether a name is to be listed: those with a dot in front, or the others.
fn is_wanted(name: &[u8], dotted: bool) -> bool {
    if dotted {
        is_dotted(name)
    } else {
        !name.is_empty() && !name.starts_with(b".")
    }
}

/// Adds a name.
fn add(alloc: Global, names: &mut Vec<Vec<u8>>, name: &[u8]) -> Result<(), AllocError> {
    Ok(names.push(Vec::from_slice(alloc, name)?)?)
}

/// The names in a folder, those with a dot in front or the others, in the order of their bytes.
fn names(rt: &HostRuntime, path: &str, dotted: bool) -> Result<Vec<Vec<u8>>, SpoolFault> {
    let listed = match listed(rt, path) {
        Ok(listed) => listed,
        Err(error) => return Err(fault(rt, path, "the folder can't be listed", &error)),
    };
    let mut names = Vec::new(rt.alloc());
    for name in listed.split(|byte: &u8| -> bool { *byte == 0 }) {
        if is_wanted(name, dotted) {
            if str::from_utf8(name).is_ok() {
                add(rt.alloc(), &mut names, name)?;
            } else {
                pass_over(rt, path, name)?;
            }
        }
    }
    if let Err(AllocError) = names.sort() {
        return Err(SpoolFault::Memory);
    }
    Ok(names)
}

/// The names in a folder, but for those with a dot in front, in the order of their bytes.
pub(crate) fn names_in(rt: &HostRuntime, path: &str) -> Result<Vec<Vec<u8>>, SpoolFault> {
    names(rt, path, false)
}

/// Removes each file of a folder that has a dot in front of its name. What can't be removed, as a folder,
/// is told, and stays.
pub(crate) fn drop_drafts(rt: &HostRuntime, path: &str) -> Result<(), SpoolFault> {
    for name in &names(rt, path, true)? {
        if let Ok(name) = str::from_utf8(name) {
            if let Err(SpoolFault::Memory) = remove(rt, below(rt.alloc(), path, name)?.as_str()) {
                return Err(SpoolFault::Memory);
            }
        }
    }
    Ok(())
}
