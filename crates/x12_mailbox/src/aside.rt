//! What isn't taken is kept in `refused`, its reason beside it. Nothing that was kept is overwritten by
//! something else, and no name is too long.

use crate::clock::seconds;
use crate::folder::put;
use crate::say::fault;
use crate::stop::Stop;
use crate::words::below;
use std::alloc::{AllocError, Global};
use std::io::ErrorKind;
use std::{fs, io};
use x12_spool::SpoolFault;

/// The most bytes that are kept of a name: beside them a number, `.why` and a dot make 255 at most.
const LONGEST: usize = 230;

/// How many numbers behind a name are tried.
const TRIES: u64 = 1_000;

/// What is kept.
#[derive(Clone, Copy)]
pub(crate) struct Kept<'a> {
    /// The name of the file that it came in.
    pub(crate) name: &'a str,
    /// Its bytes.
    pub(crate) bytes: &'a [u8],
    /// Why it isn't taken, as a line.
    pub(crate) why: &'a str,
}

/// As much of a name as is kept.
fn front_of(name: &str) -> &str {
    if name.len() <= LONGEST {
        return name;
    }
    for back in 0..4 {
        if let Some(front) = name.get(..LONGEST.saturating_sub(back)) {
            return front;
        }
    }
    "name"
}

/// A name with a number behind it, but for the first.
fn tried(alloc: Global, name: &str, n: u64) -> Result<String, AllocError> {
    if n == 1 {
        return String::from_str(alloc, name);
    }
    format!(in alloc; "{name}.{n}")
}

/// The name of the file that says why.
fn name_of_reason(alloc: Global, name: &str) -> Result<String, AllocError> {
    format!(in alloc; "{name}.why")
}

/// Whether a file of these bytes may be put at a path: nothing stands there, or such a file.
fn serves(rt: &HostRuntime, path: &str, bytes: &[u8]) -> io::Result<bool> {
    match fs::symlink_metadata(rt, path) {
        Ok(found) => {
            if found.is_file() && found.len() == bytes.len() as u64 {
                Ok(fs::read(rt, path)?.as_slice() == bytes)
            } else {
                Ok(false)
            }
        }
        Err(error) if error.kind() == ErrorKind::NotFound => Ok(true),
        Err(error) => Err(error),
    }
}

/// The same, and says why it can't be looked at.
fn is_free(rt: &HostRuntime, folder: &str, name: &str, bytes: &[u8]) -> Result<bool, SpoolFault> {
    let path = below(rt.alloc(), folder, name)?;
    match serves(rt, path.as_str(), bytes) {
        Ok(serves) => Ok(serves),
        Err(error) => Err(fault(rt, path.as_str(), "it can't be read", &error)),
    }
}

/// The first name with a number from this one on that serves, for the bytes and for the reason.
fn first_free(
    rt: &HostRuntime,
    folder: &str,
    kept: &Kept<'_>,
    from: u64,
) -> Result<Option<String>, SpoolFault> {
    let alloc = rt.alloc();
    for n in from..from.saturating_add(TRIES) {
        let name = tried(alloc, front_of(kept.name), n)?;
        if is_free(rt, folder, name.as_str(), kept.bytes)? {
            let reason = name_of_reason(alloc, name.as_str())?;
            if is_free(rt, folder, reason.as_str(), kept.why.as_bytes())? {
                return Ok(Some(name));
            }
        }
    }
    Ok(None)
}

/// The seconds of the clock, or 1.
fn late_number(rt: &HostRuntime) -> Result<u64, SpoolFault> {
    match seconds(rt) {
        Ok(seconds) => Ok(seconds.max(1)),
        Err(Stop::Memory) => Err(SpoolFault::Memory),
        Err(_) => Err(SpoolFault::Files),
    }
}

/// A name that serves: with a small number, or, where these are taken, with the seconds of the clock.
fn free_name(rt: &HostRuntime, folder: &str, kept: &Kept<'_>) -> Result<String, SpoolFault> {
    if let Some(name) = first_free(rt, folder, kept, 1)? {
        return Ok(name);
    }
    match first_free(rt, folder, kept, late_number(rt)?)? {
        Some(name) => Ok(name),
        None => {
            let error = io::Error::from(ErrorKind::AlreadyExists);
            Err(fault(rt, folder, "it has no name left", &error))
        }
    }
}

/// Keeps what isn't taken, and answers under which name.
pub(crate) fn keep(rt: &HostRuntime, folder: &str, kept: &Kept<'_>) -> Result<String, SpoolFault> {
    let name = free_name(rt, folder, kept)?;
    let reason = name_of_reason(rt.alloc(), name.as_str())?;
    put(rt, folder, name.as_str(), kept.bytes)?;
    put(rt, folder, reason.as_str(), kept.why.as_bytes())?;
    Ok(name)
}
