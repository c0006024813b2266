//! Files of a node's folder that hold two numbers, as `12 15`.

use crate::folder::{put, stands};
use crate::say::{refusal, trouble};
use crate::stop::Stop;
use crate::words::below;
use std::alloc::{AllocError, Global};
use std::fs;
use x12_spool::SpoolFault;

/// A file of a folder.
#[derive(Clone, Copy)]
pub(crate) struct PairFile<'a> {
    pub(crate) dir: &'a str,
    pub(crate) name: &'a str,
    /// The sentence where it holds anything else.
    pub(crate) wrong: &'a str,
}

/// The two numbers of a text.
fn numbers_in(text: &str) -> Option<(u64, u64)> {
    let (one, other) = text.trim_ascii_end().split_once(' ')?;
    Some((one.parse().ok()?, other.parse().ok()?))
}

impl PairFile<'_> {
    /// Its path.
    pub(crate) fn path(&self, alloc: Global) -> Result<String, AllocError> {
        below(alloc, self.dir, self.name)
    }

    /// Its numbers, if it is there.
    pub(crate) fn read(&self, rt: &HostRuntime) -> Result<Option<(u64, u64)>, Stop> {
        let path = self.path(rt.alloc())?;
        let path = path.as_str();
        if !stands(rt, path)? {
            return Ok(None);
        }
        match fs::read_to_string(rt, path) {
            Ok(text) => match numbers_in(text.as_str()) {
                Some(numbers) => Ok(Some(numbers)),
                None => Err(trouble(rt, &[path, ": ", self.wrong])),
            },
            Err(error) => Err(refusal(rt, path, "it can't be read", &error)),
        }
    }

    /// Writes two numbers, whole and on the disk.
    pub(crate) fn write(&self, rt: &HostRuntime, one: u64, other: u64) -> Result<(), SpoolFault> {
        let text = format!(in rt.alloc(); "{one} {other}\n")?;
        put(rt, self.dir, self.name, text.as_bytes())
    }

    /// Says what is wrong with it.
    pub(crate) fn trouble(&self, rt: &HostRuntime, what: &str) -> Stop {
        match self.path(rt.alloc()) {
            Ok(path) => trouble(rt, &[path.as_str(), ": ", what]),
            Err(_) => Stop::Memory,
        }
    }
}
