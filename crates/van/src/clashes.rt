//! Options that don't go together.

use anyhow::Result;
use std::process::ExitCode;

/// Two options, of which one says nothing beside the other.
#[derive(Clone, Copy)]
pub(crate) struct Clash {
    /// Whether both are asked for.
    pub both: bool,
    /// The one.
    pub one: &'static str,
    /// The other.
    pub other: &'static str,
}

/// The first of these that both are asked for.
fn first<'c>(clashes: &'c [Clash]) -> Option<&'c Clash> {
    for clash in clashes {
        if clash.both {
            return Some(clash);
        }
    }
    None
}

/// Says on standard error which of these don't go together, and gives the exit status; `None` where all
/// do.
pub fn refuse(rt: &HostRuntime, clashes: &[Clash]) -> Result<Option<ExitCode>> {
    let Some(clash) = first(clashes) else {
        return Ok(None);
    };
    eprintln!(rt;
        "error: {} and {} don't go together",
        clash.one, clash.other
    )?;
    Ok(Some(ExitCode::from(2)))
}
