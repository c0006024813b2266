//! The file `resend` of a station's folder: orders were submitted, and may not have been put where they go on.
//! The next run sends again what isn't answered.

use crate::folder::{put, remove, stands};
use crate::words::below;
use std::alloc::{AllocError, Global};
use x12_spool::SpoolFault;

/// The file's name.
const RESEND: &str = "resend";

/// The file's path.
fn path_in(alloc: Global, dir: &str) -> Result<String, AllocError> {
    below(alloc, dir, RESEND)
}

/// Whether orders of a station may not have been put.
pub(crate) fn is_unsent(rt: &HostRuntime, dir: &str) -> Result<bool, SpoolFault> {
    stands(rt, path_in(rt.alloc(), dir)?.as_str())
}

/// Notes that orders may not be put, and waits until that is on the disk.
pub(crate) fn note_unsent(rt: &HostRuntime, dir: &str) -> Result<(), SpoolFault> {
    put(rt, dir, RESEND, b"")
}

/// Forgets it: they were put.
pub(crate) fn forget_unsent(rt: &HostRuntime, dir: &str) -> Result<(), SpoolFault> {
    remove(rt, path_in(rt.alloc(), dir)?.as_str())
}
