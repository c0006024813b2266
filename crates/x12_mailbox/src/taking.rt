//! A file that came is taken once, as it is: it is moved out of the way before it is read, to where nobody
//! else writes, is looked at there, and is removed only there. So what comes under its name meanwhile is
//! another file, and no link is followed.

use std::fs::Metadata;
use std::io::ErrorKind;
use std::os::unix::fs::MetadataExt;
use std::time::{SystemTime, UNIX_EPOCH};
use std::{fs, io};
use x12_envelopes::{read_header, split_transmission};

/// The most bytes of a file that is read.
const MOST: u64 = 16_777_216;

/// How many seconds a file that ends inside an interchange may still be written.
const YOUNG: u64 = 60;

/// The bytes of a header.
const HEADER: usize = 106;

/// What becomes of a file that came.
#[derive(Drop)]
pub(crate) enum Took {
    /// It was moved and read.
    Read(Vec<u8>),
    /// It stays where it is, for this reason.
    Stays(&'static str),
}

/// Why a file isn't read, by what stands there; `None` where it is to be read.
fn hindrance(found: &Metadata) -> Option<&'static str> {
    if !found.is_file() {
        return Some("it is no file");
    }
    if found.len() > MOST {
        return Some("it has more than 16777216 bytes");
    }
    None
}

/// The bytes of a file that the command line names, where a link may lead; or why it isn't read.
pub(crate) fn bytes_of(rt: &HostRuntime, path: &str) -> io::Result<Result<Vec<u8>, &'static str>> {
    match hindrance(&fs::metadata(rt, path)?) {
        Some(why) => Ok(Err(why)),
        None => Ok(Ok(fs::read(rt, path)?)),
    }
}

/// Whether something stands at a path, be it a link that leads nowhere.
pub(crate) fn lies(rt: &HostRuntime, path: &str) -> io::Result<bool> {
    match fs::symlink_metadata(rt, path) {
        Ok(_) => Ok(true),
        Err(error) if error.kind() == ErrorKind::NotFound => Ok(false),
        Err(error) => Err(error),
    }
}

/// Whether the segment at the end of an interchange is its trailer.
fn ends_with_trailer(interchange: &[u8], terminator: u8) -> bool {
    let Some((last, segments)) = interchange.split_last() else {
        return false;
    };
    let mut start = 0_usize;
    for (index, byte) in segments.iter().enumerate() {
        if *byte == terminator {
            start = index.saturating_add(1);
        }
    }
    let segment = segments.get(start..).unwrap_or(&[]);
    *last == terminator && segment.trim_ascii_start().starts_with(b"IEA")
}

/// Whether bytes are the front of an interchange, and not the whole.
fn is_front(interchange: &[u8]) -> bool {
    match read_header(interchange) {
        Ok(header) => !ends_with_trailer(interchange, header.delims.terminator),
        Err(_) => {
            let begins = interchange.starts_with(b"ISA") || b"ISA".starts_with(interchange);
            begins && interchange.len() < HEADER
        }
    }
}

/// Whether a file ends inside an interchange, or is empty: somebody may still be writing it.
fn is_torn(rt: &HostRuntime, bytes: &[u8]) -> io::Result<bool> {
    let interchanges = split_transmission(rt.alloc(), bytes)?;
    match interchanges.last() {
        Some(last) => Ok(is_front(last)),
        None => Ok(true),
    }
}

/// Whether a file was written within a minute of the clock.
fn is_young(rt: &HostRuntime, found: &Metadata) -> io::Result<bool> {
    let Ok(now) = SystemTime::now(rt)?.duration_since(UNIX_EPOCH) else {
        return Ok(false);
    };
    match u64::try_from(found.mtime()) {
        Ok(written) => Ok(now.as_secs().abs_diff(written) < YOUNG),
        Err(_) => Ok(false),
    }
}

/// Moves a file that came, unless that was done; or why it stays where it is.
fn move_away(rt: &HostRuntime, came: &str, own: &str) -> io::Result<Option<&'static str>> {
    if lies(rt, own)? {
        return Ok(None);
    }
    if let Some(why) = hindrance(&fs::symlink_metadata(rt, came)?) {
        return Ok(Some(why));
    }
    match fs::rename(rt, came, own) {
        Ok(()) => Ok(None),
        Err(error) if error.kind() == ErrorKind::CrossesDevices => Ok(Some(
            "it lies on another disk than this node's folder, so let a carrier bring it",
        )),
        Err(error) => Err(error),
    }
}

/// Gives a file back that is still being written, unless another one came under its name: then it is
/// looked at again where it is.
fn give_back(rt: &HostRuntime, own: &str, came: &str) -> io::Result<()> {
    match fs::hard_link(rt, own, came) {
        Ok(()) => fs::remove_file(rt, own),
        Err(_) => Ok(()),
    }
}

/// Takes a file that came, or that an earlier turn took and didn't end with.
pub(crate) fn take(rt: &HostRuntime, came: &str, own: &str) -> io::Result<Took> {
    if let Some(why) = move_away(rt, came, own)? {
        return Ok(Took::Stays(why));
    }
    let found = fs::symlink_metadata(rt, own)?;
    if let Some(why) = hindrance(&found) {
        return Ok(Took::Stays(why));
    }
    let bytes = fs::read(rt, own)?;
    if is_young(rt, &found)? && is_torn(rt, &bytes)? {
        give_back(rt, own, came)?;
        return Ok(Took::Stays("it ends inside an interchange, and isn't a minute old"));
    }
    Ok(Took::Read(bytes))
}

/// Whether a file that was taken has another length than what was read of it: somebody writes on.
pub(crate) fn has_grown(rt: &HostRuntime, own: &str, read: usize) -> bool {
    match fs::symlink_metadata(rt, own) {
        Ok(found) => found.len() != read as u64,
        Err(_) => false,
    }
}
