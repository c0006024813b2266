//! A folder of the disk, which says on standard error what it refuses. Of it nothing is claimed.
//!
//! Whatever the umask is, what is made is its owner's alone: a folder has the rights 0700, and a file 0600.
//! But in a folder that gives what is made in it to its group (`chmod g+s`), and that the group may read,
//! a file has 0640.

use crate::say::fault;
use crate::words::below;
use std::fs::{DirBuilder, Metadata, OpenOptions, Permissions};
use std::io::{ErrorKind, Write};
use std::os::unix::fs::{DirBuilderExt, MetadataExt, OpenOptionsExt, PermissionsExt};
use std::{fs, io, str};
use x12_spool::{Disk, SpoolFault, put_whole};

/// The rights of a folder that is made.
const FOLDER_RIGHTS: u32 = 0o700;

/// The rights of a file that is made.
const FILE_RIGHTS: u32 = 0o600;

/// The rights of a folder whose group reads what is made in it.
const SHARED: u32 = 0o2040;

/// A folder, by its path.
#[derive(Drop)]
pub(crate) struct Folder<'a> {
    /// Who reaches files.
    pub(crate) rt: &'a HostRuntime,
    /// The folder's path.
    pub(crate) path: &'a str,
}

impl<'a> Folder<'a> {
    /// The path of the file of this name.
    fn path_of(&self, name: &[u8]) -> Result<String, SpoolFault> {
        match str::from_utf8(name) {
            Ok(name) => Ok(below(self.rt.alloc(), self.path, name)?),
            Err(_) => Err(SpoolFault::Files),
        }
    }
}

/// The rights of a file that is made in this folder.
fn rights_in(folder: &Metadata) -> u32 {
    if folder.mode() & SHARED == SHARED {
        FILE_RIGHTS | 0o040
    } else {
        FILE_RIGHTS
    }
}

/// A file that is new under its name: nothing is written through a link that stood there.
fn new_file(rt: &HostRuntime, path: &str) -> io::Result<fs::File> {
    match fs::remove_file(rt, path) {
        Ok(()) => {}
        Err(error) if error.kind() == ErrorKind::NotFound => {}
        Err(error) => return Err(error),
    }
    let mut options = OpenOptions::new();
    options.write(true);
    options.create_new(true);
    options.mode(FILE_RIGHTS);
    options.open(rt, path)
}

/// Writes a file of a folder anew, and waits until its bytes are on the disk.
fn write_synced(rt: &HostRuntime, folder: &str, path: &str, bytes: &[u8]) -> io::Result<()> {
    let rights = rights_in(&fs::metadata(rt, folder)?);
    let mut file = new_file(rt, path)?;
    file.set_permissions(Permissions::from_mode(rights))?;
    file.write_all(bytes)?;
    file.sync_all()
}

/// Waits until the names in a folder are on the disk.
fn sync_folder(rt: &HostRuntime, path: &str) -> io::Result<()> {
    let folder = fs::open(rt, path)?;
    folder.sync_all()
}

impl<'a> Disk for Folder<'a> {
    ghost use Rattle.std.specs.Prelude.{None};

    ghost done = { λ s. None };

    fn write(&mut self, name: &[u8], bytes: &[u8]) -> Result<(), SpoolFault> {
        let path = self.path_of(name)?;
        match write_synced(self.rt, self.path, path.as_str(), bytes) {
            Ok(()) => Ok(()),
            Err(error) => Err(fault(self.rt, path.as_str(), "it can't be written", &error)),
        }
    }

    fn rename(&mut self, from: &[u8], to: &[u8]) -> Result<(), SpoolFault> {
        let from = self.path_of(from)?;
        let to = self.path_of(to)?;
        match fs::rename(self.rt, from.as_str(), to.as_str()) {
            Ok(()) => Ok(()),
            Err(error) => Err(fault(self.rt, from.as_str(), "it can't be renamed", &error)),
        }
    }

    fn sync(&mut self) -> Result<(), SpoolFault> {
        match sync_folder(self.rt, self.path) {
            Ok(()) => Ok(()),
            Err(error) => Err(fault(self.rt, self.path, "it can't be synced", &error)),
        }
    }
}

/// Puts a file into a folder: its name is there once it is whole and on the disk.
pub(crate) fn put(
    rt: &HostRuntime,
    folder: &str,
    name: &str,
    bytes: &[u8],
) -> Result<(), SpoolFault> {
    let mut disk = Folder { rt, path: folder };
    put_whole(rt.alloc(), &mut disk, name.as_bytes(), bytes)
}

/// Whether something stands at a path.
pub(crate) fn stands(rt: &HostRuntime, path: &str) -> Result<bool, SpoolFault> {
    match fs::exists(rt, path) {
        Ok(stands) => Ok(stands),
        Err(error) => Err(fault(rt, path, "it can't be looked at", &error)),
    }
}

/// Whether a folder stands at a path.
fn is_folder(rt: &HostRuntime, path: &str) -> bool {
    match fs::metadata(rt, path) {
        Ok(found) => found.is_dir(),
        Err(_) => false,
    }
}

/// The folder in which something lies.
fn parent_of(path: &str) -> &str {
    match path.strip_suffix('/').unwrap_or(path).rsplit_once('/') {
        Some((parent, _)) => if parent.is_empty() { "/" } else { parent },
        None => ".",
    }
}

/// Makes a folder in one that is there, and waits until its name is on the disk; unless it is there.
fn make_one(rt: &HostRuntime, path: &str) -> io::Result<()> {
    if is_folder(rt, path) {
        return Ok(());
    }
    let mut builder = DirBuilder::new();
    builder.mode(FOLDER_RIGHTS);
    builder.create(rt, path)?;
    fs::set_permissions(rt, path, Permissions::from_mode(FOLDER_RIGHTS))?;
    sync_folder(rt, parent_of(path))
}

/// Makes a folder, and those above it.
fn make_all(rt: &HostRuntime, path: &str) -> io::Result<()> {
    for end in 1..path.len() {
        if let Some((above, rest)) = path.split_at_checked(end) {
            if rest.starts_with('/') {
                make_one(rt, above)?;
            }
        }
    }
    make_one(rt, path)
}

/// Makes a folder, unless it is there.
pub(crate) fn make(rt: &HostRuntime, path: &str) -> Result<(), SpoolFault> {
    match make_all(rt, path) {
        Ok(()) => Ok(()),
        Err(error) => Err(fault(rt, path, "the folder can't be made", &error)),
    }
}

/// Gives a file that something else made the rights of one that is made here, if it is there.
pub(crate) fn keep_private(rt: &HostRuntime, path: &str) -> Result<(), SpoolFault> {
    match fs::set_permissions(rt, path, Permissions::from_mode(FILE_RIGHTS)) {
        Ok(()) => Ok(()),
        Err(error) if error.kind() == ErrorKind::NotFound => Ok(()),
        Err(error) => Err(fault(rt, path, "its rights can't be set", &error)),
    }
}

/// Removes a file, if it is there.
pub(crate) fn remove(rt: &HostRuntime, path: &str) -> Result<(), SpoolFault> {
    match fs::remove_file(rt, path) {
        Ok(()) => Ok(()),
        Err(error) if error.kind() == ErrorKind::NotFound => Ok(()),
        Err(error) => Err(fault(rt, path, "it can't be removed", &error)),
    }
}
