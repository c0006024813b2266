//! A folder of a real disk.

use crate::spool::SpoolFault;
use crate::whole::Disk;
use std::alloc::Global;
use std::fs::OpenFile;
use std::io::Write;
use std::rt::Files;
use std::{fs, str};

/// A folder of a real disk, by its path without a slash at the end. Of it nothing is claimed.
pub struct Folder<'a, R: Files> {
    /// Who reaches files.
    pub files: &'a R,
    /// Where memory is taken.
    pub alloc: Global,
    /// The folder's path.
    pub path: String,
}

impl<'a, R: Files> Folder<'a, R> {
    /// The path of the file of this name, which has to be UTF-8.
    fn path_of(&self, name: &[u8]) -> Result<String, SpoolFault> {
        let Ok(name) = str::from_utf8(name) else {
            return Err(SpoolFault::Files);
        };
        let mut path = String::from_str(self.alloc, self.path.as_str())?;
        path.push('/')?;
        path.push_str(name)?;
        Ok(path)
    }
}

impl<'a, R: Files> Disk for Folder<'a, R> {
    ghost use Rattle.std.specs.Prelude.{None};

    ghost done = { λ s. None };

    fn write(&mut self, name: &[u8], bytes: &[u8]) -> Result<(), SpoolFault> {
        let path = self.path_of(name)?;
        let Ok(mut file) = fs::create(self.files, path.as_str()) else {
            return Err(SpoolFault::Files);
        };
        if file.write_all(bytes).is_err() || file.sync_all().is_err() {
            return Err(SpoolFault::Files);
        }
        Ok(())
    }

    fn rename(&mut self, from: &[u8], to: &[u8]) -> Result<(), SpoolFault> {
        let from = self.path_of(from)?;
        let to = self.path_of(to)?;
        match fs::rename(self.files, from.as_str(), to.as_str()) {
            Ok(()) => Ok(()),
            Err(_) => Err(SpoolFault::Files),
        }
    }

    fn sync(&mut self) -> Result<(), SpoolFault> {
        let Ok(folder) = fs::open(self.files, self.path.as_str()) else {
            return Err(SpoolFault::Files);
        };
        match folder.sync_all() {
            Ok(()) => Ok(()),
            Err(_) => Err(SpoolFault::Files),
        }
    }
}
