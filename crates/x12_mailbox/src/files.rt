//! The folders of a node on the disk: what came, what is being taken, what goes on, and what is set aside.
//! Each thing that is done is a line. Of the folders nothing is claimed.

use crate::aside::{Kept, keep};
use crate::folder::{make, put, remove, stands};
use crate::listing::{names_in, silent};
use crate::naming::{Names, is_unfinished, named, word_in};
use crate::reason::reason_text;
use crate::say::{say, tell};
use crate::taking::{Took, has_grown, take};
use crate::words::{below, nine, party_text};
use std::alloc::{AllocError, Global};
use std::{io, str};
use x12_envelopes::read_header;
use x12_spool::{Reason, Spool, SpoolFault, Waiting, Word};

/// The folders of a node.
#[derive(Drop)]
pub(crate) struct Files<'a> {
    /// Who reaches files.
    pub(crate) rt: &'a HostRuntime,
    /// Where what comes lies.
    pub(crate) from: String,
    /// Where what is being taken lies: nobody else writes there.
    own: String,
    /// Where what goes on is put.
    pub(crate) to: String,
    /// Where what isn't taken is kept.
    pub(crate) aside: String,
    /// What the names of files that came may say.
    pub(crate) names: Names,
    /// How many files a turn takes at most.
    pub(crate) most: usize,
    /// How many bytes were read last.
    read: usize,
    /// A file of this turn can't be moved or read: the turn isn't done.
    pub(crate) is_troubled: bool,
}

/// The folders below a folder: `from` and `to` are the names of two.
pub(crate) fn files_in<'a>(
    rt: &'a HostRuntime,
    dir: &str,
    from: &str,
    to: &str,
    names: Names,
) -> Result<Files<'a>, AllocError> {
    let alloc = rt.alloc();
    Ok(Files {
        rt,
        from: below(alloc, dir, from)?,
        own: below(alloc, below(alloc, dir, "taking")?.as_str(), from)?,
        to: below(alloc, dir, to)?,
        aside: below(alloc, dir, "refused")?,
        names,
        most: usize::MAX,
        read: 0,
        is_troubled: false,
    })
}

/// What the first interchange of these bytes is: its number, its sender and its receiver.
pub(crate) fn told(alloc: Global, bytes: &[u8]) -> Result<String, AllocError> {
    let Ok(header) = read_header(bytes) else {
        return format!(in alloc; "{} bytes", bytes.len());
    };
    let mut text = nine(alloc, header.icn)?;
    text.push_str(" from ")?;
    text.push_str(party_text(alloc, &header.sender)?.as_str())?;
    text.push_str(" to ")?;
    text.push_str(party_text(alloc, &header.receiver)?.as_str())?;
    Ok(text)
}

/// Prints a line about a file.
fn line(rt: &HostRuntime, path: &str, what: &str) -> Result<(), SpoolFault> {
    match say(rt, &[path, ": ", what]) {
        Ok(()) => Ok(()),
        Err(stop) => Err(silent(stop)),
    }
}

/// Says that a file is passed over.
fn pass_over(rt: &HostRuntime, path: &str, why: &str) -> Result<Option<Vec<u8>>, SpoolFault> {
    match tell(rt, &[path, " is passed over: ", why]) {
        Ok(()) => Ok(None),
        Err(stop) => Err(silent(stop)),
    }
}

/// Whether a name is among these.
fn has_name(names: &[Vec<u8>], name: &[u8]) -> bool {
    for other in names {
        if other.as_slice() == name {
            return true;
        }
    }
    false
}

/// Adds the names of files that are there, but for those that are among the first ones.
fn add_new(names: &mut Vec<Vec<u8>>, came: Vec<Vec<u8>>) -> Result<(), AllocError> {
    let first = names.len();
    for name in came {
        let taken = names.get(..first).unwrap_or(&[]);
        if !is_unfinished(&name) && !has_name(taken, &name) {
            names.push(name)?;
        }
    }
    Ok(())
}

/// The name of the file of an item.
fn name_of_item(alloc: Global, item: u32) -> Result<String, AllocError> {
    named(alloc, "item-", item, ".edi")
}

impl<'a> Files<'a> {
    /// Removes the file of an item that was taken, where whoever took it has left it.
    fn unput(&self, item: u32) -> Result<(), SpoolFault> {
        let alloc = self.rt.alloc();
        let name = name_of_item(alloc, item)?;
        remove(
            self.rt,
            below(alloc, self.to.as_str(), name.as_str())?.as_str(),
        )
    }

    /// The path of a name in a folder.
    fn path_in(&self, folder: &str, name: &[u8]) -> Result<String, SpoolFault> {
        match str::from_utf8(name) {
            Ok(name) => Ok(below(self.rt.alloc(), folder, name)?),
            Err(_) => Err(SpoolFault::Files),
        }
    }

    /// The files that a turn took that was stopped, and then those that came, but for the names of the
    /// first: these have to be done with before.
    fn found(&self) -> Result<Vec<Vec<u8>>, SpoolFault> {
        let came = names_in(self.rt, self.from.as_str())?;
        if !came.is_empty() {
            make(self.rt, self.own.as_str())?;
        }
        let mut names = Vec::new(self.rt.alloc());
        if stands(self.rt, self.own.as_str())? {
            names = names_in(self.rt, self.own.as_str())?;
        }
        add_new(&mut names, came)?;
        self.leave_rest(&mut names)?;
        Ok(names)
    }

    /// Leaves the files that are too many for one turn to the next one, and says so.
    fn leave_rest(&self, names: &mut Vec<Vec<u8>>) -> Result<(), SpoolFault> {
        let rest = names.len().saturating_sub(self.most);
        if rest == 0 {
            return Ok(());
        }
        names.truncate(self.most);
        let what = format!(in self.rt.alloc(); "{rest} more files wait for the next turn")?;
        line(self.rt, self.from.as_str(), what.as_str())
    }

    /// Removes a file that was taken, unless somebody wrote on: then the next turn takes it again.
    fn remove_taken(&self, name: &[u8]) -> Result<(), SpoolFault> {
        let own = self.path_in(self.own.as_str(), name)?;
        if has_grown(self.rt, own.as_str(), self.read) {
            return Ok(());
        }
        remove(self.rt, own.as_str())
    }

    /// Puts bytes under a name where they go on, and says what they are.
    fn put_on(&self, name: &str, bytes: &[u8]) -> Result<(), SpoolFault> {
        put(self.rt, self.to.as_str(), name, bytes)?;
        let path = below(self.rt.alloc(), self.to.as_str(), name)?;
        line(
            self.rt,
            path.as_str(),
            told(self.rt.alloc(), bytes)?.as_str(),
        )
    }
}

impl<'a> Spool for Files<'a> {
    ghost use Rattle.std.specs.Prelude.{None};

    ghost done = { λ s. None };

    fn waiting(&mut self) -> Result<Vec<Waiting>, SpoolFault> {
        self.is_troubled = false;
        let mut files = Vec::new(self.rt.alloc());
        for name in self.found()? {
            let word = word_in(&name, self.names);
            if files.push(Waiting { name, word }).is_err() {
                return Err(SpoolFault::Memory);
            }
        }
        Ok(files)
    }

    fn read(&mut self, name: &[u8]) -> Result<Option<Vec<u8>>, SpoolFault> {
        let came = self.path_in(self.from.as_str(), name)?;
        let own = self.path_in(self.own.as_str(), name)?;
        match take(self.rt, came.as_str(), own.as_str()) {
            Ok(Took::Read(bytes)) => {
                self.read = bytes.len();
                line(
                    self.rt,
                    came.as_str(),
                    told(self.rt.alloc(), &bytes)?.as_str(),
                )?;
                Ok(Some(bytes))
            }
            Ok(Took::Stays(why)) => pass_over(self.rt, came.as_str(), why),
            Err(error) if error.kind() == io::ErrorKind::OutOfMemory => Err(SpoolFault::Memory),
            // a hub takes an item's file back once it hears that the item was taken
            Err(error) if error.kind() == io::ErrorKind::NotFound => Ok(None),
            Err(error) => {
                self.is_troubled = true;
                let why = format!(in self.rt.alloc(); "{error}")?;
                pass_over(self.rt, came.as_str(), why.as_str())
            }
        }
    }

    fn send(&mut self, bytes: &[u8]) -> Result<(), SpoolFault> {
        let Ok(header) = read_header(bytes) else {
            return Err(SpoolFault::Files);
        };
        let name = named(self.rt.alloc(), "sent-", header.icn, ".edi")?;
        self.put_on(name.as_str(), bytes)
    }

    fn put(&mut self, item: u32, bytes: &[u8]) -> Result<(), SpoolFault> {
        let alloc = self.rt.alloc();
        let name = name_of_item(alloc, item)?;
        let path = below(alloc, self.to.as_str(), name.as_str())?;
        if stands(self.rt, path.as_str())? {
            return Ok(());
        }
        self.put_on(name.as_str(), bytes)
    }

    fn confirm(&mut self, item: u32) -> Result<(), SpoolFault> {
        let name = named(self.rt.alloc(), "taken-", item, "")?;
        put(self.rt, self.to.as_str(), name.as_str(), b"")
    }

    fn set_aside(&mut self, name: &[u8], bytes: &[u8], reason: Reason) -> Result<(), SpoolFault> {
        let Ok(name) = str::from_utf8(name) else {
            return Err(SpoolFault::Files);
        };
        let why = reason_text(self.rt.alloc(), reason)?;
        let mut sentence = String::from_str(self.rt.alloc(), why.as_str())?;
        sentence.push('\n')?;
        let kept = Kept {
            name,
            bytes,
            why: sentence.as_str(),
        };
        let name = keep(self.rt, self.aside.as_str(), &kept)?;
        let path = below(self.rt.alloc(), self.aside.as_str(), name.as_str())?;
        line(self.rt, path.as_str(), why.as_str())
    }

    fn remove(&mut self, name: &[u8]) -> Result<(), SpoolFault> {
        if let Word::Taken(item) = word_in(name, self.names) {
            self.unput(item)?;
            return remove(self.rt, self.path_in(self.from.as_str(), name)?.as_str());
        }
        self.remove_taken(name)
    }
}
