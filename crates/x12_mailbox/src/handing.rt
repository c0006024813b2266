//! `posted`: a file for each set that a station accepted, handed over once. Whoever takes such a file
//! away never sees it again, whatever is killed and whatever comes again.
//!
//! A set is drafted under its name with a dot in front, and the folder is synced; then the file `handed`
//! says, in one rename, that it is handed over; then it gets its name. So where a run was killed, the next
//! one knows by `handed` which drafts get their names, and which are dropped. Where `handed` is missing,
//! nobody knows what was handed over: whoever runs the station has to say.

use crate::agreeing::station_trouble;
use crate::folder::{Folder, make, stands};
use crate::listing::{drop_drafts, silent};
use crate::marks::{Mark, found_mark, give_mark, write_mark};
use crate::posted::name_of;
use crate::say::say;
use crate::stop::Stop;
use crate::turns::is_done;
use crate::words::{below, party_text, shown};
use std::alloc::{AllocError, Global};
use x12_inbound::Posting;
use x12_spool::{Disk, HandOver, SpoolFault, hand_over};
use x12_station::{Records, Station};

/// The most sets that are handed over at once, and of their bytes.
const MOST: usize = 100;

const MOST_BYTES: usize = 1_048_576;

/// Where a station's accepted sets are handed over.
#[derive(Drop)]
pub(crate) struct Posted<'a> {
    /// Who reaches files.
    rt: &'a HostRuntime,
    /// The station's folder.
    dir: &'a str,
    /// Its folder `posted`.
    folder: String,
    /// What its file `handed` says.
    mark: Mark,
    /// No draft stands there.
    is_clean: bool,
}

/// A name with a dot in front.
fn dotted(alloc: Global, name: &str) -> Result<String, AllocError> {
    format!(in alloc; ".{name}")
}

impl<'a> Posted<'a> {
    /// The folder `posted` of a station's folder, made where it isn't there.
    fn of(rt: &'a HostRuntime, dir: &'a str, mark: Mark) -> Result<Posted<'a>, Stop> {
        let folder = below(rt.alloc(), dir, "posted")?;
        make(rt, folder.as_str())?;
        Ok(Posted {
            rt,
            dir,
            folder,
            mark,
            is_clean: false,
        })
    }

    /// The folder on the disk.
    fn disk(&self) -> Folder<'_> {
        Folder {
            rt: self.rt,
            path: self.folder.as_str(),
        }
    }

    /// The path of a name in the folder.
    fn path_of(&self, name: &str) -> Result<String, AllocError> {
        below(self.rt.alloc(), self.folder.as_str(), name)
    }

    /// Waits until the mark that was found is on the disk.
    fn keep_mark(&self) -> Result<(), SpoolFault> {
        let mut disk = Folder {
            rt: self.rt,
            path: self.dir,
        };
        Disk::sync(&mut disk)
    }

    /// Gives a draft its name, and says what it is.
    fn give_name(&self, name: &str, posting: &Posting) -> Result<(), SpoolFault> {
        let alloc = self.rt.alloc();
        let draft = dotted(alloc, name)?;
        let mut disk = self.disk();
        Disk::rename(&mut disk, draft.as_bytes(), name.as_bytes())?;
        Disk::sync(&mut disk)?;
        self.say_named(name, posting)
    }

    /// Says which set has its name.
    fn say_named(&self, name: &str, posting: &Posting) -> Result<(), SpoolFault> {
        let alloc = self.rt.alloc();
        let path = self.path_of(name)?;
        let set = shown(alloc, &posting.set)?;
        let number = shown(alloc, posting.number.as_bytes())?;
        let sender = party_text(alloc, &posting.key.sender)?;
        let parts = [
            path.as_str(),
            ": ",
            set.as_str(),
            " ",
            number.as_str(),
            " from ",
            sender.as_str(),
        ];
        match say(self.rt, &parts) {
            Ok(()) => Ok(()),
            Err(stop) => Err(silent(stop)),
        }
    }

    /// Gives a draft its name, if it still stands.
    fn name_left(&self, posting: &Posting) -> Result<(), SpoolFault> {
        let alloc = self.rt.alloc();
        let name = name_of(alloc, posting)?;
        let draft = dotted(alloc, name.as_str())?;
        if stands(self.rt, self.path_of(draft.as_str())?.as_str())? {
            self.give_name(name.as_str(), posting)?;
        }
        Ok(())
    }
}

impl<'a> HandOver for Posted<'a> {
    ghost use Rattle.std.specs.Prelude.{None};

    ghost done = { λ s. None };

    fn settle(&mut self, handed: &[Posting]) -> Result<(), SpoolFault> {
        if self.is_clean {
            return Ok(());
        }
        self.keep_mark()?;
        for posting in handed {
            self.name_left(posting)?;
        }
        drop_drafts(self.rt, self.folder.as_str())
    }

    fn draft(&mut self, posting: &Posting) -> Result<(), SpoolFault> {
        self.is_clean = false;
        let alloc = self.rt.alloc();
        let draft = dotted(alloc, name_of(alloc, posting)?.as_str())?;
        Disk::write(&mut self.disk(), draft.as_bytes(), &posting.bytes)
    }

    fn sync(&mut self) -> Result<(), SpoolFault> {
        Disk::sync(&mut self.disk())
    }

    fn mark(&mut self, handed: u64) -> Result<(), SpoolFault> {
        let before = self.mark.handed;
        let mark = Mark { before, handed };
        write_mark(self.rt, self.dir, &mark)?;
        self.mark = mark;
        Ok(())
    }

    fn name(&mut self, posting: &Posting) -> Result<(), SpoolFault> {
        let name = name_of(self.rt.alloc(), posting)?;
        self.give_name(name.as_str(), posting)
    }
}

/// The sets that a station posted behind so many, as many as are handed over at once.
fn postings_behind<R: Records>(
    posted: &Posted<'_>,
    station: &mut Station<R>,
    behind: u64,
    most: usize,
) -> Result<Vec<Posting>, Stop> {
    let mut found = Vec::new(posted.rt.alloc());
    let mut bytes = 0_usize;
    for index in 0..most {
        let at = behind.saturating_add(index as u64).saturating_add(1);
        match station.posting(at) {
            Ok(Some(posting)) if bytes <= MOST_BYTES => {
                bytes = bytes.saturating_add(posting.bytes.len());
                found.push(posting)?;
            }
            Ok(_) => return Ok(found),
            Err(fault) => return Err(station_trouble(posted.rt, posted.dir, fault)),
        }
    }
    Ok(found)
}

/// The sets that were handed over last: a draft of theirs may still stand.
fn left_over<R: Records>(
    posted: &Posted<'_>,
    station: &mut Station<R>,
) -> Result<Vec<Posting>, Stop> {
    if posted.is_clean {
        return Ok(Vec::new(posted.rt.alloc()));
    }
    let Mark { before, handed } = posted.mark;
    let most = handed.saturating_sub(before).min(MOST as u64) as usize;
    postings_behind(posted, station, before, most)
}

/// Where a station's accepted sets are handed over, of which the command line may say how many were.
/// Records that are an older copy are refused.
pub(crate) fn posted_over<'a, R: Records>(
    rt: &'a HostRuntime,
    dir: &'a str,
    station: &mut Station<R>,
    handed: Option<&str>,
) -> Result<Posted<'a>, Stop> {
    if let Some(word) = handed {
        give_mark(rt, dir, station, word)?;
    }
    let mark = found_mark(rt, dir, station)?;
    Posted::of(rt, dir, mark)
}

/// Hands over what was posted since; whether all was done: a folder may refuse.
pub(crate) fn hand_over_all<R: Records>(
    posted: &mut Posted<'_>,
    station: &mut Station<R>,
) -> Result<bool, Stop> {
    for _ in 0..u64::MAX {
        if !posted.is_clean {
            posted.mark = found_mark(posted.rt, posted.dir, station)?;
        }
        let handed = posted.mark.handed;
        let new = postings_behind(posted, station, handed, MOST)?;
        if posted.is_clean && new.is_empty() {
            return Ok(true);
        }
        let left = left_over(posted, station)?;
        let count = handed.saturating_add(new.len() as u64);
        let done = hand_over(posted, &left, &new, count);
        if !is_done(posted.rt, posted.dir, done)? {
            return Ok(false);
        }
        posted.is_clean = true;
    }
    Ok(true)
}
