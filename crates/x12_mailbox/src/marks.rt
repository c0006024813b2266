//! The file `handed` of a station's folder: how many of its sets were handed over.

use crate::agreeing::station_trouble;
use crate::pairs::PairFile;
use crate::say::{misuse, trouble};
use crate::stop::Stop;
use x12_envelopes::number_of;
use x12_spool::SpoolFault;
use x12_station::{Records, Station};

/// The file of a folder that says how many sets were handed over.
fn file_in(dir: &str) -> PairFile<'_> {
    PairFile {
        dir,
        name: "handed",
        wrong: "it doesn't say how many sets were handed over",
    }
}

/// How many sets were handed over, and how many before the last of them were.
#[derive(Clone, Copy)]
pub(crate) struct Mark {
    pub(crate) before: u64,
    pub(crate) handed: u64,
}

/// The mark in a station's folder, if there is one.
fn mark_in(rt: &HostRuntime, dir: &str) -> Result<Option<Mark>, Stop> {
    match file_in(dir).read(rt)? {
        Some((before, handed)) => Ok(Some(Mark { before, handed })),
        None => Ok(None),
    }
}

/// Writes a mark, whole and on the disk.
pub(crate) fn write_mark(rt: &HostRuntime, dir: &str, mark: &Mark) -> Result<(), SpoolFault> {
    let Mark { before, handed } = *mark;
    file_in(dir).write(rt, before, handed)
}

/// Whether a station has a set of this number.
fn has_posting<R: Records>(
    rt: &HostRuntime,
    dir: &str,
    station: &mut Station<R>,
    number: u64,
) -> Result<bool, Stop> {
    match station.posting(number) {
        Ok(found) => Ok(found.is_some()),
        Err(fault) => Err(station_trouble(rt, dir, fault)),
    }
}

/// The mark of a folder without one: that of a station that has no set yet, which is written down. Where
/// it has sets, nobody knows which were handed over.
fn first_mark<R: Records>(
    rt: &HostRuntime,
    dir: &str,
    station: &mut Station<R>,
) -> Result<Mark, Stop> {
    if has_posting(rt, dir, station, 1)? {
        return Err(file_in(dir).trouble(
            rt,
            "it isn't there, so say how many sets were handed over, by van run with --handed N",
        ));
    }
    let (before, handed) = (0, 0);
    let mark = Mark { before, handed };
    write_mark(rt, dir, &mark)?;
    Ok(mark)
}

/// The mark, as it is found; records that have fewer sets than were handed over are an older copy.
pub(crate) fn found_mark<R: Records>(
    rt: &HostRuntime,
    dir: &str,
    station: &mut Station<R>,
) -> Result<Mark, Stop> {
    let Some(mark) = mark_in(rt, dir)? else {
        return first_mark(rt, dir, station);
    };
    if mark.handed == 0 || has_posting(rt, dir, station, mark.handed)? {
        return Ok(mark);
    }
    Err(file_in(dir).trouble(
        rt,
        "more sets were handed over than the records have, which are an older copy",
    ))
}

/// Writes the mark that the command line gives, where the folder has none.
pub(crate) fn give_mark<R: Records>(
    rt: &HostRuntime,
    dir: &str,
    station: &mut Station<R>,
    word: &str,
) -> Result<(), Stop> {
    let Some(number) = number_of(word.as_bytes()) else {
        return Err(misuse(
            rt,
            &[
                "--handed wants a number from 0 to 999999999, and not ",
                word,
            ],
        ));
    };
    if mark_in(rt, dir)?.is_some() {
        return Err(file_in(dir).trouble(
            rt,
            "it is there, and says how many sets were handed over",
        ));
    }
    let handed = u64::from(number);
    if handed > 0 && !has_posting(rt, dir, station, handed)? {
        return Err(trouble(rt, &[dir, ": the records have fewer sets than ", word]));
    }
    let before = handed;
    Ok(write_mark(rt, dir, &Mark { before, handed })?)
}
