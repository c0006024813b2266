//! `van submit`: a station keeps interchanges, and puts them where they go on.

use crate::agreeing::station_trouble;
use crate::clock::moment;
use crate::counts::count_station;
use crate::files::{Files, files_in, told};
use crate::folder::stands;
use crate::naming::Names;
use crate::opening::{OpensRecords, open_a_station};
use crate::options::{DIR, NOW, STATUSES, text};
use crate::reason::{node_text, reason_text};
use crate::say::{misuse, refusal, tell, text_of, trouble, trouble_at};
use crate::stop::Stop;
use crate::taking::bytes_of;
use crate::unsent::{forget_unsent, is_unsent, note_unsent};
use crate::words::wanted_party;
use clap::ArgMatches;
use command_table::{Kind, Row, Word};
use std::alloc::{AllocError, Global};
use x12_envelopes::{Moment, Party, split_transmission};
use x12_spool::{Answer, Node, Spool, Submitting};
use x12_station::{Body, Records, Station, StationFault};

/// The words of the command.
static WORDS: [Word; 5] = [
    DIR,
    Word {
        kind: Kind::Many,
        name: "files",
        value: "FILE",
        help: "A file of prepared interchanges",
    },
    Word {
        kind: Kind::Value,
        name: "to",
        value: "QQID",
        help: "Who gets the orders, as ZZBETA",
    },
    Word {
        kind: Kind::Values,
        name: "order",
        value: "TEXT",
        help: "The number of an order (BEG03) of 10 pieces at 5, in place of files",
    },
    NOW,
];

/// The command's part of the command line.
pub(crate) fn row() -> Row {
    Row {
        name: "submit",
        about: "Submits interchanges or orders of a station.",
        more: STATUSES,
        words: &WORDS,
    }
}

/// What the words say.
#[derive(Clone, Copy)]
pub(crate) struct SubmitWords<'w, 'a> {
    /// The folder.
    dir: &'a str,
    /// The files.
    files: Option<&'w [&'a str]>,
    /// `--to`.
    to: Option<&'a str>,
    /// `--order`.
    orders: Option<&'w [&'a str]>,
    /// `--now`.
    now: Option<&'a str>,
}

impl<'w, 'a> SubmitWords<'w, 'a> {
    /// Reads the words.
    pub(crate) fn of(found: &'w ArgMatches<'a>) -> SubmitWords<'w, 'a> {
        SubmitWords {
            dir: text(found, "dir"),
            files: found.get_strs("files"),
            to: found.get_str("to"),
            orders: found.get_strs("order"),
            now: found.get_str("now"),
        }
    }
}

/// The order of this number (BEG03), of a date: one item, ten of it at five.
fn order<'a>(alloc: Global, number: &'a [u8], date: &'a [u8]) -> Result<Body, AllocError> {
    let head: [&'a [u8]; 6] = [b"BEG", b"00", b"SA", number, b"", date];
    let item: [&'a [u8]; 5] = [b"PO1", b"1", b"10", b"EA", b"5"];
    Body::new(alloc, &[&head, &item])
}

/// The orders of these numbers.
fn orders(alloc: Global, numbers: &[&str], at: &Moment) -> Result<Vec<Body>, AllocError> {
    let date = at.date();
    let mut orders = Vec::new(alloc);
    for number in numbers {
        orders.push(order(alloc, number.as_bytes(), &date)?)?;
    }
    Ok(orders)
}

/// What became of orders.
#[derive(Drop)]
enum Ordered {
    /// Their interchange was submitted and put.
    Put,
    /// It was submitted, and couldn't be put.
    Unsent,
    /// They were refused: nothing was submitted.
    Refused(Stop),
}

/// Puts an interchange of orders that is submitted; where that fails, the next run does it.
fn put_ordered(
    rt: &HostRuntime,
    files: &mut Files<'_>,
    dir: &str,
    bytes: &[u8],
) -> Result<Ordered, Stop> {
    if files.send(bytes).is_ok() {
        return Ok(Ordered::Put);
    }
    let what = told(rt.alloc(), bytes)?;
    let parts = [
        dir,
        ": ",
        what.as_str(),
        " is submitted, and the next van run puts it",
    ];
    tell(rt, &parts)?;
    Ok(Ordered::Unsent)
}

/// Submits orders, and puts their interchange.
fn submit_orders<R: Records>(
    rt: &HostRuntime,
    station: &mut Station<R>,
    files: &mut Files<'_>,
    words: &SubmitWords<'_, '_>,
    to: Party,
    at: &Moment,
) -> Result<Ordered, Stop> {
    let orders = orders(rt.alloc(), words.orders.unwrap_or(&[]), at)?;
    match station.submit_orders(to, at, &orders) {
        Ok(sent) => put_ordered(rt, files, words.dir, &sent.bytes),
        // they may be submitted
        Err(StationFault::Store) => Err(station_trouble(rt, words.dir, StationFault::Store)),
        Err(fault) => Ok(Ordered::Refused(station_trouble(rt, words.dir, fault))),
    }
}

/// Submits orders under the note that they may not be put, which goes once they are, or are refused.
fn submit_noted<R: Records>(
    rt: &HostRuntime,
    station: &mut Station<R>,
    files: &mut Files<'_>,
    words: &SubmitWords<'_, '_>,
    to: Party,
    at: &Moment,
) -> Result<u8, Stop> {
    let were_unsent = is_unsent(rt, words.dir)?;
    note_unsent(rt, words.dir)?;
    let ordered = submit_orders(rt, station, files, words, to, at)?;
    if let Ordered::Unsent = ordered {
        return Ok(1);
    }
    if !were_unsent {
        forget_unsent(rt, words.dir)?;
    }
    match ordered {
        Ordered::Refused(stop) => Err(stop),
        _ => Ok(0),
    }
}

/// Refuses the text of an order that names a file: it stands behind `--order` by mistake.
fn test_orders(rt: &HostRuntime, texts: &[&str]) -> Result<(), Stop> {
    for text in texts {
        if stands(rt, text)? {
            return Err(misuse(
                rt,
                &[
                    "--order: ",
                    text,
                    " is a file, and no order's number: name files without --to and --order",
                ],
            ));
        }
    }
    Ok(())
}

/// Says at which interchange of a file something was wrong.
fn at_place(rt: &HostRuntime, file: &str, place: usize, why: &str) -> Stop {
    match text_of(rt.alloc(), place) {
        Ok(place) => trouble(rt, &[file, ", interchange ", place.as_str(), ": ", why]),
        Err(_) => Stop::Memory,
    }
}

/// Submits an interchange, and puts it.
fn submit_one<R: Records>(
    rt: &HostRuntime,
    node: &mut Submitting<R>,
    files: &mut Files<'_>,
    file: &str,
    place: usize,
    bytes: &[u8],
) -> Result<(), Stop> {
    match node.take(bytes) {
        Ok(Answer::Sends(Some(sent))) => Ok(files.send(sent.bytes())?),
        Ok(Answer::Sends(None)) => Ok(()),
        Ok(Answer::Refused(reason)) => {
            let why = reason_text(rt.alloc(), reason)?;
            Err(at_place(rt, file, place, why.as_str()))
        }
        Err(fault) => Err(at_place(rt, file, place, node_text(fault))),
    }
}

/// Submits the interchanges of bytes in turn.
fn submit_bytes<R: Records>(
    rt: &HostRuntime,
    node: &mut Submitting<R>,
    files: &mut Files<'_>,
    file: &str,
    bytes: &[u8],
) -> Result<(), Stop> {
    let interchanges = split_transmission(rt.alloc(), bytes)?;
    if interchanges.is_empty() {
        return Err(trouble(rt, &[file, ": it is empty"]));
    }
    let mut place = 0_usize;
    for interchange in &interchanges {
        place = place.saturating_add(1);
        submit_one(rt, node, files, file, place, interchange)?;
    }
    Ok(())
}

/// Submits the interchanges of a file.
fn submit_file<R: Records>(
    rt: &HostRuntime,
    node: &mut Submitting<R>,
    files: &mut Files<'_>,
    file: &str,
) -> Result<(), Stop> {
    match bytes_of(rt, file) {
        Ok(Ok(bytes)) => submit_bytes(rt, node, files, file, &bytes),
        Ok(Err(why)) => Err(trouble_at(rt, file, why)),
        Err(error) => Err(refusal(rt, file, "it can't be read", &error)),
    }
}

/// Submits the interchanges of these files, up to the first that is refused.
fn submit_files<R: Records>(
    rt: &HostRuntime,
    node: &mut Submitting<R>,
    files: &mut Files<'_>,
    names: &[&str],
) -> Result<u8, Stop> {
    for file in names {
        submit_file(rt, node, files, file)?;
    }
    Ok(0)
}

/// `van submit DIR --to P --order TEXT ..`
fn submit_texts<O: OpensRecords>(
    rt: &HostRuntime,
    opens: &O,
    words: &SubmitWords<'_, '_>,
    to: &str,
) -> Result<u8, Stop> {
    let to = wanted_party(rt, "--to", to)?;
    test_orders(rt, words.orders.unwrap_or(&[]))?;
    let at = moment(rt, words.now)?;
    let mut files = files_in(rt, words.dir, "submit", "out", Names::Plain)?;
    let mut station = open_a_station(rt, opens, words.dir)?;
    let done = submit_noted(rt, &mut station, &mut files, words, to, &at);
    let counted = count_station(rt, words.dir, &mut station);
    drop(station.close());
    counted?;
    done
}

/// `van submit DIR FILE ..`
fn submit_named<O: OpensRecords>(
    rt: &HostRuntime,
    opens: &O,
    words: &SubmitWords<'_, '_>,
) -> Result<u8, Stop> {
    let mut files = files_in(rt, words.dir, "submit", "out", Names::Plain)?;
    let station = open_a_station(rt, opens, words.dir)?;
    let mut node = Submitting {
        alloc: rt.alloc(),
        station,
    };
    let done = submit_files(rt, &mut node, &mut files, words.files.unwrap_or(&[]));
    let counted = count_station(rt, words.dir, &mut node.station);
    let Submitting { alloc: _, station } = node;
    drop(station.close());
    counted?;
    done
}

/// Submits what the command line names.
pub(crate) fn submit<O: OpensRecords>(
    rt: &HostRuntime,
    opens: &O,
    words: &SubmitWords<'_, '_>,
) -> Result<u8, Stop> {
    match (words.to, words.orders, words.files) {
        (Some(to), Some(_), None) => submit_texts(rt, opens, words, to),
        (None, None, Some(_)) => submit_named(rt, opens, words),
        _ => Err(misuse(rt, &["submit wants FILE .., or --to QQID --order TEXT .."])),
    }
}
