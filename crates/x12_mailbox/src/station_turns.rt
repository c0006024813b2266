//! The turns of a station: what lies in `submit` is submitted, what came is taken, what was accepted is
//! handed over, and what isn't answered is sent again.

use crate::counts::count_station;
use crate::files::{Files, files_in};
use crate::folder::make;
use crate::handing::{Posted, hand_over_all, posted_over};
use crate::naming::Names;
use crate::opening::OpensRecords;
use crate::running::RunWords;
use crate::say::{say, tell, text_of};
use crate::stop::Stop;
use crate::turns::{Pace, Turns, is_done, take_turns};
use crate::unsent::{forget_unsent, is_unsent};
use std::alloc::{AllocError, Global};
use x12_envelopes::Moment;
use x12_outbound::Counts;
use x12_spool::{StationAt, put_offers, run_turn, submit_turn};
use x12_station::{Records, Station};

/// The folders of a station.
#[derive(Drop)]
struct Folders<'a> {
    /// What is to be submitted.
    submit: Files<'a>,
    /// What came, and what goes on.
    files: Files<'a>,
    /// What was accepted.
    posted: Posted<'a>,
    /// The station's folder.
    dir: &'a str,
}

/// A station that takes turns over its folders.
struct StationTurns<'a, R: Records> {
    node: StationAt<R>,
    folders: Folders<'a>,
}

/// Says how many sets were settled.
fn say_settled(rt: &HostRuntime, dir: &str, before: u64, after: u64) -> Result<(), Stop> {
    let settled = after.saturating_sub(before);
    if settled == 0 {
        return Ok(());
    }
    let settled = text_of(rt.alloc(), settled)?;
    say(rt, &[dir, ": settled ", settled.as_str()])
}

/// How many answers are to nothing that a station submitted, or contradict earlier ones.
fn unexpected(counts: &Counts) -> u64 {
    counts.unmatched.saturating_add(counts.conflicting)
}

/// Says how many answers were unexpected.
fn say_unexpected(rt: &HostRuntime, dir: &str, before: u64, after: u64) -> Result<(), Stop> {
    let unexpected = after.saturating_sub(before);
    if unexpected == 0 {
        return Ok(());
    }
    let unexpected = text_of(rt.alloc(), unexpected)?;
    tell(
        rt,
        &[
            dir,
            ": unexpected answers: ",
            unexpected.as_str(),
            ", to no set that it submitted or against an earlier answer: another station may run under its name",
        ],
    )
}

/// Takes what came, and says what it settled.
fn take_waiting<R: Records>(
    rt: &HostRuntime,
    node: &mut StationAt<R>,
    folders: &mut Folders<'_>,
) -> Result<bool, Stop> {
    let before = node.station.counts();
    let took = run_turn(rt.alloc(), node, &mut folders.files);
    let done = is_done(rt, folders.dir, took)? & !folders.files.is_troubled;
    let after = node.station.counts();
    say_settled(rt, folders.dir, before.settled, after.settled)?;
    say_unexpected(rt, folders.dir, unexpected(&before), unexpected(&after))?;
    Ok(done)
}

/// Takes what came, hands over what was accepted, and sends again what isn't answered, where a tick is
/// given.
fn take_and_put<R: Records>(
    rt: &HostRuntime,
    node: &mut StationAt<R>,
    folders: &mut Folders<'_>,
    tick: Option<u64>,
) -> Result<bool, Stop> {
    let took = take_waiting(rt, node, folders)?;
    let handed = hand_over_all(&mut folders.posted, &mut node.station)?;
    let Some(tick) = tick else {
        return Ok(took & handed);
    };
    let put = put_offers(node, &mut folders.files, tick);
    Ok(is_done(rt, folders.dir, put)? & took & handed)
}

/// The rest of a turn, behind what was submitted; in the end it is counted what the records have.
fn go_on<R: Records>(
    rt: &HostRuntime,
    node: &mut StationAt<R>,
    folders: &mut Folders<'_>,
    submitted: Result<bool, Stop>,
    tick: Option<u64>,
) -> Result<bool, Stop> {
    let submitted = submitted? & !folders.submit.is_troubled;
    let done = take_and_put(rt, node, folders, tick)?;
    count_station(rt, folders.dir, &mut node.station)?;
    Ok(done & submitted)
}

impl<'a, R: Records> Turns for StationTurns<'a, R> {
    fn turn(self, rt: &HostRuntime, at: &Moment, tick: Option<u64>) -> (Self, Result<bool, Stop>) {
        let StationTurns { node, mut folders } = self;
        let (mut node, submitted) = submit_turn(node, &mut folders.submit);
        node.at = *at;
        let submitted = is_done(rt, folders.dir, submitted);
        let done = go_on(rt, &mut node, &mut folders, submitted, tick);
        (StationTurns { node, folders }, done)
    }

    fn standing(&self, alloc: Global) -> Result<String, AllocError> {
        let open = self.node.station.open_count();
        let settled = self.node.station.counts().settled;
        format!(in alloc; "\"open\":{open},\"settled\":{settled}")
    }
}

/// The folders of a station. Records that are an older copy are refused.
fn folders_of<'a, R: Records>(
    rt: &'a HostRuntime,
    dir: &'a str,
    station: &mut Station<R>,
    handed: Option<&str>,
) -> Result<Folders<'a>, Stop> {
    let submit = files_in(rt, dir, "submit", "out", Names::Plain)?;
    make(rt, submit.from.as_str())?;
    Ok(Folders {
        submit,
        files: files_in(rt, dir, "in", "out", Names::Items)?,
        posted: posted_over(rt, dir, station, handed)?,
        dir,
    })
}

/// The words, which ask to send again also where orders may not have been put.
fn with_unsent<'a>(rt: &HostRuntime, words: &RunWords<'a>) -> Result<RunWords<'a>, Stop> {
    let mut words = *words;
    words.resend |= is_unsent(rt, words.dir)?;
    Ok(words)
}

/// The words and the folders with which turns begin.
fn begun<'a, R: Records>(
    rt: &'a HostRuntime,
    words: &RunWords<'a>,
    station: &mut Station<R>,
) -> Result<(RunWords<'a>, Folders<'a>), Stop> {
    let words = with_unsent(rt, words)?;
    let folders = folders_of(rt, words.dir, station, words.handed)?;
    Ok((words, folders))
}

/// Forgets that orders may not have been put, once turns have ended well.
fn ended(rt: &HostRuntime, dir: &str, done: Result<u8, Stop>) -> Result<u8, Stop> {
    let status = done?;
    if status == 0 {
        forget_unsent(rt, dir)?;
    }
    Ok(status)
}

/// The turns of a station.
pub(crate) fn run_station<O: OpensRecords>(
    rt: &HostRuntime,
    opens: &O,
    words: &RunWords<'_>,
    pace: Option<Pace>,
    at: &Moment,
    station: Station<O::Station>,
) -> Result<u8, Stop> {
    let mut station = station;
    let (words, folders) = match begun(rt, words, &mut station) {
        Ok(begun) => begun,
        Err(stop) => {
            drop(station.close());
            return Err(stop);
        }
    };
    let alloc = rt.alloc();
    let at = *at;
    let node = StationAt { alloc, station, at };
    let (turns, done) = take_turns(rt, StationTurns { node, folders }, &words, pace, &at);
    let StationTurns { node, folders: _ } = turns;
    let StationAt {
        alloc: _,
        station,
        at: _,
    } = node;
    let done = ended(rt, words.dir, done);
    drop(station.close());
    done
}
