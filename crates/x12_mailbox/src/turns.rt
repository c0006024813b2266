//! `van run`: one turn, or turn after turn.

use crate::clock::{moment, seconds};
use crate::folder::put;
use crate::reason::node_text;
use crate::running::RunWords;
use crate::say::{misuse, trouble_at};
use crate::stop::Stop;
use std::alloc::{AllocError, Global};
use std::io::IsTerminal;
use std::thread::sleep;
use std::time::Duration;
use x12_envelopes::{Moment, number_of};
use x12_spool::{NodeFault, SpoolFault, TurnFault};

/// What takes turns: a station or a hub, and its folders.
pub(crate) trait Turns {
    /// A turn at a moment. What isn't answered is sent again where a tick is given: so many minutes
    /// have passed since the first turn. It says whether all was done; where it wasn't, a file or a
    /// folder refused, which was told, and the rest waits for the next turn.
    fn turn(self, rt: &HostRuntime, at: &Moment, tick: Option<u64>) -> (Self, Result<bool, Stop>);

    /// What is open and what waits, in words of JSON.
    fn standing(&self, alloc: Global) -> Result<String, AllocError>;
}

/// How long turn after turn is taken.
#[derive(Clone, Copy)]
pub(crate) struct Pace {
    /// How many seconds lie between two turns.
    seconds: u32,
    /// How many turns there are.
    turns: u64,
}

/// The number of an option.
fn number(rt: &HostRuntime, what: &str, word: &str) -> Result<u32, Stop> {
    match number_of(word.as_bytes()) {
        Some(number) if number > 0 => Ok(number),
        _ => Err(misuse(
            rt,
            &[what, " wants a number from 1 to 999999999, and not ", word],
        )),
    }
}

/// The turns that `--turns` asks for, or else no end.
fn turns_of(rt: &HostRuntime, words: &RunWords<'_>) -> Result<u64, Stop> {
    match words.turns {
        Some(word) => Ok(u64::from(number(rt, "--turns", word)?)),
        None => Ok(u64::MAX),
    }
}

/// The pace that the command line asks for; `None` where it asks for one turn.
pub(crate) fn pace_of(rt: &HostRuntime, words: &RunWords<'_>) -> Result<Option<Pace>, Stop> {
    let Some(word) = words.watch else {
        if words.turns.is_some() {
            return Err(misuse(rt, &["--turns goes with --watch"]));
        }
        return Ok(None);
    };
    let seconds = number(rt, "--watch", word)?;
    let turns = turns_of(rt, words)?;
    Ok(Some(Pace { seconds, turns }))
}

/// Whether a part of a turn was done; a trouble of the node ends the turns.
pub(crate) fn is_done(
    rt: &HostRuntime,
    dir: &str,
    done: Result<(), TurnFault>,
) -> Result<bool, Stop> {
    match done {
        Ok(()) => Ok(true),
        Err(TurnFault::Spool(SpoolFault::Files)) => Ok(false),
        Err(TurnFault::Spool(SpoolFault::Memory)) => Err(Stop::Memory),
        Err(TurnFault::Node(NodeFault::Memory)) => Err(Stop::Memory),
        Err(TurnFault::Node(fault)) => {
            let why = node_text(fault);
            Err(trouble_at(rt, dir, why))
        }
    }
}

/// The status where all was done, or not.
fn status(done: bool) -> u8 {
    if done { 0 } else { 1 }
}

/// Members of JSON, as a person reads them.
fn plain(alloc: Global, members: &str) -> Result<String, AllocError> {
    let mut text = String::new(alloc);
    for c in members.chars() {
        match c {
            '"' => {}
            ':' => text.push(' ')?,
            ',' => text.push_str(", ")?,
            c => text.push(c)?,
        }
    }
    Ok(text)
}

/// Says how it stands after a turn on a terminal, on one line that the next turn rewrites; where lines
/// come there too, these say it.
fn show_standing(rt: &HostRuntime, turn: u64, standing: &str) -> Result<(), Stop> {
    if rt.stdout().is_terminal() || !rt.stderr().is_terminal() {
        return Ok(());
    }
    let standing = plain(rt.alloc(), standing)?;
    eprint!(rt; "\rturn {turn}: {standing} ")?;
    Ok(())
}

/// Writes how it stands after a turn into `status.json`, whole.
fn write_standing(
    rt: &HostRuntime,
    dir: &str,
    turn: u64,
    done: bool,
    standing: &str,
) -> Result<(), Stop> {
    let text = format!(in rt.alloc(); "{{\"turns\":{turn},\"done\":{done},{standing}}}\n")?;
    Ok(put(rt, dir, "status.json", text.as_bytes())?)
}

/// Tells how it stands after a turn, where one was taken.
fn told<T: Turns>(
    rt: &HostRuntime,
    node: &T,
    dir: &str,
    turn: u64,
    done: Result<bool, Stop>,
) -> Result<bool, Stop> {
    let done = done?;
    let turn = turn.saturating_add(1);
    let standing = node.standing(rt.alloc())?;
    write_standing(rt, dir, turn, done, standing.as_str())?;
    show_standing(rt, turn, standing.as_str())?;
    Ok(done)
}

/// The moment of the next of several turns, and how many minutes have passed since the first.
fn next_moment(rt: &HostRuntime, words: &RunWords<'_>, start: u64) -> Result<(Moment, u64), Stop> {
    let at = moment(rt, words.now)?;
    let tick = seconds(rt)?.saturating_sub(start) / 60;
    Ok((at, tick))
}

/// The next of several turns.
fn next_turn<T: Turns>(
    rt: &HostRuntime,
    node: T,
    words: &RunWords<'_>,
    start: u64,
) -> (T, Result<bool, Stop>) {
    match next_moment(rt, words, start) {
        Ok((at, tick)) => node.turn(rt, &at, Some(tick)),
        Err(stop) => (node, Err(stop)),
    }
}

/// Turn after turn, each told in `status.json`.
fn watch<T: Turns>(
    rt: &HostRuntime,
    node: T,
    words: &RunWords<'_>,
    pace: &Pace,
    start: u64,
) -> (T, Result<u8, Stop>) {
    let mut node = node;
    let mut last = Ok(true);
    for turn in 0..pace.turns {
        if turn > 0 {
            sleep(rt, Duration::from_secs(u64::from(pace.seconds)));
        }
        let (back, done) = next_turn(rt, node, words, start);
        last = told(rt, &back, words.dir, turn, done);
        node = back;
        if last.is_err() {
            break;
        }
    }
    (node, last.map(status))
}

/// The turns that the command line asks for.
pub(crate) fn take_turns<T: Turns>(
    rt: &HostRuntime,
    node: T,
    words: &RunWords<'_>,
    pace: Option<Pace>,
    at: &Moment,
) -> (T, Result<u8, Stop>) {
    if let Some(pace) = pace {
        return match seconds(rt) {
            Ok(start) => watch(rt, node, words, &pace, start),
            Err(stop) => (node, Err(stop)),
        };
    }
    let tick = if words.resend { Some(0) } else { None };
    let (node, done) = node.turn(rt, at, tick);
    (node, done.map(status))
}
