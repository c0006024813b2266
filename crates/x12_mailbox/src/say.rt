//! What is said: lines on standard output, sentences on standard error.

use crate::form::Form;
use crate::stop::Stop;
use std::alloc::{AllocError, Global};
use std::fmt::Display;
use std::io;
use x12_spool::SpoolFault;

/// Adds text, with `?` for each control character.
fn push_shown(text: &mut String, part: &str) -> Result<(), AllocError> {
    for c in part.chars() {
        text.push(if c.is_control() { '?' } else { c })?;
    }
    Ok(())
}

/// Text out of parts, with `?` for each control character.
pub(crate) fn joined(alloc: Global, parts: &[&str]) -> Result<String, AllocError> {
    let mut text = String::new(alloc);
    for part in parts {
        push_shown(&mut text, part)?;
    }
    Ok(text)
}

/// The text of a value.
pub(crate) fn text_of<T: Display + Drop>(alloc: Global, value: T) -> Result<String, AllocError> {
    format!(in alloc; "{value}")
}

/// Prints a line.
pub(crate) fn say(rt: &HostRuntime, parts: &[&str]) -> Result<(), Stop> {
    let line = joined(rt.alloc(), parts)?;
    println!(rt; "{line}")?;
    Ok(())
}

/// Prints the names of the columns, where lines are those of a table.
pub(crate) fn say_columns(rt: &HostRuntime, form: Form, names: &str) -> Result<(), Stop> {
    if form == Form::Csv {
        say(rt, &[names])?;
    }
    Ok(())
}

/// Says a sentence on standard error.
pub(crate) fn tell(rt: &HostRuntime, parts: &[&str]) -> Result<(), Stop> {
    let line = joined(rt.alloc(), parts)?;
    eprintln!(rt; "van: {line}")?;
    Ok(())
}

/// Says on standard error what went wrong, and is the reason to stop.
pub(crate) fn trouble(rt: &HostRuntime, parts: &[&str]) -> Stop {
    match tell(rt, parts) {
        Ok(()) => Stop::Told,
        Err(stop) => stop,
    }
}

/// Says on standard error where something went wrong, and why, and is the reason to stop.
pub(crate) fn trouble_at<'x>(rt: &HostRuntime, place: &'x str, why: &'x str) -> Stop {
    trouble(rt, &[place, ": ", why])
}

/// Says on standard error what is wrong with the command line, and is the reason to stop.
pub fn misuse(rt: &HostRuntime, parts: &[&str]) -> Stop {
    match tell(rt, parts) {
        Ok(()) => Stop::Line,
        Err(stop) => stop,
    }
}

/// Says on standard error what a file or a folder refused, and is the reason to stop.
pub(crate) fn refusal(rt: &HostRuntime, path: &str, what: &str, error: &io::Error) -> Stop {
    match text_of(rt.alloc(), error) {
        Ok(why) => trouble(rt, &[path, ": ", what, ": ", why.as_str()]),
        Err(AllocError) => Stop::Memory,
    }
}

/// The same for a spool.
pub(crate) fn fault(rt: &HostRuntime, path: &str, what: &str, error: &io::Error) -> SpoolFault {
    match refusal(rt, path, what, error) {
        Stop::Memory => SpoolFault::Memory,
        _ => SpoolFault::Files,
    }
}
