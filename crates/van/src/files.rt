//! The inputs that a command line names: files, and `-` for standard input.

ghost use Rattle.std.specs.Prelude.{◌≡◌, ◌≤◌, IfOk, IfSome, vec_len};

use crate::folders;
use anyhow::Result;
use clap::ArgMatches;
use command_table::{Kind, Word};
use std::alloc::Global;
use std::fmt::Display;
use std::fs::File;
use std::io;
use std::io::Read;
use std::process::ExitCode;
use x12_answering::{RunFault, read_input};
use x12_inspect::{Form, Outcome, Style, run_unread, shown};

/// The most bytes that an input may have.
const MOST_BYTES: u64 = 16_777_216;

/// The first bytes of a file that gzip wrote (RFC 1952).
const GZIP: [u8; 2] = [0x1F, 0x8B];

/// The words that name the files.
pub(crate) const FILES: Word = Word {
    kind: Kind::Many,
    name: "files",
    value: "FILE",
    help: "A file to read, or - for standard input, which is read where none is named",
};

/// The option that asks for JSON.
pub(crate) const JSON: Word = Word {
    kind: Kind::Flag,
    name: "json",
    value: "",
    help: "Writes one JSON object a line for each interchange",
};

/// The files that words name, and what was found on the way to them.
#[derive(Drop)]
pub struct Named {
    /// The files.
    pub files: Vec<String>,
    /// Whether a folder couldn't be listed.
    pub outcome: Outcome,
}

/// The files named, or standard input where none is; and where it is asked for, those below each folder.
pub fn find_files(rt: &HostRuntime, words: &[&str], goes_below: bool) -> Result<Named> {
    let mut files = Vec::new(rt.alloc());
    let mut all = true;
    for word in words {
        if goes_below && folders::is_folder(rt, word) {
            all &= folders::add_below(rt, word, &mut files)?;
        } else {
            files.push(String::from_str(rt.alloc(), word)?)?;
        }
    }
    if words.is_empty() {
        files.push(String::from_str(rt.alloc(), "-")?)?;
    }
    let outcome = Outcome::of(all);
    Ok(Named { files, outcome })
}

/// Writes the name of a file, where several are named and the result is in words.
pub fn head(rt: &HostRuntime, form: Form, files: &[String], file: &str) -> Result<()> {
    if form == Form::Text && files.len() > 1 {
        let name = shown(rt.alloc(), file)?;
        println!(rt; "{name}:")?;
    }
    Ok(())
}

/// The form that is asked for.
pub fn form(found: &ArgMatches<'_>) -> Form {
    if found.get_flag("json") {
        Form::Json
    } else {
        Form::Text
    }
}

/// Reads a whole input: every byte that the reader has left.
fn read_whole<R: Read>(alloc: Global, reader: &mut R) -> Result<Vec<u8>, RunFault>
    ensures all { IfOk result (λ v.
        IfSome (R.remaining reader.old) (λ input. v.items ≡ input)) }
    ensures fits { IfOk result (λ v. vec_len v ≤ 16777216) }
{
    read_input(alloc, reader, MOST_BYTES)
}

/// Says on standard error why an input can't be read, and in JSON or CSV on standard output too: there
/// is none.
fn unread<E: Display>(rt: &HostRuntime, style: &Style<'_>, why: &E) -> Result<Option<Vec<u8>>> {
    let name = shown(rt.alloc(), style.file)?;
    let why = format!(in rt.alloc(); "{why}")?;
    eprintln!(rt; "van: {name}: {why}")?;
    run_unread(rt.alloc(), style, why.as_str(), &mut rt.stdout())?;
    Ok(None)
}

/// Why a compressed input isn't read.
const COMPRESSED: &str = "it is compressed by gzip, which isn't read: unpack it, as by gunzip -c";

/// An input that was read under this name, unless it couldn't be, or is compressed.
fn taken(
    rt: &HostRuntime,
    style: &Style<'_>,
    read: Result<Vec<u8>, RunFault>,
) -> Result<Option<Vec<u8>>> {
    match read {
        Ok(input) if input.starts_with(&GZIP) => unread(rt, style, &COMPRESSED),
        Ok(input) => Ok(Some(input)),
        Err(fault) => unread(rt, style, &fault),
    }
}

/// Whether what was opened is a folder, which has no bytes.
fn is_folder(file: &File) -> bool {
    match file.metadata() {
        Ok(found) => found.is_dir(),
        Err(_) => false,
    }
}

/// Says on standard error that a file can't be opened, and what the word may have meant.
fn unopened(rt: &HostRuntime, style: &Style<'_>, error: &io::Error) -> Result<Option<Vec<u8>>> {
    let name = style.file;
    let may_be = if is_near_pair(name) {
        "; a pair is five capital letters or digits, as PO850"
    } else if name.contains('\u{FFFD}') {
        "; its name isn't UTF-8, so rename it"
    } else {
        ""
    };
    let why = format!(in rt.alloc(); "it can't be opened: {error}{may_be}")?;
    unread(rt, style, &why)
}

/// Whether a word that names no file may have been meant as a pair, as `po850`, `PO-850` and `850`.
fn is_near_pair(word: &str) -> bool {
    let bytes = word.as_bytes();
    let mut digits = 0usize;
    for b in bytes {
        if !b.is_ascii_alphanumeric() && !matches!(b, b'-' | b'/' | b'_' | b':') {
            return false;
        }
        digits = digits.saturating_add(usize::from(b.is_ascii_digit()));
    }
    digits == 3 && bytes.len() <= 6
}

/// Reads one input. Where it can't be read, is compressed or a folder, a sentence on standard error
/// says why, and there is none.
pub fn read(rt: &HostRuntime, style: &Style<'_>) -> Result<Option<Vec<u8>>> {
    if style.file == "-" {
        return taken(rt, style, read_whole(rt.alloc(), &mut rt.stdin()));
    }
    match File::open(rt, style.file) {
        Ok(file) if is_folder(&file) => unread(rt, style, &"it is a folder"),
        Ok(mut file) => taken(rt, style, read_whole(rt.alloc(), &mut file)),
        Err(error) => unopened(rt, style, &error),
    }
}

/// What a run over an input found. A sentence on standard error says why it stopped, or that no
/// interchange stands in the input.
pub fn told(
    rt: &HostRuntime,
    style: &Style<'_>,
    told: Result<Outcome, RunFault>,
) -> Result<Outcome> {
    match told {
        Ok(Outcome::Nothing) => {
            unread(rt, style, &"no interchange stands in it")?;
            Ok(Outcome::Nothing)
        }
        Ok(outcome) => Ok(outcome),
        Err(fault) => {
            let name = shown(rt.alloc(), style.file)?;
            eprintln!(rt; "van: {name}: {fault}")?;
            Ok(Outcome::SomethingWrong)
        }
    }
}

/// What two runs found.
pub fn both(one: Outcome, other: Outcome) -> Outcome {
    if one == Outcome::AllRight { other } else { one }
}

/// The exit status of a run.
pub fn status(outcome: Outcome) -> ExitCode {
    match outcome {
        Outcome::AllRight => ExitCode::SUCCESS,
        Outcome::SomethingWrong | Outcome::Nothing => ExitCode::from(1),
    }
}
