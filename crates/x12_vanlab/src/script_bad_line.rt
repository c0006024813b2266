//! Telling which line of a script is bad, and what is wrong with it.

ghost use Rattle.std.specs.Prelude.{◌≡◌, ◌++◌, OnOk, IfOk, IfErr, false};
ghost use Rattle.std.specs.Io.KnownBytes.{Appends};
ghost use Rattle.x12_answering.specs.Fault.{is_reading_fault};
ghost use Rattle.x12_vanlab.specs.Script.{Grows, Explains, AreWords, bad_line, line_front};

use crate::script_fault::LineFault;
use itoa::Buffer;
use std::alloc::{AllocError, Global};
use std::io::Write;
use x12_answering::{RunFault, write_last};

/// Appends the front of what is said of a line, as `line 3: `.
fn push_front(text: &mut Vec<u8>, number: u64) -> Result<(), AllocError>
    ensures { OnOk result (text.new.items ≡ text.old.items ++ line_front number) }
{
    let mut buffer = Buffer::new();
    text.extend_from_slice(b"line ")?;
    text.extend_from_slice(buffer.format(number).as_bytes())?;
    text.extend_from_slice(b": ")
}

/// What is wrong with a line, in words.
fn words(alloc: Global, number: u64, fault: LineFault<'_>) -> Result<Vec<u8>, AllocError>
    ensures { IfOk result (λ text. AreWords text.items number) }
{
    let words = fault.to_string(alloc)?;
    let mut text = Vec::new(alloc);
    push_front(&mut text, number)?;
    text.extend_from_slice(words.as_bytes())?;
    text.extend_from_slice(b"\n")?;
    Ok(text)
}

/// Writes behind what is gathered that a line is bad, and to another writer what is wrong with it.
pub(crate) fn tell_bad_line<W: Write, E: Write>(
    alloc: Global,
    gathered: &mut Vec<u8>,
    number: u64,
    fault: LineFault<'_>,
    out: &mut W,
    err: &mut E,
) -> Result<(), RunFault>
    ensures told { OnOk result (Appends (W.contents out.old) (W.contents out.new)
        (gathered.old.items ++ bad_line number)) }
    ensures explained { OnOk result
        (Explains (E.contents err.old) (E.contents err.new) number) }
    ensures fault { IfErr result (λ fault. is_reading_fault fault ≡ false) }
    ensures printed { Grows (W.contents out.old) (W.contents out.new) }
    ensures words { Grows (E.contents err.old) (E.contents err.new) }
{
    let mut words = words(alloc, number, fault)?;
    push_front(gathered, number)?;
    gathered.extend_from_slice(b"bad line\n")?;
    write_last(gathered, out)?;
    write_last(&mut words, err)
}
