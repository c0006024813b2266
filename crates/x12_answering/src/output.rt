//! Gathering what is to be written, and writing it in large pieces.

ghost use Rattle.std.specs.Prelude.{◌≡◌, [], OnOk, OnErr, IfErr, false};
ghost use Rattle.std.specs.Io.KnownBytes.{Appends};
ghost use Rattle.x12_answering.specs.Fault.{is_reading_fault};
ghost use Rattle.x12_answering.specs.Output.{MovesBytes, AppendsFront};

use crate::fault::RunFault;
use std::io::{ErrorKind, Write};

/// Writes all of these bytes: short and interrupted writes are gone on with. It stands in the place
/// of `Write::write_all`, which doesn't say what was written before it failed.
fn write_whole<W: Write>(bytes: &[u8], writer: &mut W) -> Result<(), RunFault>
    ensures whole { OnOk result
        (Appends (W.contents writer.old) (W.contents writer.new) bytes.now) }
    ensures front { OnErr result
        (AppendsFront (W.contents writer.old) (W.contents writer.new) bytes.now) }
    ensures fault { IfErr result (λ fault. is_reading_fault fault ≡ false) }
{
    let mut rest = bytes;
    for _ in 0..u64::MAX {
        if rest.is_empty() {
            return Ok(());
        }
        match writer.write(rest) {
            Ok(0) => return Err(RunFault::Write),
            Ok(count) => (_, rest) = rest.split_at(count),
            Err(error) if error.kind() == ErrorKind::Interrupted => {}
            Err(_) => return Err(RunFault::Write),
        }
    }
    Err(RunFault::Write)
}

/// Writes all that was gathered.
fn write_gathered<W: Write>(gathered: &mut Vec<u8>, writer: &mut W) -> Result<(), RunFault>
    ensures moves { OnOk result (MovesBytes (W.contents writer.old) (W.contents writer.new)
        gathered.old.items gathered.new.items) }
    ensures empty { OnOk result (gathered.new.items ≡ []) }
    ensures front { OnErr result
        (AppendsFront (W.contents writer.old) (W.contents writer.new) gathered.old.items) }
    ensures fault { IfErr result (λ fault. is_reading_fault fault ≡ false) }
{
    write_whole(gathered.as_slice(), writer)?;
    gathered.clear();
    Ok(())
}

/// The least number of bytes that are written before the last ones.
const PIECE: usize = 65_536;

/// Writes what was gathered, once it is enough for a large piece.
pub fn write_piece<W: Write>(gathered: &mut Vec<u8>, writer: &mut W) -> Result<(), RunFault>
    ensures moves { OnOk result (MovesBytes (W.contents writer.old) (W.contents writer.new)
        gathered.old.items gathered.new.items) }
    ensures front { OnErr result
        (AppendsFront (W.contents writer.old) (W.contents writer.new) gathered.old.items) }
    ensures fault { IfErr result (λ fault. is_reading_fault fault ≡ false) }
{
    if gathered.len() < PIECE {
        return Ok(());
    }
    write_gathered(gathered, writer)
}

/// Writes the last that was gathered, and sees it through.
pub fn write_last<W: Write>(gathered: &mut Vec<u8>, writer: &mut W) -> Result<(), RunFault>
    ensures moves { OnOk result (MovesBytes (W.contents writer.old) (W.contents writer.new)
        gathered.old.items gathered.new.items) }
    ensures empty { OnOk result (gathered.new.items ≡ []) }
    ensures front { OnErr result
        (AppendsFront (W.contents writer.old) (W.contents writer.new) gathered.old.items) }
    ensures fault { IfErr result (λ fault. is_reading_fault fault ≡ false) }
{
    write_gathered(gathered, writer)?;
    if writer.flush().is_err() {
        return Err(RunFault::Write);
    }
    Ok(())
}
