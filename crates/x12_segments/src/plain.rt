//! The segments of an interchange, one a line, and taken back into one line (X12.6, data segment).

ghost use Rattle.std.specs.Prelude.{◌≡◌, ◌++◌, [], ◌==◌, OnOk, ◌≤◌, ◌<◌, length};
ghost use Rattle.std.specs.List.{prefix_len};
ghost use Rattle.x12_envelopes.specs.Byte.{byte_is_line_end};
ghost use Rattle.x12_envelopes.specs.Segment.{behind_line_ends};
ghost use Rattle.x12_segments.specs.Plain.{spelled, plain, text_without_line_ends, LinesAreJoined};

use std::alloc::AllocError;
use x12_envelopes::cut_at;

/// Whether a byte is a carriage return or a line feed.
fn is_line_end(b: u8) -> bool
    ensures { result ≡ byte_is_line_end b }
{
    b == b'\r' || b == b'\n'
}

/// Counts the line ends in front of bytes.
pub fn line_ends(bytes: &[u8]) -> usize
    ensures count { result ≡ prefix_len byte_is_line_end bytes.now }
    ensures within { result ≤ length bytes.now }
{
    bytes.iter().take_while(|b| is_line_end(**b)).count()
}

/// Bytes without the line ends in front of them.
pub fn without_line_ends<'a>(bytes: &'a [u8]) -> &'a [u8]
    ensures { result.now ≡ behind_line_ends bytes.now }
{
    let (_, text) = bytes.split_at(line_ends(bytes));
    text
}

/// Adds a piece without the line ends in front of it, and these bytes behind it.
fn push_piece(out: &mut Vec<u8>, piece: &[u8], behind: &[u8]) -> Result<(), AllocError>
    ensures { OnOk result (out.new.items
        ≡ out.old.items ++ (behind_line_ends piece.now ++ behind.now)) }
{
    out.extend_from_slice(without_line_ends(piece))?;
    out.extend_from_slice(behind)
}

/// Adds bytes that were cut at a terminator, with these bytes in its place.
fn push_spelled(
    out: &mut Vec<u8>,
    between: &[u8],
    terminator: u8,
    bytes: &[u8],
) -> Result<(), AllocError>
    ensures { OnOk result (out.new.items
        ≡ out.old.items ++ spelled between.now terminator bytes.now) }
{
    let mut rest = bytes;
    while let Some((piece, behind)) = cut_at(terminator, rest) {
        push_piece(out, piece, between)?;
        rest = behind;
    }
    push_piece(out, rest, &[])?;
    Ok(())
}

/// Adds the segments of an interchange, each on a line.
pub fn push_plain(out: &mut Vec<u8>, terminator: u8, bytes: &[u8]) -> Result<(), AllocError>
    ensures { OnOk result (out.new.items ≡ out.old.items ++ plain terminator bytes.now) }
{
    if terminator == b'\n' {
        return push_spelled(out, &[terminator], terminator, bytes);
    }
    push_spelled(out, &[terminator, b'\n'], terminator, bytes)
}

/// Adds the segments of an interchange in one line: its bytes without the line ends in front of
/// segments.
pub fn push_joined(out: &mut Vec<u8>, terminator: u8, bytes: &[u8]) -> Result<(), AllocError>
    ensures { OnOk result (out.new.items ≡ out.old.items
        ++ text_without_line_ends terminator bytes.now) }
{
    push_spelled(out, &[terminator], terminator, bytes)
}

/// Joining the lines that [`push_plain`] makes of an interchange gives what [`push_joined`] makes of
/// it: the interchange without its line ends.
pub fn lines_are_joined()
    ensures law { LinesAreJoined }
{}
