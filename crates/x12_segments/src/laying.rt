//! Writing the segments of a transmission alone: each on a line, or all in one.

ghost use Rattle.std.specs.Prelude.{◌≡◌, ◌++◌, OnOk, IfOk, flat_map};
ghost use Rattle.std.specs.Io.KnownBytes.{Appends};
ghost use Rattle.std.specs.List.{list_all};
ghost use Rattle.x12_envelopes.specs.Writing.{texts};
ghost use Rattle.x12_segments.specs.Laying.{terminator_of, laid, header_can_be_read, IsLaid};

use crate::plain::{push_joined, push_plain};
use std::alloc::{AllocError, Global};
use std::io::Write;
use x12_answering::{RunFault, write_last, write_piece};
use x12_envelopes::{read_header, split_transmission};

/// In which layout segments are written alone.
#[derive(Clone, Copy)]
pub enum Layout {
    /// Each alone on a line.
    Plain,
    /// All in one line.
    Joined,
}

/// The segment terminator of an interchange that begins with ISA and 103 bytes more; none of other
/// bytes.
fn terminator(bytes: &[u8]) -> Option<u8>
    ensures { result ≡ terminator_of bytes.now }
{
    if bytes.len() < 106 || !bytes.starts_with(b"ISA") {
        return None;
    }
    Some(bytes[105])
}

/// Adds the segments of an interchange in this layout. Bytes that aren't an interchange are added as
/// they are.
#[tactic(auto, unfolding(crate::specs::Laying::laid))]
fn push_laid(layout: Layout, text: &mut Vec<u8>, bytes: &[u8]) -> Result<(), AllocError>
    ensures { OnOk result (text.new.items ≡ text.old.items ++ laid layout bytes.now) }
{
    let Some(terminator) = terminator(bytes) else {
        return text.extend_from_slice(bytes);
    };
    match layout {
        Layout::Plain => push_plain(text, terminator, bytes),
        Layout::Joined => push_joined(text, terminator, bytes),
    }
}

/// Whether the header of an interchange can be read.
fn can_be_read(bytes: &[u8]) -> bool
    ensures { result ≡ header_can_be_read bytes.now }
{
    read_header(bytes).is_ok()
}

/// Writes the segments of interchanges in turn, and answers whether each header can be read.
fn lay_all<W: Write>(
    alloc: Global,
    layout: Layout,
    interchanges: &[&[u8]],
    out: &mut W,
) -> Result<bool, RunFault>
    ensures written { OnOk result (Appends (W.contents out.old) (W.contents out.new)
        (flat_map (laid layout) (texts interchanges.now))) }
    ensures right { IfOk result (λ right.
        right ≡ list_all header_can_be_read (texts interchanges.now)) }
{
    let mut text = Vec::new(alloc);
    let mut all_right = true;
    for bytes in interchanges {
        push_laid(layout, &mut text, bytes)?;
        all_right &= can_be_read(bytes);
        write_piece(&mut text, out)?;
    }
    write_last(&mut text, out)?;
    Ok(all_right)
}

/// Writes the segments of a transmission alone: each on a line, or all in one. Bytes that aren't an
/// interchange are written as they are. The answer is whether each header can be read.
///
/// On an error, `RunFault::Write` or `RunFault::Memory`, the first interchanges may have been
/// written.
pub fn run_layout<W: Write>(
    alloc: Global,
    layout: Layout,
    input: &[u8],
    out: &mut W,
) -> Result<bool, RunFault>
    ensures { IfOk result (λ right.
        IsLaid layout input.now (W.contents out.old) (W.contents out.new) right) }
{
    let interchanges = split_transmission(alloc, input)?;
    lay_all(alloc, layout, interchanges.as_slice(), out)
}
