//! Writing a segment element by element (X12.6), each behind an element separator. An error is want of
//! memory: then a part of what was to be written may stand behind what stood in `out`.
#![tactic(auto, using(crate::proofs::FrontLemmas::starts_trans))]

ghost use Rattle.std.specs.Prelude.{◌≡◌, ◌<◌, ◌≤◌, ◌+◌, ◌^◌, ◌++◌, ◌∷◌, [], decimal, flat_map};
ghost use Rattle.std.specs.Prelude.{replicate, OnOk};
ghost use Rattle.std.specs.Io.{StartsWith};
ghost use Rattle.x12_envelopes.specs.Byte.{zero_padded_number};
ghost use Rattle.x12_envelopes.specs.Letter.{zero_digit};
ghost use Rattle.x12_envelopes.specs.Writing.{texts};

use crate::delimiters::Delims;
use crate::writing::{put, zero_padded};
use itoa::Buffer;
use std::alloc::AllocError;

/// Appends the identifier of a segment.
pub fn push_identifier(out: &mut Vec<u8>, identifier: &[u8]) -> Result<(), AllocError>
    ensures written { OnOk result (out.new.items ≡ out.old.items ++ identifier.now) }
    ensures front { StartsWith out.new.items out.old.items }
{
    out.extend_from_slice(identifier)
}

/// Appends the terminator of a segment.
pub fn push_terminator(out: &mut Vec<u8>, delims: &Delims) -> Result<(), AllocError>
    ensures written { OnOk result (out.new.items ≡ out.old.items ++ delims.now.terminator ∷ []) }
    ensures front { StartsWith out.new.items out.old.items }
{
    out.push(delims.terminator)?;
    Ok(())
}

/// Appends an element behind its separator.
pub fn push_element(out: &mut Vec<u8>, delims: &Delims, text: &[u8]) -> Result<(), AllocError>
    ensures written { OnOk result (out.new.items ≡
        out.old.items ++ (delims.now.element ∷ text.now)) }
    ensures front { StartsWith out.new.items out.old.items }
{
    out.push(delims.element)?;
    out.extend_from_slice(text)?;
    Ok(())
}

/// Appends elements, each behind its separator.
pub fn push_elements(
    out: &mut Vec<u8>,
    delims: &Delims,
    elements: &[&[u8]],
) -> Result<(), AllocError>
    ensures written { OnOk result (out.new.items ≡
        out.old.items ++ flat_map (λ e. delims.now.element ∷ e) (texts elements.now)) }
    ensures front { StartsWith out.new.items out.old.items }
{
    for element in elements {
        push_element(out, delims, element)?;
    }
    Ok(())
}

/// Appends a number behind its separator, without leading zeros.
#[tactic(auto, using(crate::proofs::FrontLemmas::starts_trans, std::proofs::lemmas::Fmt::decimal_digit))]
pub fn push_number(out: &mut Vec<u8>, delims: &Delims, n: u64) -> Result<(), AllocError>
    ensures written { OnOk result (out.new.items ≡
        out.old.items ++ (delims.now.element ∷ decimal n)) }
    ensures front { StartsWith out.new.items out.old.items }
{
    if n < 10 {
        return out.extend_from_slice(&[delims.element, b'0' + n as u8]);
    }
    push_long_number(out, delims, n)
}

/// Appends a number of any length behind its separator, without leading zeros.
#[inline(never)]
fn push_long_number(out: &mut Vec<u8>, delims: &Delims, n: u64) -> Result<(), AllocError>
    ensures written { OnOk result (out.new.items ≡
        out.old.items ++ (delims.now.element ∷ decimal n)) }
    ensures front { StartsWith out.new.items out.old.items }
{
    let mut buffer = Buffer::new();
    push_element(out, delims, buffer.format(n).as_bytes())
}

/// Appends zeros.
fn push_zeros(out: &mut Vec<u8>, count: usize) -> Result<(), AllocError>
    ensures written { OnOk result (out.new.items ≡ out.old.items ++ replicate count zero_digit) }
    ensures front { StartsWith out.new.items out.old.items }
{
    for n in 0..count {
        out.push(b'0')?;
    }
    Ok(())
}

/// Appends a number behind its separator in N digits, with leading zeros: M bytes, one more.
fn push_digits<const N: usize, const M: usize>(
    out: &mut Vec<u8>,
    delims: &Delims,
    n: u32,
) -> Result<(), AllocError>
    requires one_more { M ≡ N + 1 }
    requires some { 0 < N }
    requires few { N ≤ 9 }
    requires fits { n < 10 ^ N }
    ensures written { OnOk result (out.new.items ≡
        out.old.items ++ (delims.now.element ∷ zero_padded_number N n)) }
    ensures front { StartsWith out.new.items out.old.items }
{
    let mut text = [delims.element; M];
    put(&mut text, 1, &zero_padded::<N>(n));
    out.extend_from_slice(&text)
}

/// Appends a number behind its separator, with leading zeros up to a width; one of more digits is
/// written whole. The widths of control numbers and notes have ways of their own.
#[inline(always)]
pub fn push_padded(
    out: &mut Vec<u8>,
    delims: &Delims,
    width: usize,
    n: u64,
) -> Result<(), AllocError>
    ensures written { OnOk result (out.new.items ≡
        out.old.items ++ (delims.now.element ∷ zero_padded_number width n)) }
    ensures front { StartsWith out.new.items out.old.items }
{
    if width == 4 && n < 10_000 {
        return push_digits::<4, 5>(out, delims, n as u32);
    }
    if width == 9 && n < 1_000_000_000 {
        return push_digits::<9, 10>(out, delims, n as u32);
    }
    if width == 3 && n < 1_000 {
        return push_digits::<3, 4>(out, delims, n as u32);
    }
    push_padded_to_any(out, delims, width, n)
}

/// Appends a number of any length behind its separator, with leading zeros up to any width.
#[inline(never)]
#[tactic(auto, using(crate::proofs::FrontLemmas::starts_trans), unfolding(crate::specs::Byte::zero_padded_number))]
fn push_padded_to_any(
    out: &mut Vec<u8>,
    delims: &Delims,
    width: usize,
    n: u64,
) -> Result<(), AllocError>
    ensures written { OnOk result (out.new.items ≡
        out.old.items ++ (delims.now.element ∷ zero_padded_number width n)) }
    ensures front { StartsWith out.new.items out.old.items }
{
    let mut buffer = Buffer::new();
    let digits = buffer.format(n).as_bytes();
    push_element(out, delims, b"")?;
    push_zeros(out, width.saturating_sub(digits.len()))?;
    push_identifier(out, digits)
}
