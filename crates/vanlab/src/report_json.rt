//! The report of a script as JSON: one object a line for each transaction set.

use std::alloc::{AllocError, Global};

/// The fields of a line of the report whose places are fixed, each with its member, its first place and
/// its length. docs/script.md has them all.
struct Field(&'static str, usize, usize);

/// Those that are texts.
static TEXTS: [Field; 3] = [
    Field("sender", 0, 18),
    Field("receiver", 36, 18),
    Field("fate", 55, 8),
];

/// Those that are numbers.
static NUMBERS: [Field; 3] = [
    Field("number", 19, 9),
    Field("group", 29, 2),
    Field("set", 32, 3),
];

/// The bytes of a line from this place on, up to so many.
fn part(line: &[u8], from: usize, most: usize) -> &[u8] {
    let (_, behind) = line.split_at(from.min(line.len()));
    let (part, _) = behind.split_at(most.min(behind.len()));
    part
}

/// Adds bytes as a text of JSON. The bytes of a report are printable ASCII.
fn push_text(out: &mut Vec<u8>, bytes: &[u8]) -> Result<(), AllocError> {
    out.extend_from_slice(b"\"")?;
    for b in bytes {
        if *b == b'"' || *b == b'\\' {
            out.push(b'\\')?;
        }
        out.push(*b)?;
    }
    out.extend_from_slice(b"\"")
}

/// Adds a member's name.
fn push_name(out: &mut Vec<u8>, name: &str) -> Result<(), AllocError> {
    if out.last() != Some(&b'{') {
        out.push(b',')?;
    }
    push_text(out, name.as_bytes())?;
    out.push(b':')?;
    Ok(())
}

/// How many zeros stand in front of digits.
fn zeros_of(digits: &[u8]) -> usize {
    let mut zeros = 0_usize;
    for digit in digits {
        if *digit != b'0' {
            return zeros;
        }
        zeros = zeros.saturating_add(1);
    }
    zeros
}

/// Digits without the zeros in front; the last one stays.
fn bare(digits: &[u8]) -> &[u8] {
    let last = digits.len().saturating_sub(1);
    digits.get(zeros_of(digits).min(last)..).unwrap_or(digits)
}

/// Adds the postings and the mark, which stand behind the fields whose places are fixed. There is no
/// number of postings where the receiver is no station.
fn push_postings(out: &mut Vec<u8>, line: &[u8]) -> Result<(), AllocError> {
    let rest = part(line, 64, line.len()).trim_ascii();
    let (postings, mark) = rest.split_at(rest.len().saturating_sub(3));
    push_name(out, "postings")?;
    let postings = postings.trim_ascii();
    let is_known = postings != b"-".as_slice();
    out.extend_from_slice(if is_known { postings } else { b"null" })?;
    push_name(out, "mark")?;
    push_text(out, mark.trim_ascii())
}

/// Adds a line of the report as an object.
fn push_object(out: &mut Vec<u8>, line: &[u8]) -> Result<(), AllocError> {
    out.push(b'{')?;
    for field in &TEXTS {
        push_name(out, field.0)?;
        push_text(out, part(line, field.1, field.2).trim_ascii_end())?;
    }
    for field in &NUMBERS {
        push_name(out, field.0)?;
        out.extend_from_slice(bare(part(line, field.1, field.2)))?;
    }
    push_postings(out, line)?;
    out.extend_from_slice(b"}\n")
}

/// Adds that a line is bad.
fn push_error(out: &mut Vec<u8>, line: &[u8]) -> Result<(), AllocError> {
    out.push(b'{')?;
    push_name(out, "error")?;
    push_text(out, line)?;
    out.extend_from_slice(b"}\n")
}

/// A report, or the line that says that a line of the script is bad, as JSON.
pub fn objects(alloc: Global, told: &[u8]) -> Result<Vec<u8>, AllocError> {
    let mut out = Vec::new(alloc);
    for line in told.split(|b| *b == b'\n') {
        if line.starts_with(b"line ") {
            push_error(&mut out, line)?;
        } else if !line.is_empty() {
            push_object(&mut out, line)?;
        }
    }
    Ok(out)
}
