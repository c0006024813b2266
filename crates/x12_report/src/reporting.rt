//! The operator's report: a line for each submitted transaction set, from the audit of it.

ghost use Rattle.std.specs.Prelude.{◌≡◌, ◌++◌, ◌∷◌, ◌-◌, OnOk, IfOk, flat_map};
ghost use Rattle.std.specs.Prelude.{replicate, length, decimal};
ghost use Rattle.x12_envelopes.specs.Byte.{zero_padded_number};
ghost use Rattle.x12_report.specs.Audit.{count_suits};
ghost use Rattle.x12_report.specs.Reporting.{party_field, fate_field, postings_field};
ghost use Rattle.x12_report.specs.Reporting.{audit_is_bad, mark_of, report_line};

use crate::audit::Audit;
use itoa::Buffer;
use std::alloc::{AllocError, Global};
use x12_acks::SetKey;
use x12_envelopes::Party;
use x12_outbound::Fate;

/// Appends one byte so many times.
fn push_fill(out: &mut Vec<u8>, fill: u8, count: usize) -> Result<(), AllocError>
    ensures { OnOk result (out.new.items ≡ out.old.items ++ replicate count fill) }
{
    for n in 0..count {
        out.push(fill)?;
    }
    Ok(())
}

/// Appends a space, and a number behind what fills so many places in front of it.
fn push_number(out: &mut Vec<u8>, fill: u8, places: usize, n: u64) -> Result<(), AllocError>
    ensures { OnOk result (out.new.items ≡ out.old.items
        ++ 32 ∷ (replicate (places - length (decimal n)) fill ++ decimal n)) }
{
    let mut buffer = Buffer::new();
    let digits = buffer.format(n).as_bytes();
    out.push(b' ')?;
    push_fill(out, fill, places.saturating_sub(digits.len()))?;
    out.extend_from_slice(digits)
}

/// Appends a party.
fn push_party(out: &mut Vec<u8>, party: &Party) -> Result<(), AllocError>
    ensures { OnOk result (out.new.items ≡ out.old.items ++ party_field party.now) }
{
    out.extend_from_slice(&party.qualifier)?;
    out.push(b'/')?;
    out.extend_from_slice(&party.id)
}

/// Appends a space and a word.
fn push_word(out: &mut Vec<u8>, word: &str) -> Result<(), AllocError>
    ensures { OnOk result (out.new.items ≡ out.old.items ++ 32 ∷ word.now) }
{
    out.push(b' ')?;
    out.extend_from_slice(word.as_bytes())
}

/// Appends the key of a set: sender, interchange, group and set.
#[tactic(auto, unfolding(x12_envelopes::specs::Byte::zero_padded_number))]
fn push_key(out: &mut Vec<u8>, key: &SetKey) -> Result<(), AllocError>
    ensures { OnOk result (out.new.items ≡ out.old.items ++ (party_field key.now.sender
        ++ 32 ∷ zero_padded_number 9 key.now.icn
        ++ 32 ∷ zero_padded_number 2 key.now.group
        ++ 32 ∷ zero_padded_number 3 key.now.set)) }
{
    push_party(out, &key.sender)?;
    push_number(out, b'0', 9, u64::from(key.icn))?;
    push_number(out, b'0', 2, u64::from(key.group))?;
    push_number(out, b'0', 3, u64::from(key.set))
}

/// Appends a space, and how many postings there are or that their holder is no station.
fn push_postings(out: &mut Vec<u8>, posted: Option<u64>) -> Result<(), AllocError>
    ensures { OnOk result (out.new.items ≡ out.old.items ++ 32 ∷ postings_field posted) }
{
    match posted {
        Some(count) => push_number(out, b' ', 4, count),
        None => push_word(out, "   -"),
    }
}

/// The word of a fate, in eight places.
fn fate_word(fate: Fate) -> &'static str
    ensures { result.now ≡ fate_field fate }
{
    match fate {
        Fate::Pending => "pending ",
        Fate::Accepted => "accepted",
        Fate::Noted => "noted   ",
        Fate::Rejected => "rejected",
    }
}

/// Whether a set with this fate may stand in so many postings.
fn suits(fate: Fate, count: u64) -> bool
    ensures { result ≡ count_suits fate count }
{
    match fate {
        Fate::Pending => count <= 1,
        Fate::Accepted | Fate::Noted => count == 1,
        Fate::Rejected => count == 0,
    }
}

/// Whether the receiver's postings contradict the fate or aren't what was submitted. Of a receiver
/// that is no station nothing is known.
pub fn is_bad(audit: &Audit) -> bool
    ensures bad { result ≡ audit_is_bad audit.now }
{
    match audit.posted {
        Some(count) => !(suits(audit.fate, count) && audit.intact),
        None => false,
    }
}

/// The mark at the end of the line.
fn mark(audit: &Audit) -> &'static str
    ensures { result.now ≡ mark_of audit.now }
{
    if audit.posted.is_none() {
        return "ext";
    }
    if is_bad(audit) {
        return "BAD";
    }
    "ok"
}

/// Appends what stands behind the key: receiver, fate, postings and mark.
fn push_found(out: &mut Vec<u8>, audit: &Audit) -> Result<(), AllocError>
    ensures { OnOk result (out.new.items ≡ out.old.items ++ (32 ∷ party_field audit.now.receiver
        ++ 32 ∷ fate_field audit.now.fate
        ++ 32 ∷ postings_field audit.now.posted
        ++ 32 ∷ mark_of audit.now)) }
{
    out.push(b' ')?;
    push_party(out, &audit.receiver)?;
    push_word(out, fate_word(audit.fate))?;
    push_postings(out, audit.posted)?;
    push_word(out, mark(audit))
}

/// Appends the line of an audit.
#[tactic(auto, unfolding(crate::specs::Reporting::report_line))]
fn push_line(out: &mut Vec<u8>, audit: &Audit) -> Result<(), AllocError>
    ensures { OnOk result (out.new.items ≡ out.old.items ++ report_line audit.now) }
{
    push_key(out, &audit.key)?;
    push_found(out, audit)?;
    out.push(b'\n')?;
    Ok(())
}

/// The operator's report: the line of each audit, in the order given. A line has, parted by one
/// space, and ended by a line feed:
///
/// - the sender: its qualifier, a slash, and its identifier in fifteen places
/// - the interchange control number in nine digits, the group's place in two, the set's in three
///   (an outline has at most 32 groups and 400 sets; a greater number takes more room)
/// - the receiver, like the sender
/// - how the set fares at its sender, in eight places: `pending`, `accepted`, `noted` or `rejected`
/// - how many of the receiver's postings have its key, in four places (more from 10,000 on), or `-`
///   where the receiver is no station
/// - `ok` where it is accepted or noted and posted once, rejected and not posted, or pending and
///   posted at most once, each time byte for byte as submitted; `ext` where the receiver is no station;
///   `BAD` otherwise
pub fn report(alloc: Global, audits: &[Audit]) -> Result<Vec<u8>, AllocError>
    ensures lines { IfOk result (λ bytes. bytes.items ≡ flat_map report_line audits.now) }
{
    let mut bytes = Vec::new(alloc);
    for audit in audits {
        push_line(&mut bytes, audit)?;
    }
    Ok(bytes)
}
