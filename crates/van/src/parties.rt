//! The words of a command line that name parties and what they take (X12.5, ISA05 to ISA08; X12.6,
//! GS01 and ST01).

use anyhow::Result;
use std::process::ExitCode;
use x12_envelopes::Party;

/// Whether an identifier may stand in ISA: 2 to 15 printable letters of ASCII, a space at no end.
fn may_stand(identifier: &[u8]) -> bool {
    for b in identifier {
        if *b < b' ' || *b > b'~' {
            return false;
        }
    }
    identifier.len() >= 2 && identifier.first() != Some(&b' ') && identifier.last() != Some(&b' ')
}

/// The party that a word names: the qualifier, then the identifier, with a slash between them or
/// without, as `ZZ/BETA` and `ZZBETA`.
pub fn read_party(word: &str) -> Option<Party> {
    let (qualifier, behind) = word.as_bytes().split_first_chunk::<2>()?;
    let identifier = behind.strip_prefix(b"/").unwrap_or(behind);
    if may_stand(qualifier) && may_stand(identifier) {
        Party::new(*qualifier, identifier)
    } else {
        None
    }
}

/// Says on standard error that the word of an option names no party, and gives the exit status.
pub fn refuse(rt: &HostRuntime, option: &str, as_is: &str) -> Result<ExitCode> {
    eprintln!(rt;
        "error: {option} wants a qualifier of 2 and an identifier of 2 to 15 letters that ISA may hold, as ZZ/{as_is} or ZZ{as_is}"
    )?;
    Ok(ExitCode::from(2))
}
