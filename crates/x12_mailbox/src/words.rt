//! The words of a command line that stand for parties, pairs and numbers, and how these are shown.

ghost use Rattle.std.specs.Prelude.{IsTrue, IfSome, IfOk};
ghost use Rattle.x12_envelopes.specs.Party.{is_plain_party};

use crate::say::misuse;
use crate::stop::Stop;
use std::alloc::{AllocError, Global};
use x12_envelopes::Party;

/// The plain party of a qualifier and an identifier.
fn plain(qualifier: [u8; 2], identifier: &[u8]) -> Option<Party>
    ensures { IfSome result (λ party. IsTrue (is_plain_party party)) }
{
    let party = Party::new(qualifier, identifier)?;
    if party.is_plain() { Some(party) } else { None }
}

/// The plain party of a word: the qualifier, then the identifier, as `ZZALPHA` or `ZZ/ALPHA`.
pub(crate) fn party_of(word: &str) -> Option<Party>
    ensures { IfSome result (λ party. IsTrue (is_plain_party party)) }
{
    match word.as_bytes() {
        [first, second, b'/', identifier @ ..] => plain([*first, *second], identifier),
        [first, second, identifier @ ..] => plain([*first, *second], identifier),
        _ => None,
    }
}

/// The party that an option or an argument names; status 2 where the word is no party's.
pub(crate) fn wanted_party(rt: &HostRuntime, what: &str, word: &str) -> Result<Party, Stop>
    ensures { IfOk result (λ party. IsTrue (is_plain_party party)) }
{
    match party_of(word) {
        Some(party) => Ok(party),
        None => Err(misuse(
            rt,
            &[
                what,
                " wants a qualifier of 2 and an identifier of 2 to 15 capital letters or digits, as ZZALPHA, and not ",
                word,
            ],
        )),
    }
}

/// Whether a byte may stand in GS01 and ST01.
fn is_code(byte: u8) -> bool {
    byte.is_ascii_uppercase() || byte.is_ascii_digit()
}

/// GS01 and ST01 of a word, as `PO850`.
pub(crate) fn pair_of(word: &str) -> Option<([u8; 2], [u8; 3])> {
    let [a, b, c, d, e] = word.as_bytes() else {
        return None;
    };
    if word.bytes().all(is_code) {
        Some(([*a, *b], [*c, *d, *e]))
    } else {
        None
    }
}

/// Whether a byte is shown as it is: it is printable ASCII, and needs no care in a text of JSON.
fn is_shown(byte: u8) -> bool {
    (byte.is_ascii_graphic() || byte == b' ') && byte != b'"' && byte != b'\\'
}

/// Text of bytes, with `?` for those that aren't shown as they are.
pub(crate) fn shown(alloc: Global, bytes: &[u8]) -> Result<String, AllocError> {
    let mut text = String::new(alloc);
    for byte in bytes {
        text.push(if is_shown(*byte) {
            char::from(*byte)
        } else {
            '?'
        })?;
    }
    Ok(text)
}

/// What stands behind the last space of a line.
pub(crate) fn last_word(line: &str) -> &str {
    match line.rsplit_once(' ') {
        Some((_, word)) => word,
        None => line,
    }
}

/// A party as a person reads it, as `ZZ/ALPHA`.
pub(crate) fn party_text(alloc: Global, party: &Party) -> Result<String, AllocError> {
    let mut text = shown(alloc, &party.qualifier)?;
    text.push('/')?;
    text.push_str(shown(alloc, party.identifier())?.as_str())?;
    Ok(text)
}

/// A party as it stands in a path, as `ZZALPHA`.
pub(crate) fn party_name(alloc: Global, party: &Party) -> Result<String, AllocError> {
    let mut text = shown(alloc, &party.qualifier)?;
    text.push_str(shown(alloc, party.identifier())?.as_str())?;
    Ok(text)
}

/// A control number, or the number of an item, in nine digits.
pub(crate) fn nine(alloc: Global, number: u32) -> Result<String, AllocError> {
    format!(in alloc; "{number:09}")
}

/// A path below a folder.
pub(crate) fn below(alloc: Global, folder: &str, name: &str) -> Result<String, AllocError> {
    let mut path = String::from_str(alloc, folder)?;
    if !folder.ends_with('/') {
        path.push('/')?;
    }
    path.push_str(name)?;
    Ok(path)
}
