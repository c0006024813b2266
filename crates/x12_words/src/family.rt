//! The families of codes, each with its table.

ghost use Rattle.std.specs.Prelude.{◌≡◌, IfSome};

use crate::wording::Wording;
use crate::{faults, groups, interchanges, notes, remarks, sets};

/// The families of codes: of faults their letter (`H`), of codes of a reply the element that they
/// stand in (`AK403`); of the notes of an interchange, which stand in TA105, `TA1`; of remarks, `LINT`.
pub const FAMILIES: [&str; 16] = [
    "H", "N", "O", "S", "B", "V", "L", "TA1", "TA104", "AK304", "AK403", "AK501", "AK502", "AK901",
    "AK905", "LINT",
];

/// Each code of a family in words, in the order of the family; none of what isn't a family.
pub fn wordings(family: &str) -> &'static [Wording] {
    match family {
        "LINT" => &remarks::LINT,
        "H" => &faults::HEADER,
        "N" => &faults::NUMBER,
        "O" => &faults::OUTLINE,
        "S" => &faults::STATION,
        "B" => &faults::HUB,
        "V" => &faults::NETWORK,
        "L" => &faults::NODE,
        "TA1" => &interchanges::NOTES,
        "TA104" => &interchanges::FARES,
        "AK304" => &notes::SEGMENT,
        "AK403" => &notes::ELEMENT,
        "AK501" => &sets::FARES,
        "AK502" => &sets::REASONS,
        "AK901" => &groups::FARES,
        "AK905" => &groups::REASONS,
        _ => &[],
    }
}

/// A code of a family in words; `None` where the family hasn't it.
pub fn find_wording(family: &str, code: &str) -> Option<&'static Wording>
    ensures found { IfSome result (λ w. w.now.0.now ≡ code.now) }
{
    for wording in wordings(family) {
        if wording.code() == code {
            return Some(wording);
        }
    }
    None
}

/// What a code of a family says; a code that the family hasn't is said to be another one.
pub fn words_of(family: &str, code: &str) -> &'static str {
    match find_wording(family, code) {
        Some(w) => w.words(),
        None => "another code",
    }
}

/// The family and the code in it that a text names: `AK403/5` is `5` of `AK403`; a fault, as `H2`, is
/// of the family of its letter.
pub fn split_code(text: &str) -> (&str, &str) {
    match text.split_once('/') {
        Some(parts) => parts,
        None => (text.get(..1).unwrap_or(text), text),
    }
}
