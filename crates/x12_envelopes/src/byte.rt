//! Bytes, texts and numbers of an element (X12.6, data element types N0, ID and AN).

ghost use Rattle.std.specs.Prelude.{◌≡◌, ◌<◌, ◌≤◌, ◌+◌, ◌^◌, length, true, slice_range};
ghost use Rattle.x12_envelopes.specs.Byte.{bytes_are_digits, text_has_length, value_of_digits};
ghost use Rattle.x12_envelopes.specs.Byte.{number_of_digits};

/// Whether a text is digits alone.
pub(crate) fn are_digits(text: &[u8]) -> bool
    ensures { result ≡ bytes_are_digits text.now }
{
    text.iter().all(|b| b.is_ascii_digit())
}

/// Whether a text's length lies between the two, both included.
pub(crate) fn has_length(least: usize, most: usize, text: &[u8]) -> bool
    ensures { result ≡ text_has_length least most text.now }
{
    least <= text.len() && text.len() <= most
}

/// The bytes of a field, from an offset on.
pub(crate) fn field<const N: usize>(bytes: &[u8], from: usize) -> [u8; N]
    requires { from + N ≤ length bytes.now }
    ensures { result ≡ slice_range bytes.now from (from + N) }
{
    let mut field = [0; N];
    field.copy_from_slice(&bytes[from..from + N]);
    field
}

/// The number that at most nine digits spell.
pub(crate) fn value_of(text: &[u8]) -> u32
    requires digits { bytes_are_digits text.now ≡ true }
    requires short { length text.now ≤ 9 }
    ensures value { result ≡ value_of_digits text.now }
    ensures below { result < 10 ^ length text.now }
{
    let mut value = 0;
    for digit in text {
        value = value * 10 + u32::from(*digit - b'0');
    }
    value
}

/// The number that a numeric element (X12.6, type N0) spells: one to nine digits, leading zeros
/// allowed; `None` for any other text.
#[tactic(auto, unfolding(crate::specs::Byte::number_of_digits))]
pub fn number_of(text: &[u8]) -> Option<u32>
    ensures { result ≡ number_of_digits text.now }
{
    if !text.is_empty() && text.len() <= 9 && are_digits(text) {
        Some(value_of(text))
    } else {
        None
    }
}
