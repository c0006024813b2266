//! Text that is gathered, piece by piece, to be written. No piece can fail by itself: that memory ran
//! out is remembered, and asked for once.

use crate::style::{Form, Look};
use std::alloc::{AllocError, Global};
use std::str;

/// What was gathered so far.
#[derive(Drop)]
pub(crate) struct Text {
    alloc: Global,
    bytes: Vec<u8>,
    failed: bool,
    look: Look,
}

/// A hexadecimal digit, whose letters stand this far behind the numbers 10 to 15.
fn digit(n: u8, letters: u8) -> u8 {
    if n < 10 {
        return b'0'.saturating_add(n);
    }
    letters.saturating_add(n)
}

/// Whether bytes are printable characters of ASCII alone, and none of these.
fn are_plain(bytes: &[u8], but: &[u8]) -> bool {
    for b in bytes {
        if *b < 0x20 || *b > 0x7E || but.contains(b) {
            return false;
        }
    }
    true
}

/// The printable characters of ASCII that can't stand in this form as they are.
fn unquotable(form: Form) -> &'static [u8] {
    match form {
        Form::Text => b"",
        Form::Json => b"\"\\",
        Form::Csv => b"\"",
    }
}

/// The letter that stands for another behind a backslash in a text of JSON, if one does.
fn escape_of(c: char) -> Option<u8> {
    match c {
        '"' => Some(b'"'),
        '\\' => Some(b'\\'),
        '\u{8}' => Some(b'b'),
        '\u{C}' => Some(b'f'),
        '\n' => Some(b'n'),
        '\r' => Some(b'r'),
        '\t' => Some(b't'),
        _ => None,
    }
}

/// Whether a letter does something to a terminal in place of showing there: a control, a mark of
/// direction (Unicode, UAX 9), a line separator or a byte order mark.
pub(crate) fn is_hidden(number: u32) -> bool {
    matches!(
        number,
        0..=0x1F
            | 0x7F..=0x9F
            | 0x61C
            | 0x200E..=0x200F
            | 0x2028..=0x202E
            | 0x2066..=0x2069
            | 0xFEFF
    )
}

/// A name as a terminal may have it: without controls and marks of direction.
pub fn shown(alloc: Global, name: &str) -> Result<String, AllocError> {
    let mut text = Text::new(alloc, Look::Plain);
    text.within(Form::Text, name.as_bytes());
    let mut shown = String::new(alloc);
    shown.push_str(str::from_utf8(text.whole()?).unwrap_or(""))?;
    Ok(shown)
}

impl Text {
    /// Nothing yet, to be set out so.
    pub(crate) fn new(alloc: Global, look: Look) -> Text {
        Text {
            alloc,
            bytes: Vec::new(alloc),
            failed: false,
            look,
        }
    }

    /// How it is set out.
    pub(crate) fn look(&self) -> Look {
        self.look
    }

    /// Nothing yet, for words that are added to this one later.
    pub(crate) fn beside(&self) -> Text {
        Text::new(self.alloc, Look::Plain)
    }

    /// Adds bytes as they are.
    pub(crate) fn put(&mut self, bytes: &[u8]) {
        if self.bytes.extend_from_slice(bytes).is_err() {
            self.failed = true;
        }
    }

    /// Adds a number below 65,536 in four hexadecimal digits, or in the last two of them.
    fn hexadecimal(&mut self, number: u32, is_short: bool, letters: u8) {
        if !is_short {
            self.put(&[
                digit(((number >> 12) & 15) as u8, letters),
                digit(((number >> 8) & 15) as u8, letters),
            ]);
        }
        self.put(&[
            digit(((number >> 4) & 15) as u8, letters),
            digit((number & 15) as u8, letters),
        ]);
    }

    /// Adds a letter as it is.
    fn plain_letter(&mut self, c: char) {
        let mut room = [0; 4];
        self.put(c.encode_utf8(&mut room).as_bytes());
    }

    /// Adds a letter as a person reads it: a control as `<0D>`, a mark of direction as `<U+202E>`.
    fn shown_letter(&mut self, c: char) {
        let number = u32::from(c);
        if !is_hidden(number) {
            return self.plain_letter(c);
        }
        let is_short = number < 0x100;
        self.put(if is_short { b"<" } else { b"<U+" });
        self.hexadecimal(number, is_short, b'7');
        self.put(b">");
    }

    /// Adds a letter of a text of JSON, behind a backslash where it has to be.
    fn escaped(&mut self, c: char) {
        if let Some(letter) = escape_of(c) {
            self.put(&[b'\\', letter]);
        } else if is_hidden(u32::from(c)) {
            self.put(b"\\u");
            self.hexadecimal(u32::from(c), false, b'W');
        } else {
            self.plain_letter(c);
        }
    }

    /// Adds a letter as this form has it.
    fn formed(&mut self, form: Form, c: char) {
        if form == Form::Json {
            self.escaped(c);
        } else if form == Form::Csv && c == '"' {
            self.put(b"\"\"");
        } else {
            self.shown_letter(c);
        }
    }

    /// Adds bytes as a person reads them: a control as its two hexadecimal digits, as `<0D>`, a mark of
    /// direction as `<U+202E>`. In JSON it is what stands between the quotes of a text; in CSV what a
    /// person reads, with each quote twice. Bytes that aren't UTF-8 are told as Latin-1.
    pub(crate) fn within(&mut self, form: Form, bytes: &[u8]) {
        if are_plain(bytes, unquotable(form)) {
            return self.put(bytes);
        }
        match str::from_utf8(bytes) {
            Ok(text) => {
                for c in text.chars() {
                    self.formed(form, c);
                }
            }
            Err(_) => {
                for b in bytes {
                    self.formed(form, char::from(*b));
                }
            }
        }
    }

    /// Adds bytes in this form between quotes.
    pub(crate) fn quoted(&mut self, form: Form, bytes: &[u8]) {
        self.put(b"\"");
        self.within(form, bytes);
        self.put(b"\"");
    }

    /// Adds bytes as a cell of CSV, in quotes where a quote, a comma or another byte than a printable
    /// one of ASCII stands in them.
    pub(crate) fn cell_text(&mut self, bytes: &[u8]) {
        if are_plain(bytes, b"\",") {
            self.put(bytes);
        } else {
            self.quoted(Form::Csv, bytes);
        }
    }

    /// The last byte, if there is one.
    pub(crate) fn last(&self) -> Option<u8> {
        self.bytes.last().copied()
    }

    /// How many bytes were gathered.
    pub(crate) fn len(&self) -> usize {
        self.bytes.len()
    }

    /// Whether nothing was gathered.
    pub(crate) fn is_empty(&self) -> bool {
        self.bytes.is_empty()
    }

    /// The bytes so far, without those for which memory ran out.
    pub(crate) fn bytes(&self) -> &[u8] {
        &self.bytes
    }

    /// Adds another text; where memory ran out for that one, it did for this one.
    pub(crate) fn put_text(&mut self, other: &Text) {
        self.put(&other.bytes);
        self.failed |= other.failed;
    }

    /// All that was gathered. An error, where memory ran out for a piece of it.
    pub(crate) fn whole(&mut self) -> Result<&mut Vec<u8>, AllocError> {
        if self.failed {
            return Err(AllocError);
        }
        Ok(&mut self.bytes)
    }
}
