//! Pieces of what is printed: each as a person reads it, as a value of JSON, and as a cell of CSV
//! (RFC 4180).

use crate::style::{Form, Look};
use crate::text::Text;
use itoa::Buffer;
use x12_envelopes::{Party, number_of};

/// Adds pieces one behind another, as a person reads them.
macro_rules! say {
    ($out:expr; $($piece:expr),*) => {{ $out$(.say($piece))*; }};
}

pub(crate) use say;

/// Adds members of an object of JSON, each with its name.
macro_rules! members {
    ($out:expr; $($name:literal: $piece:expr),*) => {{ $($out.member($name, $piece);)* }};
}

pub(crate) use members;

/// Adds cells of CSV, each behind another one.
macro_rules! cells {
    ($out:expr; $($piece:expr),*) => {{ $out$(.cell($piece))*; }};
}

pub(crate) use cells;

/// A piece of what is printed.
pub(crate) trait Piece: Sized {
    /// Adds it as a person reads it, as a value of JSON, or as a cell of CSV.
    fn add(self, form: Form, out: &mut Text);
}

impl Piece for &[u8] {
    fn add(self, form: Form, out: &mut Text) {
        match form {
            Form::Text => out.within(form, self),
            Form::Json => out.quoted(form, self),
            Form::Csv => out.cell_text(self),
        }
    }
}

impl<const N: usize> Piece for &[u8; N] {
    fn add(self, form: Form, out: &mut Text) {
        self.as_slice().add(form, out);
    }
}

impl Piece for &str {
    fn add(self, form: Form, out: &mut Text) {
        match form {
            Form::Text => out.put(self.as_bytes()),
            Form::Json | Form::Csv => self.as_bytes().add(form, out),
        }
    }
}

impl Piece for u64 {
    fn add(self, _form: Form, out: &mut Text) {
        let mut buffer = Buffer::new();
        out.put(buffer.format(self).as_bytes());
    }
}

impl Piece for u32 {
    fn add(self, form: Form, out: &mut Text) {
        u64::from(self).add(form, out);
    }
}

impl Piece for u16 {
    fn add(self, form: Form, out: &mut Text) {
        u64::from(self).add(form, out);
    }
}

impl Piece for u8 {
    fn add(self, form: Form, out: &mut Text) {
        u64::from(self).add(form, out);
    }
}

impl Piece for usize {
    fn add(self, form: Form, out: &mut Text) {
        (self as u64).add(form, out);
    }
}

impl Piece for bool {
    fn add(self, _form: Form, out: &mut Text) {
        out.put(if self { b"true" } else { b"false" });
    }
}

/// A value of JSON, or `null`.
impl<P: Piece> Piece for Option<P> {
    fn add(self, _form: Form, out: &mut Text) {
        match self {
            Some(piece) => piece.add(Form::Json, out),
            None => out.put(b"null"),
        }
    }
}

impl Piece for &Text {
    fn add(self, _form: Form, out: &mut Text) {
        out.put_text(self);
    }
}

/// Nothing, as a value of JSON.
pub(crate) const NULL: Option<bool> = None;

/// A number as it stands in a file: in JSON a number, or a text where it is none of one to nine digits.
#[derive(Clone, Copy)]
pub(crate) struct Number<'a>(pub &'a [u8]);

impl Piece for Number<'_> {
    fn add(self, form: Form, out: &mut Text) {
        match number_of(self.0) {
            Some(number) if form == Form::Json => number.add(form, out),
            _ => self.0.add(form, out),
        }
    }
}

/// A number in the place of the last bytes of these, as 9 in `000` is `009`; in JSON the number alone.
#[derive(Clone, Copy)]
pub(crate) struct Filled(pub &'static [u8], pub u64);

impl Piece for Filled {
    fn add(self, form: Form, out: &mut Text) {
        let mut buffer = Buffer::new();
        let digits = buffer.format(self.1).as_bytes();
        if form != Form::Json {
            let (front, _) = self.0.split_at(self.0.len().saturating_sub(digits.len()));
            out.put(front);
        }
        out.put(digits);
    }
}

/// The number of an interchange (ISA13), in nine digits.
pub(crate) fn icn(number: u32) -> Filled {
    Filled(b"000000000", u64::from(number))
}

/// An address as qualifier and identifier, as `ZZ/ALPHA`.
impl Piece for &Party {
    fn add(self, form: Form, out: &mut Text) {
        if form == Form::Csv {
            return out.party_cell(self);
        }
        let quote: &[u8] = if form == Form::Json { b"\"" } else { b"" };
        out.put(quote);
        out.within(form, &self.qualifier);
        out.put(b"/");
        out.within(form, self.identifier());
        out.put(quote);
    }
}

/// In which ink words are written, where they are coloured.
#[derive(Clone, Copy)]
pub(crate) enum Ink {
    /// As the terminal has it.
    Plain,
    /// What names an interchange.
    Name,
    /// What is right.
    Right,
    /// What is wrong.
    Wrong,
    /// What is remarked.
    Remark,
}

impl Piece for Ink {
    fn add(self, _form: Form, out: &mut Text) {
        if out.look() == Look::Colors {
            out.put(match self {
                Ink::Plain => b"\x1b[0m",
                Ink::Name => b"\x1b[1m",
                Ink::Right => b"\x1b[32m",
                Ink::Wrong => b"\x1b[1;31m",
                Ink::Remark => b"\x1b[33m",
            });
        }
    }
}

impl Text {
    /// Adds an address as a cell of CSV.
    fn party_cell(&mut self, party: &Party) {
        let mut room = [b'/'; 18];
        let (qualifier, behind) = room.split_at_mut(2);
        qualifier.copy_from_slice(&party.qualifier);
        let (_, identifier) = behind.split_at_mut(1);
        identifier.copy_from_slice(&party.id);
        self.cell_text(room.trim_ascii_end());
    }

    /// Adds a piece as a person reads it; another may follow.
    pub(crate) fn say<P: Piece>(&mut self, piece: P) -> &mut Text {
        piece.add(Form::Text, self);
        self
    }

    /// Adds a copy of an element behind a space, if it isn't empty.
    pub(crate) fn say_copy(&mut self, copy: &[u8]) {
        if !copy.is_empty() {
            say!(self; " \"", copy, "\"");
        }
    }

    /// Adds a cell behind another one; another may follow.
    pub(crate) fn cell<P: Piece>(&mut self, piece: P) -> &mut Text {
        self.put(b",");
        piece.add(Form::Csv, self);
        self
    }

    /// Adds the comma that parts a value of JSON from the one before it, if one stands there.
    fn part(&mut self) {
        match self.last() {
            None | Some(b'{' | b'[' | b':' | b'\n') => {}
            Some(_) => self.put(b","),
        }
    }

    /// Adds a member's name.
    fn name(&mut self, name: &str) {
        self.part();
        say!(self; "\"", name, "\":");
    }

    /// Adds a member.
    pub(crate) fn member<P: Piece>(&mut self, name: &str, piece: P) {
        self.name(name);
        piece.add(Form::Json, self);
    }

    /// Adds a member, where there is one.
    pub(crate) fn member_if<P: Piece>(&mut self, name: &str, piece: Option<P>) {
        if let Some(piece) = piece {
            self.member(name, piece);
        }
    }

    /// Begins a member that is an object.
    pub(crate) fn begin_object(&mut self, name: &str) {
        self.name(name);
        self.put(b"{");
    }

    /// Begins a member that is a list.
    pub(crate) fn begin_list(&mut self, name: &str) {
        self.name(name);
        self.put(b"[");
    }

    /// Adds an item of a list.
    pub(crate) fn item<P: Piece>(&mut self, piece: P) {
        self.part();
        piece.add(Form::Json, self);
    }

    /// Begins an object in a list, or on a line.
    pub(crate) fn begin_item(&mut self) {
        self.part();
        self.put(b"{");
    }
}
