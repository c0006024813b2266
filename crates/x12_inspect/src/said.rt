//! What a remark says, part by part, in words, JSON and CSV.

use crate::coded::{Coded, numbered};
use crate::excerpt::part;
use crate::piece::{Ink, cells, members, say};
use crate::report_words::say_within;
use crate::text::Text;
use x12_envelopes::{Delims, Segment};
use x12_lint::{Flaw, Remark, Rule};

/// The most bytes of an element that are shown, and of a list of codes.
const MOST: usize = 99;

/// What a remark says, part by part.
#[derive(Clone, Copy)]
pub(crate) struct Said<'r> {
    /// The number of its code.
    code: u32,
    /// The position of its segment in its set: ST is 1.
    position: usize,
    /// The segment; none of it, where it is missing.
    segment: &'r [u8],
    /// The segment's identifier.
    identifier: &'r [u8],
    /// The element's place, where it is of one.
    element: Option<usize>,
    /// The element's rule, where it has one.
    rule: Option<&'r Rule>,
    /// The segments that are counted, and how many there are.
    counted: &'r [u8],
    number: usize,
}

/// The number of a flaw's code.
fn number_of_flaw(flaw: Flaw) -> u32 {
    match flaw {
        Flaw::Missing => 4,
        Flaw::OfAnotherKind => 5,
        Flaw::TooShort => 6,
        Flaw::TooLong => 7,
        Flaw::OfAnotherCode => 8,
    }
}

/// The identifier of a segment: up to three bytes.
fn identifier_of<'a>(delims: &Delims, bytes: &'a [u8]) -> &'a [u8] {
    let delims = *delims;
    part(Segment { bytes, delims }.identifier(), 0, 3)
}

/// What is said of a whole segment.
fn of_segment<'r>(code: u32, position: usize, segment: &'r [u8], identifier: &'r [u8]) -> Said<'r> {
    Said {
        code,
        position,
        segment,
        identifier,
        element: None,
        rule: None,
        counted: &[],
        number: 0,
    }
}

/// What is said of an element.
fn of_element<'r>(
    delims: &Delims,
    position: usize,
    segment: &'r [u8],
    rule: &'r Rule,
    flaw: Flaw,
) -> Said<'r> {
    Said {
        element: Some(rule.place),
        rule: Some(rule),
        ..of_segment(
            number_of_flaw(flaw),
            position,
            segment,
            identifier_of(delims, segment),
        )
    }
}

/// What a remark says.
pub(crate) fn said_of<'r>(delims: &Delims, remark: Remark<'r>) -> Said<'r> {
    match remark {
        Remark::UnknownSet => of_segment(1, 1, &[], b"ST"),
        Remark::UnknownSegment { position, segment } => {
            of_segment(2, position, segment, identifier_of(delims, segment))
        }
        Remark::MissingSegment {
            position,
            identifier,
        } => of_segment(3, position, &[], identifier),
        Remark::Element {
            position,
            segment,
            rule,
            flaw,
        } => of_element(delims, position, segment, rule, flaw),
        Remark::Count {
            position,
            segment,
            counted,
            number,
        } => Said {
            element: Some(1),
            counted,
            number,
            ..of_segment(9, position, segment, identifier_of(delims, segment))
        },
    }
}

impl<'r> Said<'r> {
    /// Its code, with what it says.
    fn coded(&self) -> Coded<'static> {
        numbered("LINT", self.code)
    }

    /// Whether another remark says the same of another segment.
    pub(crate) fn is_like(&self, other: &Said<'_>) -> bool {
        self.code == other.code
            && self.element == other.element
            && self.identifier == other.identifier
    }

    /// The element as it stands in the segment, up to so many bytes.
    fn value(&self, delims: &Delims) -> &'r [u8] {
        let delims = *delims;
        let bytes = self.segment;
        match self.element {
            Some(place) => part(Segment { bytes, delims }.element(place), 0, MOST),
            None => &[],
        }
    }

    /// Adds what is wanted, or was counted, if there is more to say than the code.
    fn say_wanted(&self, out: &mut Text) {
        if self.code == 9 {
            return say!(out; self.number, " ", self.counted);
        }
        if let Some(rule) = self.rule {
            match self.code {
                5 => say!(out; rule.kind.words()),
                8 if rule.codes.len() <= MOST => say!(out; rule.codes.as_slice()),
                _ => {}
            }
        }
    }

    /// Adds which length is wanted, where the code is about that.
    fn say_length(&self, out: &mut Text) {
        if let Some(rule) = self.rule {
            match self.code {
                4 if rule.least < rule.most => say!(out; ", ", rule.least, " to ", rule.most),
                4 => say!(out; ", ", rule.least),
                6 => say!(out; ", ", rule.least, " at least"),
                7 => say!(out; ", ", rule.most, " at most"),
                _ => {}
            }
        }
    }

    /// Adds the element, and what stands there.
    fn say_element(&self, out: &mut Text, delims: &Delims) {
        if let Some(place) = self.element {
            say!(out; ", element ", place);
            if let Some(rule) = self.rule {
                say!(out; " (", rule.reference, " ", rule.name.as_slice(), ")");
            }
            out.say_copy(self.value(delims));
        }
    }

    /// Adds a line with the remark, and on a terminal the segment with carets below the element.
    pub(crate) fn say_line(&self, out: &mut Text, delims: &Delims) {
        say!(out; "    segment ", self.position, " ", self.identifier);
        self.say_element(out, delims);
        say!(out; ": ", Ink::Remark, "LINT/", self.code, " ", self.coded().words, Ink::Plain);
        self.say_length(out);
        let mut wanted = out.beside();
        self.say_wanted(&mut wanted);
        say_within(out, &wanted);
        out.say("\n");
        out.excerpt_of(delims, self.segment, self.element.unwrap_or(0));
    }

    /// Adds the members of the element.
    fn put_element(&self, out: &mut Text, delims: &Delims) {
        if let Some(place) = self.element {
            members!(out; "element": place);
            if let Some(rule) = self.rule {
                out.member("reference", rule.reference);
            }
            out.member("value", self.value(delims));
            if let Some(rule) = self.rule {
                members!(out; "least": rule.least, "most": rule.most);
            }
        }
    }

    /// Adds the remark as an object, behind the members of its set.
    pub(crate) fn put_members(&self, out: &mut Text, delims: &Delims) {
        members!(out; "segment": self.position, "identifier": self.identifier);
        self.put_element(out, delims);
        out.coded_members(self.coded());
        let mut wanted = out.beside();
        self.say_wanted(&mut wanted);
        if !wanted.is_empty() {
            out.member("wanted", wanted.bytes());
        }
    }

    /// Adds the cells of the remark, behind those of its set.
    pub(crate) fn put_cells(&self, out: &mut Text, delims: &Delims) {
        cells!(out; self.position, self.identifier);
        match self.element {
            Some(place) => out.cell(place),
            None => out.say(","),
        };
        match self.rule {
            Some(rule) => out.cell(rule.reference),
            None => out.say(","),
        };
        let coded = self.coded();
        cells!(out; self.value(delims), coded.family, coded.code, coded.words);
        let mut wanted = out.beside();
        self.say_wanted(&mut wanted);
        out.cell(wanted.bytes());
        out.say("\r\n");
    }
}
