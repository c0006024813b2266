//! The words of a line of a script: names, numbers, packets and moments.

ghost use Rattle.std.specs.Prelude.{◌≤◌, ◌<◌, length, IfSome};

use crate::script_fault::LineFault;
use crate::script_name::{Name, hub_name, read_name, second_hub_name};
use crate::script_setting::first_moment;
use memchr::memchr;
use std::str;
use x12_envelopes::Moment;
use x12_world::PacketName;

/// A word as text, for what is said of it. A word of ASCII is text.
pub(crate) fn text_of(word: &[u8]) -> &str {
    str::from_utf8(word).unwrap_or("?")
}

/// Cuts bytes at the first one like this, which is left out; `None` where there is none.
pub(crate) fn cut_at(byte: u8, bytes: &[u8]) -> Option<(&[u8], &[u8])>
    ensures shorter { IfSome result (λ parts. length parts.1.now < length bytes.now) }
{
    let place = memchr(byte, bytes)?;
    let (front, behind) = bytes.split_at(place);
    let (_, rest) = behind.split_at(1);
    Some((front, rest))
}

/// The first word of what is left of a line, and what is left behind its space; `None` where no word
/// is left.
pub(crate) fn cut_word(bytes: &[u8]) -> (&[u8], Option<&[u8]>) {
    match cut_at(b' ', bytes) {
        Some((word, rest)) => (word, Some(rest)),
        None => (bytes, None),
    }
}

/// The number that digits spell, as many as one likes, where it is at most so great.
pub(crate) fn read_number(word: &[u8], most: u64) -> Option<u64>
    ensures within { IfSome result (λ number. number ≤ most) }
{
    if !word.iter().all(|b| b.is_ascii_digit()) {
        return None;
    }
    match text_of(word).parse::<u64>() {
        Ok(number) if number <= most => Some(number),
        _ => None,
    }
}

/// The packet that a word names: its event, a dot and its place.
fn read_packet(word: &[u8]) -> Option<PacketName> {
    let (event, place) = cut_at(b'.', word)?;
    let event = read_number(event, u64::MAX)?;
    let place = u32::try_from(read_number(place, u64::MAX)?).ok()?;
    Some(PacketName { event, place })
}

/// The moment that a date CCYYMMDD and a time HHMM name.
fn read_moment(date: &[u8], time: &[u8]) -> Option<Moment> {
    let date = <[u8; 8]>::try_from(date).ok()?;
    let time = <[u8; 4]>::try_from(time).ok()?;
    Moment::new(date, time)
}

/// The words of a line behind its first one, taken one by one. They are parted by one space. In the
/// place of a word that is missing or bad comes some value that nobody sees: the first such fault is
/// kept, and `end_with` tells it in place of the line.
#[derive(Clone, Copy)]
pub(crate) struct Words<'a> {
    /// What is left behind the last space; `None` where no word is left.
    rest: Option<&'a [u8]>,
    /// The form of the line.
    form: &'static str,
    /// What is wrong with the first word that is missing or bad.
    fault: Option<LineFault<'a>>,
}

impl<'a> Words<'a> {
    /// The words of a line of this form.
    pub(crate) fn new(rest: Option<&'a [u8]>, form: &'static str) -> Words<'a> {
        Words {
            rest,
            form,
            fault: None,
        }
    }

    /// Keeps a fault, if it is the first one.
    fn blame(&mut self, fault: LineFault<'a>) {
        if self.fault.is_none() {
            self.fault = Some(fault);
        }
    }

    /// All bytes that are left, which are taken.
    pub(crate) fn bytes(&mut self) -> &'a [u8] {
        match self.rest.take() {
            Some(bytes) => bytes,
            None => {
                self.blame(LineFault::TooFewWords(self.form));
                &[]
            }
        }
    }

    /// The next word.
    pub(crate) fn word(&mut self) -> &'a [u8] {
        let (word, rest) = cut_word(self.bytes());
        self.rest = rest;
        word
    }

    /// The next word, which is a name.
    pub(crate) fn name(&mut self) -> Name {
        let word = self.word();
        match read_name(word) {
            Some(name) => name,
            None => {
                self.blame(LineFault::Name(text_of(word)));
                hub_name()
            }
        }
    }

    /// The next word, which is a number of at most so much.
    pub(crate) fn number(&mut self, most: u64) -> u64
        ensures within { result ≤ most }
    {
        let word = self.word();
        match read_number(word, most) {
            Some(number) => number,
            None => {
                let word = text_of(word);
                self.blame(LineFault::Number { word, most });
                0
            }
        }
    }

    /// The next word, which names a packet.
    pub(crate) fn packet(&mut self) -> PacketName {
        let word = self.word();
        match read_packet(word) {
            Some(packet) => packet,
            None => {
                self.blame(LineFault::Packet(text_of(word)));
                PacketName { event: 0, place: 0 }
            }
        }
    }

    /// The next two words, which are a date and a time.
    pub(crate) fn moment(&mut self) -> Moment {
        let (date, time) = (self.word(), self.word());
        match read_moment(date, time) {
            Some(moment) => moment,
            None => {
                let (date, time) = (text_of(date), text_of(time));
                self.blame(LineFault::Moment { date, time });
                first_moment()
            }
        }
    }

    /// What is left, uncut, which is taken; `None` where no word is left.
    pub(crate) fn left(&mut self) -> Option<&'a [u8]> {
        self.rest.take()
    }

    /// Whether the next word is this one, which then is taken.
    pub(crate) fn takes(&mut self, wanted: &[u8]) -> bool {
        let Some(bytes) = self.rest else {
            return false;
        };
        let (word, rest) = cut_word(bytes);
        if word != wanted {
            return false;
        }
        self.rest = rest;
        true
    }

    /// Whether the last word is that of the second hub, which then is taken.
    pub(crate) fn takes_second_hub(&mut self) -> bool {
        match self.rest {
            Some(b"HUB2") => {
                self.rest = None;
                true
            }
            _ => false,
        }
    }

    /// The hub that acts: the second one where the last word is its own, and else the first one.
    pub(crate) fn hub(&mut self) -> Name {
        if self.takes_second_hub() {
            second_hub_name()
        } else {
            hub_name()
        }
    }

    /// What was read, where no word was missing or bad and none is left; else the first fault.
    pub(crate) fn end_with<T: Copy>(&self, read: T) -> Result<T, LineFault<'a>> {
        match (self.fault, self.rest) {
            (Some(fault), _) => Err(fault),
            (None, Some(_)) => Err(LineFault::TooManyWords(self.form)),
            (None, None) => Ok(read),
        }
    }
}
