//! What is wrong with a line of a script.

use std::fmt;

/// What is wrong with a line of a script.
#[derive(Clone, Copy)]
pub(crate) enum LineFault<'a> {
    /// A byte from 0x80 on.
    NotAscii,
    /// CR LF in the place of LF.
    CarriageReturn,
    /// Nothing stands in the line.
    Empty,
    /// No line begins with this word.
    NoSuchWord(&'a str),
    /// A word is missing in a line of this form.
    TooFewWords(&'static str),
    /// A word is too much in a line of this form.
    TooManyWords(&'static str),
    /// A word that isn't a name.
    Name(&'a str),
    /// A word that isn't a number up to the greatest that is wanted.
    Number {
        /// The word.
        word: &'a str,
        /// The greatest number.
        most: u64,
    },
    /// A word that doesn't name a packet.
    Packet(&'a str),
    /// Two words that are no moment.
    Moment {
        /// The word in the place of the date.
        date: &'a str,
        /// The word in the place of the time.
        time: &'a str,
    },
    /// A word that isn't a pair.
    Pair(&'a str),
    /// A text without a byte: two spaces stand together, or one at the end.
    NoText,
    /// An event or a question, with no station in front of it.
    NoStation,
    /// A station behind an event or a question.
    LateStation,
    /// A second hub behind a station.
    LateHub,
    /// A station at the second hub, where there is none.
    NoSecondHub,
    /// A node with the name of another one.
    UsedName,
    /// A 17th station.
    TooManyStations,
    /// A question about what is no station.
    NoSuchStation,
}

impl<'a> LineFault<'a> {
    /// The sentence on the fault, up to the words of the line that it names.
    fn sentence(&self) -> &'static str {
        match *self {
            LineFault::NotAscii => "a byte isn't ASCII",
            LineFault::CarriageReturn => "the line ends with CR LF: LF alone is wanted",
            LineFault::Empty => "the line is empty",
            LineFault::NoSuchWord(_) => "no such word: ",
            LineFault::TooFewWords(_) => "a word is missing: ",
            LineFault::TooManyWords(_) => "there are too many words: ",
            LineFault::Name(_) => "a name has 2 to 15 capital letters and digits: ",
            LineFault::Number { .. } => "a number from 0 to ",
            LineFault::Packet(_) => "a packet is named by its event, a dot and its place, as 4.1: ",
            LineFault::Moment { .. } => "a date and a time of day are wanted, as 20250102 0930: ",
            LineFault::Pair(_) => "a pair has five capital letters and digits, as PO850: ",
            LineFault::NoText => "an order has no text: words are parted by one space",
            LineFault::NoStation => "there is no station yet",
            LineFault::LateStation => "stations stand in front of all other lines but clock",
            LineFault::LateHub => "hub2 stands in front of all stations",
            LineFault::NoSecondHub => {
                "there is no second hub: hub2 in front of all stations makes it"
            }
            LineFault::UsedName => "a node has this name already",
            LineFault::TooManyStations => "a network has at most 16 stations",
            LineFault::NoSuchStation => "no station has this name",
        }
    }

    /// The word or the form that the sentence ends with, where it is one; else nothing.
    fn last_word(&self) -> &'a str {
        match *self {
            LineFault::NoSuchWord(word) => word,
            LineFault::TooFewWords(form) => form,
            LineFault::TooManyWords(form) => form,
            LineFault::Name(word) => word,
            LineFault::Packet(word) => word,
            LineFault::Pair(word) => word,
            _ => "",
        }
    }
}

impl fmt::Display for LineFault<'_> {
    fn fmt<W: fmt::Write>(&self, f: &mut fmt::Formatter<W>) -> fmt::Result {
        f.write_str(self.sentence())?;
        match *self {
            LineFault::Number { word, most } => write!(f, "{most} is wanted, in digits: {word}"),
            LineFault::Moment { date, time } => write!(f, "{date} {time}"),
            _ => f.write_str(self.last_word()),
        }
    }
}
