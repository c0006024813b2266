//! The forms of a script's lines, behind the first word.

use crate::script_fault::LineFault;
use crate::script_line::{EventLine, Line, SetPlace};
use crate::script_name::Member;
use crate::script_word::Words;

/// `clock DATE TIME`
pub(crate) fn clock<'a>(rest: Option<&'a [u8]>) -> Result<Line<'a>, LineFault<'a>> {
    let mut words = Words::new(rest, "clock DATE TIME");
    let at = words.moment();
    words.end_with(Line::Clock(at))
}

/// `hub2`
pub(crate) fn second_hub<'a>(rest: Option<&'a [u8]>) -> Result<Line<'a>, LineFault<'a>> {
    Words::new(rest, "hub2").end_with(Line::SecondHub)
}

/// `station NAME [HUB2]`
pub(crate) fn station<'a>(rest: Option<&'a [u8]>) -> Result<Line<'a>, LineFault<'a>> {
    let mut words = Words::new(rest, "station NAME");
    let name = words.name();
    let at_second = words.takes_second_hub();
    words.end_with(Line::Station(Member { name, at_second }))
}

/// `outside NODE BYTES`
pub(crate) fn outside<'a>(rest: Option<&'a [u8]>) -> Result<Line<'a>, LineFault<'a>> {
    let mut words = Words::new(rest, "outside NODE BYTES");
    let node = words.name();
    let bytes = words.bytes();
    words.end_with(Line::Event(EventLine::Outside { node, bytes }))
}

/// `deliver EVENT.PLACE`
pub(crate) fn deliver<'a>(rest: Option<&'a [u8]>) -> Result<Line<'a>, LineFault<'a>> {
    let mut words = Words::new(rest, "deliver EVENT.PLACE");
    let packet = words.packet();
    words.end_with(Line::Event(EventLine::Deliver(packet)))
}

/// `show EVENT.PLACE`
pub(crate) fn show<'a>(rest: Option<&'a [u8]>) -> Result<Line<'a>, LineFault<'a>> {
    let mut words = Words::new(rest, "show EVENT.PLACE");
    let packet = words.packet();
    words.end_with(Line::Show(packet))
}

/// `fate NODE ICN GROUP SET`
pub(crate) fn fate<'a>(rest: Option<&'a [u8]>) -> Result<Line<'a>, LineFault<'a>> {
    let mut words = Words::new(rest, "fate NODE ICN GROUP SET");
    let node = words.name();
    let icn = words.number(u64::from(u32::MAX)) as u32;
    let group = words.number(u64::from(u16::MAX)) as u16;
    let set = words.number(u64::from(u16::MAX)) as u16;
    words.end_with(Line::Fate(SetPlace {
        node,
        icn,
        group,
        set,
    }))
}

/// `counts NODE`
pub(crate) fn counts<'a>(rest: Option<&'a [u8]>) -> Result<Line<'a>, LineFault<'a>> {
    let mut words = Words::new(rest, "counts NODE");
    let node = words.name();
    words.end_with(Line::Counts(node))
}

/// `postings NODE`
pub(crate) fn postings<'a>(rest: Option<&'a [u8]>) -> Result<Line<'a>, LineFault<'a>> {
    let mut words = Words::new(rest, "postings NODE");
    let node = words.name();
    words.end_with(Line::Postings(node))
}

/// `report`
pub(crate) fn report<'a>(rest: Option<&'a [u8]>) -> Result<Line<'a>, LineFault<'a>> {
    Words::new(rest, "report").end_with(Line::Report)
}
