//! What the lines of a script print.

use crate::script_setting::Setting;
use itoa::Buffer;
use std::alloc::AllocError;
use x12_hub::HubFault;
use x12_outbound::{Counts, Fate};
use x12_station::StationFault;
use x12_world::{Kind, Load, NodeFault, Outcome, Packet, Refused, ToldPacket};

/// Appends a number in digits.
pub(crate) fn push_number(text: &mut Vec<u8>, number: u64) -> Result<(), AllocError> {
    text.extend_from_slice(Buffer::new().format(number).as_bytes())
}

/// Appends what a packet is, and the bracket behind it.
fn push_kind(text: &mut Vec<u8>, kind: Kind) -> Result<(), AllocError> {
    match kind {
        Kind::Deposit => return text.extend_from_slice(b" deposit]"),
        Kind::Refusal => return text.extend_from_slice(b" refusal]"),
        Kind::Item(item) => {
            text.extend_from_slice(b" item ")?;
            push_number(text, u64::from(item))?;
        }
        Kind::Taken(item) => {
            text.extend_from_slice(b" taken ")?;
            push_number(text, u64::from(item))?;
        }
    }
    text.extend_from_slice(b"]")
}

/// Appends a packet that was sent, as ` [1 HUB deposit]`.
fn push_packet(
    text: &mut Vec<u8>,
    setting: &Setting,
    packet: &ToldPacket,
) -> Result<(), AllocError> {
    text.extend_from_slice(b" [")?;
    push_number(text, u64::from(packet.name.place))?;
    text.push(b' ')?;
    text.extend_from_slice(setting.word(packet.to))?;
    push_kind(text, packet.kind)
}

/// Appends the line on an event that was taken, as `3 ok [1 HUB deposit]`.
pub(crate) fn push_outcome(
    text: &mut Vec<u8>,
    setting: &Setting,
    outcome: &Outcome,
) -> Result<(), AllocError> {
    push_number(text, outcome.event)?;
    text.extend_from_slice(b" ok")?;
    for packet in &outcome.packets {
        push_packet(text, setting, packet)?;
    }
    text.push(b'\n')?;
    Ok(())
}

/// The number of what bytes lack, where a node refuses for it.
fn reason(fault: NodeFault) -> Option<&'static str> {
    match fault {
        NodeFault::OfStation(StationFault::BadHeader(fault)) => Some(fault.number()),
        NodeFault::OfStation(StationFault::Unreadable(fault)) => Some(fault.number()),
        NodeFault::OfStation(StationFault::Shape(fault)) => Some(fault.number()),
        NodeFault::OfHub(HubFault::Unreadable(fault)) => Some(fault.number()),
        _ => None,
    }
}

/// The numbers of a refusal: that of the node, where it is the node that refuses, and that of what
/// the bytes lack.
fn numbers(refused: &Refused) -> (&'static str, Option<&'static str>) {
    match *refused {
        Refused::Node(fault) => match fault {
            NodeFault::OfStation(of) => (of.number(), reason(fault)),
            NodeFault::OfHub(of) => (of.number(), reason(fault)),
        },
        _ => (refused.number(), None),
    }
}

/// Appends the line on an event that was refused, as `refused S6 O2`.
pub(crate) fn push_refusal(text: &mut Vec<u8>, refused: &Refused) -> Result<(), AllocError> {
    let (number, reason) = numbers(refused);
    text.extend_from_slice(b"refused ")?;
    text.extend_from_slice(number.as_bytes())?;
    if let Some(reason) = reason {
        text.push(b' ')?;
        text.extend_from_slice(reason.as_bytes())?;
    }
    text.push(b'\n')?;
    Ok(())
}

/// The interchange that a packet carries.
fn carried(packet: &Packet) -> Option<&[u8]> {
    match &packet.load {
        Load::Deposit(sent) => Some(sent.bytes()),
        Load::Item(_, bytes) => Some(bytes),
        Load::Refusal(bytes) => Some(bytes),
        Load::Taken(_) => None,
    }
}

/// Appends the line on a packet: the interchange that it carries, or `none`.
pub(crate) fn push_carried(text: &mut Vec<u8>, packet: Option<&Packet>) -> Result<(), AllocError> {
    let bytes = match packet {
        Some(packet) => carried(packet),
        None => None,
    };
    text.extend_from_slice(bytes.unwrap_or(b"none"))?;
    text.push(b'\n')?;
    Ok(())
}

/// Appends the line on how a transaction set fares.
pub(crate) fn push_fate(text: &mut Vec<u8>, fate: Option<Fate>) -> Result<(), AllocError> {
    text.extend_from_slice(match fate {
        Some(Fate::Pending) => b"pending\n",
        Some(Fate::Accepted) => b"accepted\n",
        Some(Fate::Noted) => b"noted\n",
        Some(Fate::Rejected) => b"rejected\n",
        None => b"unknown\n",
    })
}

/// Appends the line on what a station counted.
pub(crate) fn push_counts(text: &mut Vec<u8>, counts: &Counts) -> Result<(), AllocError> {
    let counted: [(&[u8], u64); 5] = [
        (b"settled ", counts.settled),
        (b" repeated ", counts.repeated),
        (b" unmatched ", counts.unmatched),
        (b" conflicting ", counts.conflicting),
        (b" unclear ", counts.unclear),
    ];
    for (word, number) in &counted {
        text.extend_from_slice(word)?;
        push_number(text, *number)?;
    }
    text.push(b'\n')?;
    Ok(())
}
