//! Whether what was asked and answered is the same.

ghost use Rattle.std.specs.Prelude.{◌≡◌, map};
ghost use Rattle.std.specs.Cmp.Lexicographic.{pointwise};
ghost use Rattle.std.specs.Option.{option_eq};
ghost use Rattle.x12_core.specs.Ask.{Comes};
ghost use Rattle.x12_core.specs.View.{ask_view, kind_view, load_view, name_view, packet_view};
ghost use Rattle.x12_nodes.specs.Comparing.{answer_is, ask_is, fate_is, kind_is, name_is, told_is};
ghost use Rattle.x12_nodes.specs.Log.{told_of_packets};
ghost use Rattle.x12_nodes.specs.View.{answer_kept, node_answer_view, told_kind_view};

use crate::actions::{is_action, is_moment};
use crate::finding::is_same_load;
use crate::log::{Answer, Kept};
use x12_core::{Ask, Kind, Load, Packet, PacketName};
use x12_envelopes::Moment;
use x12_outbound::Fate;

/// Whether two names are the same.
fn is_name(one: &PacketName, other: &PacketName) -> bool
    ensures { result ≡ name_is (name_view one.now) (name_view other.now) }
{
    one == other
}

/// Whether this packet comes.
fn brings(packet: &PacketName, from: u16, load: &Load, at: Moment, other: &Ask) -> bool
    ensures { result ≡ ask_is (Comes (name_view packet.now) from (load_view load.now) at)
        (ask_view other.now) }
{
    match other {
        Ask::Deliver {
            packet: its,
            from: sender,
            load: carried,
            at: when,
        } => {
            is_name(packet, its)
                && from == *sender
                && is_same_load(load, carried)
                && is_moment(at, *when)
        }
        _ => false,
    }
}

/// Whether the same is asked.
pub(crate) fn is_ask(one: &Ask, other: &Ask) -> bool
    ensures { result ≡ ask_is (ask_view one.now) (ask_view other.now) }
{
    match (one, other) {
        (Ask::Do(action), Ask::Do(other)) => is_action(action, other),
        (
            Ask::Deliver {
                packet,
                from,
                load,
                at,
            },
            _,
        ) => brings(packet, *from, load, *at, other),
        (
            Ask::Outside { bytes, at },
            Ask::Outside {
                bytes: others,
                at: when,
            },
        ) => { bytes == others && is_moment(*at, *when) }
        (Ask::Fate { key }, Ask::Fate { key: other }) => key == other,
        _ => false,
    }
}

/// Whether two kinds are the same.
fn is_kind(one: Kind, other: Kind) -> bool
    ensures { result ≡ kind_is (kind_view one) (kind_view other) }
{
    match (one, other) {
        (Kind::Deposit, Kind::Deposit) => true,
        (Kind::Item(i), Kind::Item(j)) => i == j,
        (Kind::Refusal, Kind::Refusal) => true,
        (Kind::Taken(i), Kind::Taken(j)) => i == j,
        _ => false,
    }
}

/// Whether this is what is told of packets.
fn are_told(packets: &[Packet], told: &[(u16, Kind)]) -> bool
    ensures { result ≡ pointwise told_is (told_of_packets (map packet_view packets.now))
        (map told_kind_view told.now) }
{
    let (mut left, mut right) = (packets, told);
    while let Some((packet, more)) = left.split_first() {
        let Some((one, rest)) = right.split_first() else {
            return false;
        };
        if packet.to != one.0 {
            return false;
        }
        if !is_kind(packet.load.kind(), one.1) {
            return false;
        }
        left = more;
        right = rest;
    }
    right.is_empty()
}

/// Whether two fates are the same.
fn is_fate(one: Option<Fate>, other: Option<Fate>) -> bool
    ensures { result ≡ option_eq fate_is one other }
{
    one == other
}

/// Whether this is what was answered, by what is kept of it.
pub(crate) fn is_answer(kept: &Kept, answer: &Answer) -> bool
    ensures { result ≡ answer_is (answer_kept kept.now) (node_answer_view answer.now) }
{
    match kept {
        Kept::Sent { icn, packets } => match answer {
            Answer::Sent {
                icn: number,
                packets: told,
            } => *icn == *number && are_told(packets, told),
            Answer::Fate(_) => false,
        },
        Kept::Fate(fate) => match answer {
            Answer::Sent { .. } => false,
            Answer::Fate(told) => is_fate(*fate, *told),
        },
    }
}
