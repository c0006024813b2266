//! The transaction sets of an interchange by their places: the one of a key, and all with their keys.

ghost use Rattle.std.specs.Prelude.{◌≡◌, ◌≤◌, ◌++◌, Ok, IfOk, OnOk, find, map};
ghost use Rattle.std.specs.Prelude.{length, option_map, vec_len};
ghost use Rattle.std.specs.List.{All};
ghost use Rattle.std.specs.Option.{option_copied};
ghost use Rattle.x12_acks.specs.Key.{key_view};
ghost use Rattle.x12_envelopes.specs.declared.delimiters.Delims.{Delims};
ghost use Rattle.x12_envelopes.specs.Header.{header_of};
ghost use Rattle.x12_envelopes.specs.Shape.{group_view};
ghost use Rattle.x12_outbound.specs.Entry.{at_place};
ghost use Rattle.x12_profile.specs.X12.{x12, sets_of_group};
ghost use Rattle.x12_world.specs.Auditing.{set_under};
ghost use Rattle.x12_world.specs.Placing.{addressed, addressed_view, outgoing_at, outgoing_in};
ghost use Rattle.x12_world.specs.Placing.{outgoing_view, sets_of_groups, stands_at};

use std::alloc::{AllocError, Global};
use x12_acks::SetKey;
use x12_envelopes::{GroupView, Header, OutlineFault, Party, outline, read_header};

/// A submitted transaction set as it was sent: the party that it was submitted to, and its bytes.
#[derive(Drop)]
pub(crate) struct Addressed {
    pub receiver: Party,
    pub bytes: Vec<u8>,
}

/// A submitted transaction set as it was sent, with its key.
#[derive(Drop)]
pub(crate) struct OutgoingSet {
    pub key: SetKey,
    pub set: Addressed,
}

/// The functional groups of an interchange; none where its segments can't be read.
fn groups_of<'a>(
    alloc: Global,
    bytes: &'a [u8],
    header: &Header,
) -> Result<Vec<GroupView<'a>>, AllocError>
    requires read { header_of bytes.now ≡ Ok header.now }
    ensures sets { IfOk result (λ v.
        x12.sets bytes.now ≡ sets_of_groups header.now.delims v.items) }
    ensures few { IfOk result (λ v. length v.items ≤ 32) }
    ensures short { IfOk result (λ v. All (λ g. vec_len g.sets ≤ 400) v.items) }
{
    match outline(alloc, bytes, header) {
        Ok(outline) => Ok(outline.groups),
        Err(fault) => match fault {
            OutlineFault::Memory => Err(AllocError),
            _ => Ok(Vec::new(alloc)),
        },
    }
}

/// What stands at a place, from 1.
fn item_at<T>(items: &[T], place: u16) -> Option<&T>
    ensures { option_copied result ≡ at_place place items.now }
{
    if place == 0 {
        return None;
    }
    items.get(usize::from(place) - 1)
}

/// The bytes of the transaction set at a key's places.
fn set_at<'a>(groups: &[GroupView<'a>], key: &SetKey) -> Option<&'a [u8]>
    ensures { (d : Delims) → option_map (λ b. b.now) result ≡ option_map (λ t. t.bytes)
        (find (stands_at key.now.group key.now.set) (sets_of_groups d groups.now)) }
{
    match item_at(groups, key.group) {
        Some(group) => match item_at(&group.sets, key.set) {
            Some(set) => Some(set.bytes),
            None => None,
        },
        None => None,
    }
}

/// The transaction set of an interchange that has this key.
pub(crate) fn set_of_key(
    alloc: Global,
    bytes: &[u8],
    key: &SetKey,
) -> Result<Option<Addressed>, AllocError>
    ensures { IfOk result (λ o. option_map addressed_view o
        ≡ option_map addressed (set_under (key_view key.now) bytes.now)) }
{
    let Ok(header) = read_header(bytes) else {
        return Ok(None);
    };
    if key.sender != header.sender {
        return Ok(None);
    }
    if key.icn != header.icn {
        return Ok(None);
    }
    let groups = groups_of(alloc, bytes, &header)?;
    match set_at(&groups, key) {
        Some(set) => Ok(Some(Addressed {
            receiver: header.receiver,
            bytes: Vec::from_slice(alloc, set)?,
        })),
        None => Ok(None),
    }
}

/// Puts the transaction sets of the group at a place behind others, as they were sent.
fn push_group(
    alloc: Global,
    sets: &mut Vec<OutgoingSet>,
    header: &Header,
    place: u16,
    group: &GroupView<'_>,
) -> Result<(), AllocError>
    requires { vec_len group.now.sets ≤ 400 }
    ensures { (d : Delims) → OnOk result (map outgoing_view sets.new.items
        ≡ map outgoing_view sets.old.items
        ++ map (outgoing_at header.now) (sets_of_group (place, group_view d group.now))) }
{
    for index in 0..group.sets.len() {
        sets.push(OutgoingSet {
            key: SetKey {
                sender: header.sender,
                icn: header.icn,
                group: place,
                set: index as u16 + 1,
            },
            set: Addressed {
                receiver: header.receiver,
                bytes: Vec::from_slice(alloc, group.sets[index].bytes)?,
            },
        })?;
    }
    Ok(())
}

/// Puts the transaction sets of groups behind others, as they were sent.
fn push_groups(
    alloc: Global,
    sets: &mut Vec<OutgoingSet>,
    header: &Header,
    groups: &[GroupView<'_>],
) -> Result<(), AllocError>
    requires few { length groups.now ≤ 32 }
    requires short { All (λ g. vec_len g.sets ≤ 400) groups.now }
    ensures { (d : Delims) → OnOk result (map outgoing_view sets.new.items
        ≡ map outgoing_view sets.old.items
        ++ map (outgoing_at header.now) (sets_of_groups d groups.now)) }
{
    for (index, group) in groups.iter().enumerate() {
        push_group(alloc, sets, header, index as u16 + 1, group)?;
    }
    Ok(())
}

/// Puts the transaction sets of an interchange behind others, as they were sent.
pub(crate) fn push_sets(
    alloc: Global,
    sets: &mut Vec<OutgoingSet>,
    bytes: &[u8],
) -> Result<(), AllocError>
    ensures { OnOk result (map outgoing_view sets.new.items
        ≡ map outgoing_view sets.old.items ++ outgoing_in bytes.now) }
{
    let Ok(header) = read_header(bytes) else {
        return Ok(());
    };
    let groups = groups_of(alloc, bytes, &header)?;
    push_groups(alloc, sets, &header, &groups)
}
