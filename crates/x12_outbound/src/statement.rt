//! What an answer states of the transaction sets of one functional group that was submitted.
ghost use Rattle.std.specs.Prelude.{◌≡◌, ◌<◌, ◌≤◌, ◌+◌, ◌-◌, ◌^◌, ◌++◌, ℕ, List, IfOk, OnOk};
ghost use Rattle.std.specs.Prelude.{length, option_map, is_some};
ghost use Rattle.std.specs.BTreeMap.{get_by};
ghost use Rattle.std.specs.Cmp.Lexicographic.{slice_cmp};
ghost use Rattle.std.specs.Ordering.{nat_cmp};
ghost use Rattle.x12_envelopes.specs.Shape.{bytes_of_set_no};
ghost use Rattle.x12_outbound.specs.Statement.{told_of_set, all_told, fate_by_code, set_numbered};
ghost use Rattle.x12_outbound.specs.Statement.{listed_told, is_listed, unlisted_told};
ghost use Rattle.x12_outbound.specs.Statement.{told_of_group};

use crate::entry::EntrySet;
use crate::evidence::{Naming, Statement};
use crate::fate::FinalFate;
use std::alloc::{AllocError, Global};
use std::collections::BTreeMap;
use x12_acks::{AnswerCode, SetKey};
use x12_envelopes::{Party, SetNo};

/// What names the transaction sets of a group.
#[derive(Clone, Copy)]
pub(crate) enum NamedBy {
    /// A TA1: the interchange.
    Interchange,
    /// A 997: the group's GS01 and GS06.
    Group([u8; 2], u32),
}

/// A functional group that an answer is about: who answers, and where the group stands.
#[derive(Clone, Copy)]
pub(crate) struct Origin {
    /// The sender of the answer.
    pub from: Party,
    /// The sender of the group.
    pub sender: Party,
    /// The number of its interchange.
    pub icn: u32,
    /// The place of the group in its interchange, from 1.
    pub group: u16,
    /// What names its sets.
    pub by: NamedBy,
}

impl Origin {
    /// The statement that the set at a place, from 1, ended so.
    fn tell(&self, place: u16, set: &EntrySet, fate: FinalFate) -> Statement
        ensures { result ≡ told_of_set self.now fate (place, set.now) }
    {
        Statement {
            from: self.from,
            key: SetKey {
                sender: self.sender,
                icn: self.icn,
                group: self.group,
                set: place,
            },
            naming: match self.by {
                NamedBy::Interchange => Naming::Interchange,
                NamedBy::Group(functional, gcn) => {
                    Naming::TransactionSet(functional, gcn, set.number)
                }
            },
            fate,
        }
    }
}

/// The place from 1 of an index; a key has room for 65,535 places.
pub(crate) fn place_of(index: usize) -> u16
    requires { index < 2 ^ 16 - 1 }
    ensures { result ≡ index + 1 }
{
    index as u16 + 1
}

/// How a transaction set ends, by AK501.
fn fate_by(code: AnswerCode) -> FinalFate
    ensures { result ≡ fate_by_code code }
{
    match code {
        AnswerCode::Accepted => FinalFate::Accepted,
        AnswerCode::ErrorsNoted => FinalFate::Noted,
        _ => FinalFate::Rejected,
    }
}

/// States the same of each transaction set.
pub(crate) fn tell_all(
    out: &mut Vec<Option<Statement>>,
    origin: &Origin,
    sets: &[EntrySet],
    fate: FinalFate,
) -> Result<(), AllocError>
    requires { length sets.now ≤ 400 }
    ensures { OnOk result (out.new.items ≡ out.old.items ++ all_told origin.now fate sets.now) }
{
    for (index, set) in sets.iter().enumerate() {
        out.push(Some(origin.tell(place_of(index), set, fate)))?;
    }
    Ok(())
}

/// The place of the first transaction set of each number.
fn places<'a>(alloc: Global, sets: &'a [EntrySet]) -> Result<BTreeMap<&'a [u8], u16>, AllocError>
    requires { length sets.now ≤ 400 }
    ensures { IfOk result (λ m. (number : List ℕ) →
        get_by (λ k. slice_cmp nat_cmp number k.now) m
        ≡ option_map (λ s. s.0) (set_numbered number sets.now)) }
{
    let mut places = BTreeMap::new(alloc);
    for (index, set) in sets.iter().enumerate() {
        let number = set.number.as_bytes();
        if !places.contains_key(number) {
            places.insert(number, place_of(index))?;
        }
    }
    Ok(places)
}

/// States of a listed transaction set what is listed; `None` where the group lacks it.
fn tell_one(
    places: &BTreeMap<&[u8], u16>,
    origin: &Origin,
    sets: &[EntrySet],
    answer: &(SetNo, AnswerCode),
) -> Option<Statement>
    requires { (number : List ℕ) →
        get_by (λ k. slice_cmp nat_cmp number k.now) places.now
        ≡ option_map (λ s. s.0) (set_numbered number sets.now) }
    ensures { result
        ≡ option_map (told_of_set origin.now (fate_by_code answer.now.1))
        (set_numbered (bytes_of_set_no answer.now.0) sets.now) }
{
    match places.get(answer.0.as_bytes()) {
        Some(place) => {
            let set = &sets[usize::from(*place) - 1];
            Some(origin.tell(*place, set, fate_by(answer.1)))
        }
        None => None,
    }
}

/// States of each listed transaction set what is listed; `None` for one that the group lacks.
fn tell_listed(
    alloc: Global,
    out: &mut Vec<Option<Statement>>,
    origin: &Origin,
    sets: &[EntrySet],
    listed: &[(SetNo, AnswerCode)],
) -> Result<(), AllocError>
    requires { length sets.now ≤ 400 }
    ensures { OnOk result (out.new.items
        ≡ out.old.items ++ listed_told origin.now sets.now listed.now) }
{
    let places = places(alloc, sets)?;
    for answer in listed {
        out.push(tell_one(&places, origin, sets, answer))?;
    }
    Ok(())
}

/// The numbers that are listed.
fn listed_numbers<'a>(
    alloc: Global,
    listed: &'a [(SetNo, AnswerCode)],
) -> Result<BTreeMap<&'a [u8], ()>, AllocError>
    ensures { IfOk result (λ m. (number : List ℕ) →
        is_some (get_by (λ k. slice_cmp nat_cmp number k.now) m) ≡ is_listed listed.now number) }
{
    let mut numbers = BTreeMap::new(alloc);
    for answer in listed {
        numbers.insert(answer.0.as_bytes(), ())?;
    }
    Ok(numbers)
}

/// States of each transaction set that isn't listed that it was accepted.
fn tell_unlisted(
    alloc: Global,
    out: &mut Vec<Option<Statement>>,
    origin: &Origin,
    sets: &[EntrySet],
    listed: &[(SetNo, AnswerCode)],
) -> Result<(), AllocError>
    requires { length sets.now ≤ 400 }
    ensures { OnOk result (out.new.items
        ≡ out.old.items ++ unlisted_told origin.now sets.now listed.now) }
{
    let numbers = listed_numbers(alloc, listed)?;
    for (index, set) in sets.iter().enumerate() {
        if !numbers.contains_key(set.number.as_bytes()) {
            out.push(Some(origin.tell(place_of(index), set, FinalFate::Accepted)))?;
        }
    }
    Ok(())
}

/// States what a 997 says of the transaction sets of a group: AK901, and the sets that it lists.
#[tactic(auto, unfolding(crate::specs::Statement::told_of_group))]
pub(crate) fn tell_group(
    alloc: Global,
    out: &mut Vec<Option<Statement>>,
    origin: &Origin,
    sets: &[EntrySet],
    code: AnswerCode,
    listed: &[(SetNo, AnswerCode)],
) -> Result<(), AllocError>
    requires { length sets.now ≤ 400 }
    ensures { OnOk result (out.new.items
        ≡ out.old.items ++ told_of_group origin.now code sets.now listed.now) }
{
    match code {
        AnswerCode::Accepted => {
            tell_listed(alloc, out, origin, sets, listed)?;
            tell_unlisted(alloc, out, origin, sets, listed)
        }
        AnswerCode::ErrorsNoted => {
            tell_listed(alloc, out, origin, sets, listed)?;
            tell_unlisted(alloc, out, origin, sets, listed)
        }
        AnswerCode::PartiallyAccepted => tell_listed(alloc, out, origin, sets, listed),
        _ => tell_all(out, origin, sets, FinalFate::Rejected),
    }
}
