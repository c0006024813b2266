//! The verdict of a functional group (997, AK9).

ghost use Rattle.std.specs.Prelude.{◌≡◌, ◌<◌, ◌≤◌, ◌^◌, ◌==◌, [], length, map};
ghost use Rattle.std.specs.Prelude.{take, count_by, bytes_eq, codes, nat_eq, unwrap_or};
ghost use Rattle.std.specs.Prelude.{option_and_then, if◌then◌else◌, vec_len, IfOk};
ghost use Rattle.std.specs.List.{All, list_any, starts_with, enumerate_from};
ghost use Rattle.x12_envelopes.specs.Shape.{group_trailer_view, group_view, set_view};
ghost use Rattle.x12_judge.specs.Agreement.{agreement_view};
ghost use Rattle.x12_judge.specs.Group.{refusal_of_group, verdict_of_group, verdicts_of_sets};
ghost use Rattle.x12_judge.specs.Group.{short_count_of};
ghost use Rattle.x12_judge.specs.Interchange.{value_is_number};
ghost use Rattle.x12_judge.specs.Set.{set_is_accepted, verdict_of_set};
ghost use Rattle.x12_judge.specs.Verdict.{group_verdict_view, set_verdict_view};

use crate::agreement::{Agreement, agreed_sets, is_group_agreed, is_lenient};
use crate::number::Numbers;
use crate::set::set_verdict;
use crate::verdict::{GroupRefusal, GroupVerdict, SetVerdict};
use std::alloc::{AllocError, Global};
use x12_envelopes::{Delims, GroupTrailer, GroupView, Party, SetView};

/// Whether a trailer's value is this number.
pub(crate) fn is_number(n: usize, value: Option<u32>) -> bool
    ensures { result ≡ value_is_number n value }
{
    match value {
        Some(m) => m as usize == n,
        None => false,
    }
}

/// Whether the version of a group is one that is judged.
fn is_supported(version: &[u8]) -> bool
    ensures { result ≡ starts_with nat_eq version.now (codes "004010") }
{
    version.starts_with(b"004010")
}

/// Why a group of this partner is refused: the first that holds.
#[tactic(auto, unfolding(crate::specs::Group::refusal_of_group))]
fn group_refusal(
    agreements: &[Agreement],
    partner: &Party,
    delims: &Delims,
    group: &GroupView<'_>,
) -> Option<GroupRefusal>
    ensures { result
        ≡ refusal_of_group (map agreement_view agreements.now) partner.now
        (group_view delims.now group.now) }
{
    if !is_group_agreed(agreements, partner, group.functional) {
        return Some(GroupRefusal::NotSupported);
    }
    if !is_supported(group.version) {
        return Some(GroupRefusal::VersionNotSupported);
    }
    let Some(trailer) = group.trailer else {
        return Some(GroupRefusal::TrailerMissing);
    };
    if !is_number(group.number as usize, trailer.number) {
        return Some(GroupRefusal::NumbersDiffer);
    }
    if !is_number(group.sets.len(), trailer.count) {
        return Some(GroupRefusal::CountWrong);
    }
    None
}

/// GE01 as a number of one to six digits, if it is one.
fn short_count(trailer: &GroupTrailer<'_>) -> Option<u32>
    ensures { result ≡ short_count_of (group_trailer_view trailer.now) }
{
    if trailer.count_text.len() <= 6 {
        trailer.count
    } else {
        None
    }
}

/// How many sets a group says that it includes (AK902): GE01, or how many were received.
fn included_of(delims: &Delims, group: &GroupView<'_>, received: u32) -> u32
    ensures { result
        ≡ unwrap_or (option_and_then short_count_of (group_view delims.now group.now).trailer)
        received }
{
    let Some(trailer) = group.trailer else {
        return received;
    };
    short_count(&trailer).unwrap_or(received)
}

/// Whether a set's identifier is one of these.
fn is_one_of(identifiers: &[[u8; 3]], set: [u8; 3]) -> bool
    ensures { result ≡ list_any (λ i. bytes_eq i set) identifiers.now }
{
    identifiers.iter().any(|i| *i == set)
}

/// How many of the sets are accepted.
fn accepted_of(sets: &[SetVerdict<'_>]) -> usize
    ensures count { result ≡ count_by (λ v. set_is_accepted (set_verdict_view v)) sets.now }
    ensures within { result ≤ length sets.now }
{
    sets.iter().filter(|set| set.is_accepted()).count()
}

/// The verdict of each set of a group in which these identifiers are agreed, with a partner who is
/// lenient or not.
fn set_verdicts<'a>(
    alloc: Global,
    agreed: &[[u8; 3]],
    lenient: bool,
    delims: &Delims,
    sets: &[SetView<'a>],
) -> Result<Vec<SetVerdict<'a>>, AllocError>
    requires { All (λ s. length s.bytes.now < 2 ^ 31) sets.now }
    ensures verdicts { let d = delims.now in
        let received = map (set_view d) sets.now in
        IfOk result
        (λ vs. map set_verdict_view vs.items
        ≡ map (λ place.
        verdict_of_set d (list_any (λ i. bytes_eq i place.1.set) agreed.now) lenient
        (take place.0 received) place.1)
        (enumerate_from 0 received)) }
    ensures count { IfOk result (λ vs. vec_len vs ≡ length sets.now) }
{
    let mut numbers = Numbers::of(alloc, sets);
    let mut verdicts = Vec::with_capacity(alloc, sets.len())?;
    for set in sets {
        let repeated = numbers.see(&set.number)?;
        let is_agreed = is_one_of(agreed, set.set);
        let verdict = set_verdict(alloc, delims, is_agreed, lenient, repeated, set)?;
        verdicts.push(verdict)?;
    }
    Ok(verdicts)
}

/// The verdict of each set of a group, and of none where the group is refused.
#[tactic(auto, unfolding(crate::specs::Group::verdicts_of_sets))]
fn verdicts_unless<'a>(
    alloc: Global,
    refused: bool,
    agreements: &[Agreement],
    partner: &Party,
    delims: &Delims,
    group: &GroupView<'a>,
) -> Result<Vec<SetVerdict<'a>>, AllocError>
    requires { All (λ s. length s.bytes.now < 2 ^ 31) group.now.sets.items }
    ensures verdicts { let g = group_view delims.now group.now in
        let ags = map agreement_view agreements.now in
        let judged = verdicts_of_sets ags partner.now delims.now g in
        IfOk result (λ vs. map set_verdict_view vs.items ≡ (if refused then [] else judged)) }
    ensures count { IfOk result (λ vs. vec_len vs ≤ vec_len group.now.sets) }
{
    if refused {
        return Ok(Vec::new(alloc));
    }
    let agreed = agreed_sets(alloc, agreements, partner, group.functional)?;
    let lenient = is_lenient(agreements, partner);
    set_verdicts(alloc, &agreed, lenient, delims, &group.sets)
}

/// The verdict of the group at this place; a refused group rejects all its sets.
#[tactic(auto, unfolding(crate::specs::Group::verdict_of_group))]
pub(crate) fn group_verdict<'a>(
    alloc: Global,
    agreements: &[Agreement],
    partner: &Party,
    delims: &Delims,
    place: u16,
    group: &GroupView<'a>,
) -> Result<GroupVerdict<'a>, AllocError>
    requires short { All (λ s. length s.bytes.now < 2 ^ 31) group.now.sets.items }
    requires few { vec_len group.now.sets < 2 ^ 31 }
    ensures { let ags = map agreement_view agreements.now in
        let g = group_view delims.now group.now in
        IfOk result (λ v. group_verdict_view v
        ≡ verdict_of_group ags partner.now delims.now place g) }
{
    let refused = group_refusal(agreements, partner, delims, group);
    let sets = verdicts_unless(alloc, refused.is_some(), agreements, partner, delims, group)?;
    let received = group.sets.len() as u32;
    Ok(GroupVerdict {
        place,
        functional: group.functional,
        sender: group.sender,
        receiver: group.receiver,
        number_text: group.number_text,
        included: included_of(delims, group, received),
        received,
        accepted: accepted_of(&sets) as u32,
        refused,
        sets,
    })
}
