//! The postings of an interchange: its accepted transaction sets.
ghost use Rattle.std.specs.Prelude.{◌≡◌, ◌++◌, ◌-◌, ◌<◌, ◌^◌, IfOk, OnOk, length, map, flat_map};
ghost use Rattle.std.specs.List.{All};
ghost use Rattle.x12_judge.specs.Verdict.{group_verdict_view, judgement_view, set_verdict_view};
ghost use Rattle.x12_inbound.specs.Posting.{posting_view};
ghost use Rattle.x12_acks.specs.Accepted.{judged_set, accepted_in_group, accepted_by_verdict};
ghost use Rattle.x12_inbound.specs.Posting.{HasFewSets};

use std::alloc::{AllocError, Global};
use x12_acks::SetKey;
use x12_envelopes::{Party, SetNo};
use x12_judge::{GroupVerdict, Judgement, SetVerdict, Verdict};

/// A transaction set that was accepted.
#[derive(Debug, Drop)]
pub struct Posting {
    /// Its key; the sender is the partner that it came from.
    pub key: SetKey,
    /// The functional identifier code of its group (GS01).
    pub functional: [u8; 2],
    /// The transaction set identifier (ST01).
    pub set: [u8; 3],
    /// The transaction set control number (ST02).
    pub number: SetNo,
    /// Its bytes from ST through the terminator of SE.
    pub bytes: Vec<u8>,
}

/// The posting of an accepted set at this place of its group.
fn make_posting(
    alloc: Global,
    partner: &Party,
    icn: u32,
    group: &GroupVerdict,
    place: u16,
    set: &SetVerdict,
) -> Result<Posting, AllocError>
    ensures { IfOk result (λ p. posting_view p
        ≡ judged_set partner.now icn (group_verdict_view group.now)
        (place, set_verdict_view set.now)) }
{
    Ok(Posting {
        key: SetKey {
            sender: *partner,
            icn,
            group: group.place,
            set: place,
        },
        functional: group.functional,
        set: set.set,
        number: set.number,
        bytes: Vec::from_slice(alloc, set.bytes)?,
    })
}

/// Appends the postings of a group: its accepted sets.
fn push_group(
    postings: &mut Vec<Posting>,
    alloc: Global,
    partner: &Party,
    icn: u32,
    group: &GroupVerdict,
) -> Result<(), AllocError>
    requires { length group.now.sets.items < 2 ^ 16 - 1 }
    ensures { OnOk result (map posting_view postings.new.items ≡ map posting_view postings.old.items
        ++ accepted_in_group partner.now icn (group_verdict_view group.now)) }
{
    let mut place = 1;
    for set in &group.sets {
        if set.is_accepted() {
            postings.push(make_posting(alloc, partner, icn, group, place, set)?)?;
        }
        place += 1;
    }
    Ok(())
}

/// Appends the postings of these groups.
fn push_groups(
    postings: &mut Vec<Posting>,
    alloc: Global,
    partner: &Party,
    icn: u32,
    groups: &[GroupVerdict],
) -> Result<(), AllocError>
    requires { All (λ g. length g.sets < 2 ^ 16 - 1) (map group_verdict_view groups.now) }
    ensures { OnOk result (map posting_view postings.new.items ≡ map posting_view postings.old.items
        ++ flat_map (accepted_in_group partner.now icn) (map group_verdict_view groups.now)) }
{
    for group in groups {
        push_group(postings, alloc, partner, icn, group)?;
    }
    Ok(())
}

/// The postings of an interchange from this partner under this number: the accepted sets of its
/// judgement, and none of one that is refused.
#[tactic(auto, unfolding(x12_acks::specs::Accepted::sets_by_verdict))]
pub(crate) fn make_postings(
    alloc: Global,
    partner: &Party,
    icn: u32,
    judgement: &Judgement,
) -> Result<Vec<Posting>, AllocError>
    requires { HasFewSets (judgement_view judgement.now).verdict }
    ensures { IfOk result (λ ps. map posting_view ps.items
        ≡ accepted_by_verdict partner.now icn (judgement_view judgement.now).verdict) }
{
    let mut postings = Vec::new(alloc);
    if let Verdict::Judged(groups) = &judgement.verdict {
        push_groups(&mut postings, alloc, partner, icn, groups)?;
    }
    Ok(postings)
}
