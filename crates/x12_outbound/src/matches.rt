//! Which submitted interchange or functional group an answer is about, and what the answers state.
ghost use Rattle.std.specs.Prelude.{◌≡◌, ◌<◌, ◌+◌, ◌++◌, ◌∷◌, [], ◌||◌, Some, None, OnOk, map};
ghost use Rattle.std.specs.Prelude.{IfOk, IfSome, IfNone, bytes_eq, length, slice_index_or};
ghost use Rattle.std.specs.List.{list_any};
ghost use Rattle.x12_acks.specs.Answer.{answer_view};
ghost use Rattle.x12_judge.specs.Agreement.{is_same_party};
ghost use Rattle.x12_acks.specs.Evidence.{answer_evidence, evidence_of};
ghost use Rattle.x12_acks.specs.Evidence.{found_interchange, found_group};
ghost use Rattle.x12_outbound.specs.declared.entry.EntryGroup.{EntryGroup};
ghost use Rattle.x12_outbound.specs.declared.statement.NamedBy.TheVariants.{Group};
ghost use Rattle.x12_outbound.specs.Entry.{entry_row, submission_of_entry, IsSendable};
ghost use Rattle.x12_outbound.specs.Ledger.{row_view, submitted_by, AreInOrder};
ghost use Rattle.x12_outbound.specs.Hubs.{hubs_of};
ghost use Rattle.x12_outbound.specs.Plan.{answer_is_unclear, unclear_answers};
ghost use Rattle.x12_outbound.specs.Matches.{interchange_told, origin, rejection_evidence};
ghost use Rattle.x12_outbound.specs.Matches.{functional_evidence, group_answer_view};
ghost use Rattle.x12_outbound.specs.Matches.{AreNamedInBoth, AreApart, MayReject, WasReceived};
ghost use Rattle.x12_outbound.specs.Matches.{AddsInBoth};
ghost use Rattle.x12_outbound.specs.Subject.{an_interchange, a_group, subject_of, subjects_of};
ghost use Rattle.x12_outbound.specs.Statement.{evidence_told, subject_told, told_of_group};

use crate::entry::{Entry, EntryGroup};
use crate::evidence::Statement;
use crate::fate::FinalFate;
use crate::group::find_group;
use crate::hubs::Hubs;
use crate::row::{Row, find_row};
use crate::statement::{NamedBy, Origin, place_of, tell_all, tell_group};
use std::alloc::{AllocError, Global};
use x12_acks::{Answer, AnswerCode};
use x12_envelopes::{AcknowledgmentCode, Party, SetNo};

/// The parties that matching looks at: the sender of what was submitted, its hubs, and who answers.
#[derive(Clone, Copy)]
pub(crate) struct Parties {
    pub me: Party,
    pub hubs: Hubs,
    pub from: Party,
}

impl Parties {
    /// Whether the one who answers may reject an interchange to this receiver.
    fn may_reject(&self, receiver: &Party) -> bool
        ensures { result
            ≡ (is_same_party receiver.now self.now.from
            || list_any (is_same_party self.now.from) (hubs_of self.now.hubs)) }
    {
        *receiver == self.from || self.hubs.contain(&self.from)
    }

    /// Whether the one who answers is this receiver.
    fn is_receiver(&self, receiver: &Party) -> bool
        ensures { result ≡ is_same_party receiver.now self.now.from }
    {
        *receiver == self.from
    }
}

/// States that each transaction set of an interchange was rejected.
fn tell_interchange(
    out: &mut Vec<Option<Statement>>,
    parties: &Parties,
    entry: &Entry,
) -> Result<(), AllocError>
    requires { IsSendable (submission_of_entry parties.now.me (entry_row entry.now)) }
    ensures { OnOk result (out.new.items
        ≡ out.old.items ++ interchange_told parties.now entry.now) }
{
    for (index, group) in entry.groups.iter().enumerate() {
        let origin = Origin {
            from: parties.from,
            sender: parties.me,
            icn: entry.icn,
            group: place_of(index),
            by: NamedBy::Interchange,
        };
        tell_all(out, &origin, &group.sets, FinalFate::Rejected)?;
    }
    Ok(())
}

/// States that an answer finds nothing.
fn tell_unmatched(out: &mut Vec<Option<Statement>>) -> Result<(), AllocError>
    ensures { OnOk result (out.new.items ≡ out.old.items ++ None ∷ []) }
{
    out.push(None)?;
    Ok(())
}

/// The interchange of this number among these, where the one who answers may reject it.
fn rejected_row(rows: &[Row], parties: &Parties, icn: u32) -> Option<usize>
    requires { AreInOrder (submitted_by parties.now.me (map row_view rows.now)) }
    ensures found { IfSome result (MayReject parties.now rows.now icn) }
    ensures none { IfNone result (found_interchange (hubs_of parties.now.hubs)
        (submitted_by parties.now.me (map row_view rows.now)) parties.now.from icn ≡ None) }
{
    let Some(index) = find_row(rows, icn) else {
        return None;
    };
    if !parties.may_reject(&rows[index].entry.partner) {
        return None;
    }
    Some(index)
}

/// States what a TA1 that rejects says of the interchange of this number.
fn tell_rejection(
    out: &mut Vec<Option<Statement>>,
    rows: &[Row],
    closed: &[Row],
    parties: &Parties,
    icn: u32,
) -> Result<(), AllocError>
    requires held { AreInOrder (submitted_by parties.now.me (map row_view rows.now)) }
    requires closed { AreInOrder (submitted_by parties.now.me (map row_view closed.now)) }
    requires apart { AreApart (map row_view rows.now) (map row_view closed.now) }
    ensures { OnOk result (
        let held = submitted_by parties.now.me (map row_view rows.now) in
        let found = submitted_by parties.now.me (map row_view closed.now) in
        AddsInBoth parties.now (map row_view rows.now) (map row_view closed.now)
        (Some (an_interchange icn)) out.old.items out.new.items
        (rejection_evidence parties.now (held ++ found) icn)) }
{
    if let Some(index) = rejected_row(rows, parties, icn) {
        return tell_interchange(out, parties, &rows[index].entry);
    }
    if let Some(index) = rejected_row(closed, parties, icn) {
        return tell_interchange(out, parties, &closed[index].entry);
    }
    tell_unmatched(out)
}

/// Whether a group has this functional identifier code (GS01).
fn is_functional(group: &EntryGroup, functional: [u8; 2]) -> bool
    ensures { result ≡ bytes_eq group.now.functional functional }
{
    group.functional == functional
}

/// What a 997 says of a functional group: AK101, AK102, AK901, and its sets with their AK501.
#[derive(Drop)]
struct GroupAnswer<'a> {
    functional: [u8; 2],
    number: u32,
    code: AnswerCode,
    sets: &'a [(SetNo, AnswerCode)],
}

/// The functional group that a 997 answers among these interchanges, where the one who answers
/// received it: the interchange, and the group's index there.
fn answered_group(
    rows: &[Row],
    parties: &Parties,
    answer: &GroupAnswer<'_>,
) -> Option<(usize, usize)>
    requires { AreInOrder (submitted_by parties.now.me (map row_view rows.now)) }
    ensures found { IfSome result (λ at.
        WasReceived parties.now rows.now (group_answer_view answer.now) at.0 at.1) }
    ensures none { IfNone result (found_group (submitted_by parties.now.me (map row_view rows.now))
        parties.now.from (group_answer_view answer.now) ≡ None) }
{
    let Some((at, index)) = find_group(rows, answer.number) else {
        return None;
    };
    let entry = &rows[at].entry;
    if !parties.is_receiver(&entry.partner) {
        return None;
    }
    if !is_functional(&entry.groups[index], answer.functional) {
        return None;
    }
    Some((at, index))
}

/// States what a 997 says of the group at this index of an interchange.
fn tell_group_at(
    alloc: Global,
    out: &mut Vec<Option<Statement>>,
    parties: &Parties,
    entry: &Entry,
    index: usize,
    answer: &GroupAnswer<'_>,
) -> Result<(), AllocError>
    requires sendable { IsSendable (submission_of_entry parties.now.me (entry_row entry.now)) }
    requires there { index < length entry.now.groups.items }
    ensures { (g : EntryGroup) → g ≡ slice_index_or entry.now.groups.items index g →
        let by = Group answer.now.functional answer.now.number in
        OnOk result (out.new.items ≡ out.old.items
        ++ told_of_group (origin parties.now entry.now by (index + 1))
        answer.now.code g.sets.items answer.now.sets.now) }
{
    let origin = Origin {
        from: parties.from,
        sender: parties.me,
        icn: entry.icn,
        group: place_of(index),
        by: NamedBy::Group(answer.functional, answer.number),
    };
    let group = &entry.groups[index];
    tell_group(alloc, out, &origin, &group.sets, answer.code, answer.sets)
}

/// States what a 997 says of the functional group that it answers.
fn tell_functional(
    alloc: Global,
    out: &mut Vec<Option<Statement>>,
    rows: &[Row],
    closed: &[Row],
    parties: &Parties,
    answer: &GroupAnswer<'_>,
) -> Result<(), AllocError>
    requires held { AreInOrder (submitted_by parties.now.me (map row_view rows.now)) }
    requires closed { AreInOrder (submitted_by parties.now.me (map row_view closed.now)) }
    requires apart { AreApart (map row_view rows.now) (map row_view closed.now) }
    ensures { OnOk result (
        let held = submitted_by parties.now.me (map row_view rows.now) in
        let found = submitted_by parties.now.me (map row_view closed.now) in
        AddsInBoth parties.now (map row_view rows.now) (map row_view closed.now)
        (Some (a_group answer.now.functional answer.now.number)) out.old.items out.new.items
        (functional_evidence parties.now (held ++ found) (group_answer_view answer.now))) }
{
    if let Some((at, index)) = answered_group(rows, parties, answer) {
        return tell_group_at(alloc, out, parties, &rows[at].entry, index, answer);
    }
    if let Some((at, index)) = answered_group(closed, parties, answer) {
        return tell_group_at(alloc, out, parties, &closed[at].entry, index, answer);
    }
    tell_unmatched(out)
}

/// States what one answer says of what was submitted: of the ledger's interchanges, and of the
/// closed ones where it finds nothing in the ledger.
#[tactic(auto, using(crate::proofs::BothLemmas::adds_nothing), unfolding(x12_acks::specs::Evidence::answer_evidence))]
fn tell_in_both(
    alloc: Global,
    out: &mut Vec<Option<Statement>>,
    rows: &[Row],
    closed: &[Row],
    parties: &Parties,
    answer: &Answer,
) -> Result<(), AllocError>
    requires held { AreInOrder (submitted_by parties.now.me (map row_view rows.now)) }
    requires closed { AreInOrder (submitted_by parties.now.me (map row_view closed.now)) }
    requires apart { AreApart (map row_view rows.now) (map row_view closed.now) }
    ensures { OnOk result (
        let held = submitted_by parties.now.me (map row_view rows.now) in
        let found = submitted_by parties.now.me (map row_view closed.now) in
        AddsInBoth parties.now (map row_view rows.now) (map row_view closed.now)
        (subject_of (answer_view answer.now)) out.old.items out.new.items
        (answer_evidence (hubs_of parties.now.hubs) (held ++ found) parties.now.from
        (answer_view answer.now))) }
{
    match answer {
        Answer::Interchange { icn, code, note: _ } => match code {
            AcknowledgmentCode::Rejected => tell_rejection(out, rows, closed, parties, *icn),
            _ => Ok(()),
        },
        Answer::Group {
            functional,
            number,
            code,
            sets,
        } => {
            let answer = GroupAnswer {
                functional: *functional,
                number: *number,
                code: *code,
                sets,
            };
            tell_functional(alloc, out, rows, closed, parties, &answer)
        }
        Answer::Unclear => Ok(()),
    }
}

/// What the answers of an interchange state of what was submitted, in their order; `None` for each
/// that answers nothing which was submitted. An answer that finds nothing in the ledger is about
/// the closed interchanges.
pub(crate) fn statements_of(
    alloc: Global,
    rows: &[Row],
    closed: &[Row],
    parties: &Parties,
    answers: &[Answer],
) -> Result<Vec<Option<Statement>>, AllocError>
    requires held { AreInOrder (submitted_by parties.now.me (map row_view rows.now)) }
    requires closed { AreInOrder (submitted_by parties.now.me (map row_view closed.now)) }
    requires apart { AreApart (map row_view rows.now) (map row_view closed.now) }
    ensures evidence { IfOk result (λ v.
        let held = submitted_by parties.now.me (map row_view rows.now) in
        let found = submitted_by parties.now.me (map row_view closed.now) in
        map evidence_told v.items ≡ evidence_of (hubs_of parties.now.hubs) (held ++ found)
        parties.now.from (map answer_view answers.now)) }
    ensures named { IfOk result (λ v.
        AreNamedInBoth parties.now (map row_view rows.now) (map row_view closed.now) v.items) }
    ensures names { IfOk result (λ v.
        let held = submitted_by parties.now.me (map row_view rows.now) in
        let found = submitted_by parties.now.me (map row_view closed.now) in
        map subject_told v.items ≡ subjects_of (hubs_of parties.now.hubs) (held ++ found)
        parties.now.from (map answer_view answers.now)) }
{
    let mut out = Vec::new(alloc);
    for answer in answers {
        tell_in_both(alloc, &mut out, rows, closed, parties, answer)?;
    }
    Ok(out)
}

/// Whether an answer is unclear.
fn is_unclear(answer: &Answer) -> bool
    ensures { result ≡ answer_is_unclear (answer_view answer.now) }
{
    match answer {
        Answer::Unclear => true,
        _ => false,
    }
}

/// How many answers are unclear.
#[tactic(auto, unfolding(crate::specs::Plan::unclear_answers))]
pub(crate) fn unclear_in(answers: &[Answer]) -> u64
    ensures { result ≡ unclear_answers (map answer_view answers.now) }
{
    let mut count = 0;
    for answer in answers {
        if is_unclear(answer) {
            count += 1;
        }
    }
    count
}
