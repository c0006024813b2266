//! What an interchange answers, in order: each TA1, and each set of its groups of acknowledgments,
//! with what it means to the sender of a file.

ghost use Rattle.std.specs.Prelude.{◌≡◌, [], ◌∷◌, map, IfOk, OnOk};
ghost use Rattle.x12_envelopes.specs.Shape.{outline_view};
ghost use Rattle.x12_acks.specs.Answer.{answer_view, answers_of};
ghost use Rattle.x12_inspect.specs.Explaining.{answers_received, IsLeftBy, MayBeLeftBy};

use std::alloc::{AllocError, Global};
use x12_acks::{Answer, read_answers};
use x12_envelopes::{GroupView, Header, Outline, SetView};
use x12_sent::{Meaning, SentFile};

/// An answer, the set that says it, and what it means beside a file that was sent.
#[derive(Drop)]
pub(crate) struct Told<'r, 'a> {
    /// What it answers.
    pub answer: Answer,
    /// The set of a group of acknowledgments; `None` of a TA1.
    pub set: Option<&'r SetView<'a>>,
    /// What it means to the sender of the file; `None` where none is given, or to another party.
    pub meaning: Option<Meaning>,
}

/// Adds the sets of a group.
fn push_sets<'r, 'a>(
    sets: &mut Vec<&'r SetView<'a>>,
    group: &'r GroupView<'a>,
) -> Result<(), AllocError> {
    for set in &group.sets {
        sets.push(set)?;
    }
    Ok(())
}

/// The sets of the groups of acknowledgments (FA), in order.
fn acknowledgment_sets<'r, 'a>(
    alloc: Global,
    read: &'r Outline<'a>,
) -> Result<Vec<&'r SetView<'a>>, AllocError> {
    let mut sets = Vec::new(alloc);
    for group in &read.groups {
        if group.functional == *b"FA" {
            push_sets(&mut sets, group)?;
        }
    }
    Ok(sets)
}

/// What an answer in an interchange with this header means to the sender of a file; nothing, where it
/// is to another party.
fn meaning_to(
    alloc: Global,
    sent: &mut SentFile<'_>,
    header: &Header,
    answer: &Answer,
) -> Result<Option<Meaning>, AllocError>
    ensures { OnOk result (IsLeftBy (λ me. answers_received me header.now (answer_view answer.now ∷ []))
        sent.old sent.new) }
{
    if !sent.is_sender(&header.receiver) {
        return Ok(None);
    }
    Ok(Some(sent.tell(alloc, &header.sender, answer)?))
}

/// The same, where a file may be given.
fn meaning_of(
    alloc: Global,
    sent: &mut Option<SentFile<'_>>,
    header: &Header,
    answer: &Answer,
) -> Result<Option<Meaning>, AllocError>
    ensures { OnOk result (MayBeLeftBy (λ me. answers_received me header.now (answer_view answer.now ∷ []))
        sent.old sent.new) }
{
    match sent {
        Some(sent) => meaning_to(alloc, sent, header, answer),
        None => Ok(None),
    }
}

/// The set at this index of the answers, of which the first are TA1s.
fn set_at<'r, 'a>(sets: &[&'r SetView<'a>], tas: usize, index: usize) -> Option<&'r SetView<'a>> {
    let behind = index.checked_sub(tas)?;
    sets.get(behind).copied()
}

/// Reads what an interchange answers, in order, and what each answer means to the sender of a file,
/// the answers before it counted.
pub(crate) fn read_told<'r, 'a>(
    alloc: Global,
    header: &Header,
    read: &'r Outline<'a>,
    sent: &mut Option<SentFile<'_>>,
) -> Result<Vec<Told<'r, 'a>>, AllocError>
    ensures answers { IfOk result (λ v. map (λ t. answer_view t.answer) v.items
        ≡ answers_of header.now.delims (outline_view header.now.delims read.now)) }
    ensures left { OnOk result (MayBeLeftBy (λ me. answers_received me header.now
        (answers_of header.now.delims (outline_view header.now.delims read.now)))
        sent.old sent.new) }
{
    let answers = read_answers(alloc, read, &header.delims)?;
    let sets = acknowledgment_sets(alloc, read)?;
    let mut told = Vec::new(alloc);
    let mut index = 0usize;
    for answer in answers {
        let meaning = meaning_of(alloc, sent, header, &answer)?;
        let set = set_at(&sets, read.tas.len(), index);
        told.push(Told {
            answer,
            set,
            meaning,
        })?;
        index = index.saturating_add(1);
    }
    Ok(told)
}
