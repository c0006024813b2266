//! The notes of a transaction set that are kept: the first eight, and what is to be known of the others.

ghost use Rattle.std.specs.Prelude.{◌≡◌, ◌≤◌, ◌∷◌, ◌++◌, ◌==◌, [], length, take, map, OnOk};
ghost use Rattle.std.specs.Prelude.{vec_len};
ghost use Rattle.x12_envelopes.specs.Row.{held_of_rows};
ghost use Rattle.x12_judge.specs.Keeping.{is_other_note, keeping, kept_as, no_notes};
ghost use Rattle.x12_judge.specs.Set.{is_other_code};
ghost use Rattle.x12_judge.specs.Verdict.{note_view};

use crate::verdict::{SegmentCode, SetNote};
use std::alloc::{AllocError, Global};

/// Whether what is wrong with a segment isn't errors in its elements.
fn is_other(code: SegmentCode) -> bool
    ensures { result ≡ is_other_code code }
{
    match code {
        SegmentCode::ElementErrors => false,
        _ => true,
    }
}

/// Whether a note is on a segment, for another reason than errors in its elements.
fn is_of_no_element(note: &SetNote<'_>) -> bool
    ensures { result ≡ is_other_note (note_view note.now) }
{
    match note {
        SetNote::Segment { code, .. } => is_other(*code),
        SetNote::Element { .. } => false,
    }
}

/// The notes of a transaction set that are kept so far: the first eight; and whether some note is for
/// another reason than errors in elements.
#[derive(Drop)]
pub(crate) struct Notes<'a> {
    kept: Vec<SetNote<'a>>,
    has_other: bool,
    ghost few: { vec_len kept ≤ 8 },
}

impl<'a> Notes<'a> {
    /// No notes yet.
    pub(crate) fn new(alloc: Global) -> Notes<'a>
        ensures { kept_as result.kept.items result.has_other ≡ no_notes }
    {
        Notes {
            kept: Vec::new(alloc),
            has_other: false,
        }
    }

    /// Whether there is no note.
    pub(crate) fn is_empty(&self) -> bool
        ensures { result ≡ (length (map note_view self.now.kept.items) == 0) }
    {
        self.kept.is_empty()
    }

    /// Whether some note is for another reason than errors in elements.
    pub(crate) fn has_other(&self) -> bool
        ensures { result ≡ self.now.has_other }
    {
        self.has_other
    }

    /// The notes themselves.
    pub(crate) fn into_vec(self) -> Vec<SetNote<'a>>
        ensures { map note_view result.items ≡ map note_view self.entry.kept.items }
    {
        let Notes { kept, .. } = self;
        kept
    }

    /// Keeps a note itself, if it is one of the first eight.
    fn keep_first(&mut self, note: SetNote<'a>) -> Result<(), AllocError>
        ensures first { let kept = map note_view self.old.kept.items in
            let more = note_view note.entry ∷ [] in
            OnOk result (map note_view self.new.kept.items ≡ take 8 (kept ++ more)) }
        ensures other { self.new.has_other ≡ self.old.has_other }
    {
        if self.kept.len() < 8 {
            self.kept.push(note)?;
        }
        Ok(())
    }

    /// Keeps what is to be kept of a note.
    #[tactic(auto, unfolding(crate::specs::Keeping::keeping))]
    pub(crate) fn keep(&mut self, note: SetNote<'a>) -> Result<(), AllocError>
        ensures { let kept = kept_as self.old.kept.items self.old.has_other in
            OnOk result (kept_as self.new.kept.items self.new.has_other
            ≡ keeping kept (note_view note.entry ∷ [])) }
    {
        self.has_other |= is_of_no_element(&note);
        self.keep_first(note)
    }

    /// Keeps a note if its condition holds.
    pub(crate) fn keep_if(&mut self, holds: bool, note: SetNote<'a>) -> Result<(), AllocError>
        ensures { let kept = kept_as self.old.kept.items self.old.has_other in
            let row = held_of_rows ((holds, note_view note.entry) ∷ []) in
            OnOk result (kept_as self.new.kept.items self.new.has_other ≡ keeping kept row) }
    {
        if holds { self.keep(note) } else { Ok(()) }
    }
}
