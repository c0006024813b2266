//! Going over what was judged, part by part: the one walk of all that print what is wrong. Whatever
//! prints, it is handed each finding once, in order.

ghost use Rattle.std.specs.Prelude.{◌≡◌, List, [], ◌∷◌, ◌++◌, map, flat_map};
ghost use Rattle.x12_judge.specs.Verdict.{group_verdict_view, set_verdict_view, note_view};
ghost use Rattle.x12_inspect.specs.Finding.{CheckFinding, of_note, refusal_findings};
ghost use Rattle.x12_inspect.specs.Finding.{is_without_errors, error_findings, set_findings};
ghost use Rattle.x12_inspect.specs.Finding.{group_findings};

use crate::coded::{Coded, numbered};
use crate::text::Text;
use x12_judge::{
    ElementRule, GroupVerdict, SegmentCode, SetNote, SetResult, SetVerdict, element_rules,
};

/// A set that was judged, where it stands.
#[derive(Clone, Copy)]
pub(crate) struct JudgedSet<'j, 'a> {
    pub group: &'j GroupVerdict<'a>,
    /// Its place in its group, from 1.
    pub place: usize,
    pub set: &'j SetVerdict<'a>,
}

impl JudgedSet<'_, '_> {
    /// Whether it is accepted, and no error of it was noted.
    pub(crate) fn is_without_errors(&self) -> bool
        ensures { result ≡ is_without_errors self.now.set.now.result }
    {
        match self.set.result {
            SetResult::Accepted => true,
            SetResult::Noted | SetResult::Rejected => false,
        }
    }
}

/// A note of a set, with the segment that it is of.
#[derive(Clone, Copy)]
pub(crate) struct Noted<'j, 'a> {
    /// The segment's identifier, at most three bytes.
    pub identifier: &'a [u8],
    /// The segment's position in the set: ST is 1.
    pub position: u32,
    /// The note.
    pub note: &'j SetNote<'a>,
    /// Whether it says nothing but that elements of its segment are noted next.
    pub is_heading: bool,
}

impl Noted<'_, '_> {
    /// The family of its code.
    pub(crate) fn family(&self) -> &'static str {
        match self.note {
            SetNote::Segment { .. } => "AK304",
            SetNote::Element { .. } => "AK403",
        }
    }

    /// Its code, with what it says.
    pub(crate) fn coded(&self) -> Coded<'static> {
        let number = match self.note {
            SetNote::Segment { code, .. } => code.number(),
            SetNote::Element { code, .. } => code.number(),
        };
        numbered(self.family(), u32::from(number))
    }

    /// The rule of the element at a place of its segment.
    pub(crate) fn rule(&self, place: u8) -> Option<&'static ElementRule> {
        for rule in element_rules() {
            if rule.place == place && rule.segment.as_slice() == self.identifier {
                return Some(rule);
            }
        }
        None
    }
}

/// Why a group is refused as a whole, if it is.
pub(crate) fn refusal(group: &GroupVerdict<'_>) -> Option<Coded<'static>> {
    match group.refused {
        Some(why) => Some(numbered("AK905", u32::from(why.number()))),
        None => None,
    }
}

/// A note of a set, of this segment unless it names its own; and what is noted next.
pub(crate) fn note_behind<'j, 'a>(
    identifier: &'a [u8],
    position: u32,
    note: &'j SetNote<'a>,
    next: Option<&SetNote<'_>>,
) -> Noted<'j, 'a>
    ensures { result.note.now ≡ note.now }
{
    match note {
        SetNote::Segment {
            identifier,
            position,
            code,
        } => Noted {
            identifier: *identifier,
            position: *position,
            note,
            is_heading: *code == SegmentCode::ElementErrors
                && matches!(next, Some(SetNote::Element { .. })),
        },
        SetNote::Element { .. } => Noted {
            identifier,
            position,
            note,
            is_heading: false,
        },
    }
}

/// What prints the parts of a judgement, as they come.
pub(crate) trait Printer {
    ghost use Rattle.x12_inspect.specs.declared.text.Text.{Text};

    /// From one text to another it was handed these findings, in order.
    ghost prints: { Self → Text → List CheckFinding → Text → Type 0 };

    /// Prints a group, up to its sets.
    fn group(&self, out: &mut Text, group: &GroupVerdict<'_>)
        ensures { let g = group_verdict_view group.now in
            prints self.now out.old (refusal_findings g g.refused) out.new };

    /// Prints a set of the group before, up to its notes.
    fn set(&self, out: &mut Text, at: &JudgedSet<'_, '_>)
        ensures { prints self.now out.old (error_findings
            (group_verdict_view at.now.group.now) at.now.place (set_verdict_view at.now.set.now)) out.new };

    /// Prints a note of the set before, which has errors.
    fn note(&self, out: &mut Text, at: &JudgedSet<'_, '_>, note: &Noted<'_, '_>)
        ensures { prints self.now out.old (of_note (note_view note.now.note.now) ∷ []) out.new };

    /// Ends a set, or a group.
    fn leave(&self, out: &mut Text)
        ensures { prints self.now out.old [] out.new };

    // it was handed nothing where nothing is printed, and these findings, then those
    ghost at_first: { (printer : Self) → (t : Text) → prints printer t [] t };

    ghost behind: { (printer : Self) → (t u v : Text) → (found more : List CheckFinding) →
        prints printer t found u → prints printer u more v → prints printer t (found ++ more) v };
}

/// Prints the notes of a set, in order.
fn print_notes<P: Printer>(printer: &P, out: &mut Text, at: &JudgedSet<'_, '_>)
    ensures { P.prints printer.now out.old
        (map of_note (map note_view at.now.set.now.notes.items)) out.new }
{
    let notes = &at.set.notes;
    let mut identifier: &[u8] = &[];
    let mut position = 0;
    for (index, note) in notes.iter().enumerate() {
        let one = note_behind(identifier, position, note, notes.get(index + 1));
        identifier = one.identifier;
        position = one.position;
        printer.note(out, at, &one);
    }
}

/// Prints a set, with its notes where it has errors.
fn print_set<P: Printer>(printer: &P, out: &mut Text, at: &JudgedSet<'_, '_>)
    ensures { P.prints printer.now out.old (set_findings
        (group_verdict_view at.now.group.now) at.now.place (set_verdict_view at.now.set.now)) out.new }
{
    printer.set(out, at);
    if at.is_without_errors() {
        return printer.leave(out);
    }
    print_notes(printer, out, at);
    printer.leave(out)
}

/// Prints a group with its sets, in order.
fn print_group<P: Printer>(printer: &P, out: &mut Text, group: &GroupVerdict<'_>)
    ensures { P.prints printer.now out.old (group_findings (group_verdict_view group.now)) out.new }
{
    printer.group(out, group);
    for (index, set) in group.sets.iter().enumerate() {
        let place = index + 1;
        print_set(printer, out, &JudgedSet { group, place, set });
    }
    printer.leave(out);
}

/// Prints groups, in order: each finding once.
pub(crate) fn print_groups<P: Printer>(printer: &P, out: &mut Text, groups: &[GroupVerdict<'_>])
    ensures { P.prints printer.now out.old
        (flat_map group_findings (map group_verdict_view groups.now)) out.new }
{
    for group in groups {
        print_group(printer, out, group);
    }
}
