//! What holds of every judgement: laws, as functions that do nothing.

ghost use Rattle.x12_judge.specs.Laws.{JudgedIsRead, JudgementsAreSmall, NotesRise};

/// The law that a judgement is small: a note of at most three digits, or at most 32 groups with at
/// most 400 transaction sets in all, each with at most six codes and eight notes.
pub fn judgements_are_small()
    ensures small { JudgementsAreSmall }
{}

/// The law that an interchange which is judged group by group has an outline.
pub fn judged_is_read()
    ensures read { JudgedIsRead }
{}

/// The law that the notes of a set rise: by the segment's position, then by what is wrong with it,
/// then by its identifier; and those on its elements by their places. So none stands twice.
pub fn notes_rise()
    ensures rise { NotesRise }
{}
