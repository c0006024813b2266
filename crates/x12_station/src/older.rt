//! Answers as an edition reads them.

ghost use Rattle.std.specs.Prelude.{◌≡◌, IfOk, map};
ghost use Rattle.x12_acks.specs.Answer.{answer_view, set_answer_view};
ghost use Rattle.x12_station.specs.Older.{answer_before, answers_as_read, code_before};
ghost use Rattle.x12_station.specs.Older.{set_answer_before};

use std::alloc::{AllocError, Global};
use x12_acks::{Answer, AnswerCode};
use x12_envelopes::SetNo;
use x12_profile::Edition;

/// AK501 as it was read before errors were told as noted.
fn older_code(code: AnswerCode) -> AnswerCode
    ensures { result ≡ code_before code }
{
    match code {
        AnswerCode::ErrorsNoted => AnswerCode::Accepted,
        _ => code,
    }
}

/// The answer for a listed transaction set, as it was read before.
fn older_set(set: &(SetNo, AnswerCode)) -> (SetNo, AnswerCode)
    ensures { set_answer_view result ≡ set_answer_before (set_answer_view set.now) }
{
    let (number, code) = *set;
    (number, older_code(code))
}

/// The answers for listed transaction sets, as they were read before.
fn older_sets(
    alloc: Global,
    sets: &[(SetNo, AnswerCode)],
) -> Result<Vec<(SetNo, AnswerCode)>, AllocError>
    ensures { IfOk result (λ v. map set_answer_view v.items
        ≡ map set_answer_before (map set_answer_view sets.now)) }
{
    let mut older = Vec::new(alloc);
    for set in sets {
        older.push(older_set(set))?;
    }
    Ok(older)
}

/// An answer as it was read before.
fn older_answer(alloc: Global, answer: &Answer) -> Result<Answer, AllocError>
    ensures { IfOk result (λ a. answer_view a ≡ answer_before (answer_view answer.now)) }
{
    match answer {
        Answer::Interchange { icn, code, note } => Ok(Answer::Interchange {
            icn: *icn,
            code: *code,
            note: *note,
        }),
        Answer::Group {
            functional,
            number,
            code,
            sets,
        } => Ok(Answer::Group {
            functional: *functional,
            number: *number,
            code: *code,
            sets: older_sets(alloc, sets)?,
        }),
        Answer::Unclear => Ok(Answer::Unclear),
    }
}

/// Answers as they were read before.
fn older_answers(alloc: Global, answers: &[Answer]) -> Result<Vec<Answer>, AllocError>
    ensures { IfOk result (λ v. map answer_view v.items
        ≡ map answer_before (map answer_view answers.now)) }
{
    let mut older = Vec::new(alloc);
    for answer in answers {
        older.push(older_answer(alloc, answer)?)?;
    }
    Ok(older)
}

/// Answers as this edition reads them.
pub(crate) fn read_by(
    alloc: Global,
    edition: Edition,
    answers: Vec<Answer>,
) -> Result<Vec<Answer>, AllocError>
    ensures { IfOk result (λ v. map answer_view v.items
        ≡ answers_as_read edition (map answer_view answers.items)) }
{
    match edition {
        Edition::First => older_answers(alloc, &answers),
        Edition::Second | Edition::Third => Ok(answers),
    }
}
