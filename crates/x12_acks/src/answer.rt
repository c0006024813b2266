//! What an interchange that was read answers: interchanges (X12.5, TA1) and functional groups (997).

ghost use Rattle.std.specs.Prelude.{◌≡◌, ◌++◌, IfOk, OnOk, map, option_map, unwrap_or};
ghost use Rattle.std.specs.Prelude.{if◌then◌else◌};
ghost use Rattle.x12_envelopes.specs.Shape.{set_view, group_view, outline_view};
ghost use Rattle.x12_acks.specs.Statement.{statements_left};
ghost use Rattle.x12_acks.specs.Answer.{is_se_alone, listed_from, between, group_answer_of};
ghost use Rattle.x12_acks.specs.Answer.{unclear, answer_of, set_answer_of, group_answers_of};
ghost use Rattle.x12_acks.specs.Answer.{answers_of, answer_view};

use crate::statement::{Statement, Statements};
use std::alloc::{AllocError, Global};
use x12_envelopes::{AcknowledgmentCode, Delims, GroupView, Outline, SetNo, SetView};

/// How a functional group (AK901) or a transaction set (AK501) fares.
#[derive(Clone, Copy, Debug, PartialEq, Eq)]
pub enum AnswerCode {
    /// `A`: accepted.
    Accepted,
    /// `E`: accepted, but errors were noted.
    ErrorsNoted,
    /// `R`: rejected.
    Rejected,
    /// `M`: rejected, message authentication code (MAC) failed.
    MacFailed,
    /// `W`: rejected, assurance failed validity tests.
    AssuranceFailed,
    /// `X`: rejected, content after decryption could not be analyzed.
    ContentUnreadable,
    /// `P`: partially accepted, at least one transaction set was rejected. Of groups alone.
    PartiallyAccepted,
}

/// What one TA1, or one transaction set of a functional group of acknowledgments (FA), answers.
#[derive(Debug, Drop)]
pub enum Answer {
    /// TA1.
    Interchange {
        /// TA101, the control number of the interchange that is answered.
        icn: u32,
        /// TA104.
        code: AcknowledgmentCode,
        /// TA105, the note: 0 to 999.
        note: u16,
    },
    /// A 997.
    Group {
        /// AK101, the functional identifier code of the group that is answered.
        functional: [u8; 2],
        /// AK102, the group's control number: 0 to 999999999.
        number: u32,
        /// AK901.
        code: AnswerCode,
        /// The listed transaction sets, each by its control number (AK202), with AK501.
        sets: Vec<(SetNo, AnswerCode)>,
    },
    /// A transaction set in a functional group of acknowledgments that isn't a 997 which can be read.
    Unclear,
}

/// Where the reading of a 997 stands.
#[derive(Clone, Copy)]
enum Place {
    /// Behind AK1 or AK5: AK2 or AK9 may follow.
    Between,
    /// In an answered transaction set: AK3 or AK5 may follow, and AK4 behind an AK3.
    InSet {
        /// AK202.
        number: SetNo,
        /// Whether an AK3 stands before.
        noted: bool,
    },
}

/// Whether SE follows, and nothing behind it.
fn is_end(statements: Statements) -> bool
    ensures { result ≡ is_se_alone (statements_left statements.entry) }
{
    let mut statements = statements;
    match statements.next() {
        Some(Statement::Se) => statements.next().is_none(),
        _ => false,
    }
}

/// What a 997 answers, at its AK9: unclear, unless SE follows and nothing behind it.
fn read_end(
    statements: Statements,
    functional: [u8; 2],
    number: u32,
    code: AnswerCode,
    sets: Vec<(SetNo, AnswerCode)>,
) -> Answer
    ensures { answer_view result ≡
        let answer = answer_view (Answer.Group functional number code sets) in
        if is_se_alone (statements_left statements.entry) then answer else unclear }
{
    if is_end(statements) {
        return Answer::Group {
            functional,
            number,
            code,
            sets,
        };
    }
    Answer::Unclear
}

/// Reads what a 997 says behind AK1.
fn read_listed(
    alloc: Global,
    statements: Statements,
    functional: [u8; 2],
    number: u32,
) -> Result<Answer, AllocError>
    ensures { IfOk result (λ a. answer_view a ≡
        unwrap_or (option_map (group_answer_of functional number)
        (listed_from between (statements_left statements.entry))) unclear) }
{
    let mut statements = statements;
    let mut place = Place::Between;
    let mut sets = Vec::new(alloc);
    while let Some(statement) = statements.next() {
        match place {
            Place::Between => match statement {
                Statement::Ak2(number) => place = Place::InSet {
                    number,
                    noted: false,
                },
                Statement::Ak9(code) => {
                    return Ok(read_end(statements, functional, number, code, sets));
                }
                _ => return Ok(Answer::Unclear),
            },
            Place::InSet { number, noted } => match statement {
                Statement::Ak3 => place = Place::InSet {
                    number,
                    noted: true,
                },
                Statement::Ak4 => {
                    if !noted {
                        return Ok(Answer::Unclear);
                    }
                }
                Statement::Ak5(code) => {
                    sets.push((number, code))?;
                    place = Place::Between;
                }
                _ => return Ok(Answer::Unclear),
            },
        }
    }
    Ok(Answer::Unclear)
}

/// Reads what a transaction set answers, by what its segments state.
fn read_statements(alloc: Global, statements: Statements) -> Result<Answer, AllocError>
    ensures { IfOk result (λ a. answer_view a ≡ answer_of (statements_left statements.entry)) }
{
    let mut statements = statements;
    let Some(first) = statements.next() else {
        return Ok(Answer::Unclear);
    };
    let Some(second) = statements.next() else {
        return Ok(Answer::Unclear);
    };
    match first {
        Statement::St => match second {
            Statement::Ak1 { functional, number } => {
                read_listed(alloc, statements, functional, number)
            }
            _ => Ok(Answer::Unclear),
        },
        _ => Ok(Answer::Unclear),
    }
}

/// Reads what a transaction set in a group of acknowledgments answers.
#[tactic(auto, unfolding(crate::specs::Answer::set_answer_of))]
fn read_set(alloc: Global, set: &SetView, delims: &Delims) -> Result<Answer, AllocError>
    ensures { IfOk result (λ a.
        answer_view a ≡ set_answer_of delims.now (set_view delims.now set.now)) }
{
    read_statements(
        alloc,
        Statements {
            segments: set.segments(delims),
        },
    )
}

/// Reads what a functional group answers, behind these answers.
#[tactic(auto, unfolding(crate::specs::Answer::group_answers_of))]
fn read_group(
    alloc: Global,
    answers: &mut Vec<Answer>,
    group: &GroupView,
    delims: &Delims,
) -> Result<(), AllocError>
    ensures { OnOk result (map answer_view answers.new.items ≡ map answer_view answers.old.items
        ++ group_answers_of delims.now (group_view delims.now group.now)) }
{
    if group.functional == *b"FA" {
        for set in &group.sets {
            answers.push(read_set(alloc, set, delims)?)?;
        }
    }
    Ok(())
}

/// Reads what an interchange answers: its TA1s, and the transaction sets of its groups of
/// acknowledgments (FA), in their order. Reads each set once.
#[tactic(auto, unfolding(crate::specs::Answer::answers_of))]
pub fn read_answers(
    alloc: Global,
    outline: &Outline,
    delims: &Delims,
) -> Result<Vec<Answer>, AllocError>
    ensures answers { IfOk result (λ v.
        map answer_view v.items ≡ answers_of delims.now (outline_view delims.now outline.now)) }
{
    let mut answers = Vec::new(alloc);
    for ta1 in &outline.tas {
        answers.push(Answer::Interchange {
            icn: ta1.icn,
            code: ta1.code,
            note: ta1.note,
        })?;
    }
    for group in &outline.groups {
        read_group(alloc, &mut answers, group, delims)?;
    }
    Ok(answers)
}
