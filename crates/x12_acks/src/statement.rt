//! The segments of a 997 (functional acknowledgment), and what each states.

ghost use Rattle.std.specs.Prelude.{◌≡◌};
ghost use Rattle.std.specs.Iterator.{YieldsFirstBy, item_count};
ghost use Rattle.x12_envelopes.specs.Segment.{elements_of};
ghost use Rattle.x12_acks.specs.Statement.{statement_view, statements_left, statement_of};
ghost use Rattle.x12_acks.specs.Statement.{statement_by, st_statement, ak1_statement};
ghost use Rattle.x12_acks.specs.Statement.{ak2_statement, ak5_statement, ak9_statement};
ghost use Rattle.x12_acks.specs.Statement.{set_answer_code, group_answer_code};

use crate::answer::AnswerCode;
use x12_envelopes::{Segment, Segments, SetNo, number_of};

/// A segment of a 997, and what it states.
#[derive(Clone, Copy)]
pub(crate) enum Statement {
    /// ST of a 997.
    St,
    /// AK1: the functional group that is answered.
    Ak1 {
        /// AK101.
        functional: [u8; 2],
        /// AK102.
        number: u32,
    },
    /// AK2: an answered transaction set, by AK202.
    Ak2(SetNo),
    /// AK3.
    Ak3,
    /// AK4.
    Ak4,
    /// AK5: how the transaction set fares.
    Ak5(AnswerCode),
    /// AK9: how the functional group fares.
    Ak9(AnswerCode),
    /// SE.
    Se,
    /// Any other segment, or one whose elements can't be read.
    Other,
}

/// How a transaction set fares, by AK501.
#[tactic(auto, unfolding(crate::specs::Statement::set_answer_code))]
fn set_code(text: &[u8]) -> Option<AnswerCode>
    ensures { result ≡ set_answer_code text.now }
{
    match text {
        b"A" => Some(AnswerCode::Accepted),
        b"E" => Some(AnswerCode::ErrorsNoted),
        b"R" => Some(AnswerCode::Rejected),
        b"M" => Some(AnswerCode::MacFailed),
        b"W" => Some(AnswerCode::AssuranceFailed),
        b"X" => Some(AnswerCode::ContentUnreadable),
        _ => None,
    }
}

/// How a functional group fares, by AK901.
#[tactic(auto, unfolding(crate::specs::Statement::group_answer_code))]
fn group_code(text: &[u8]) -> Option<AnswerCode>
    ensures { result ≡ group_answer_code text.now }
{
    match text {
        b"P" => Some(AnswerCode::PartiallyAccepted),
        _ => set_code(text),
    }
}

/// What ST states, by ST01.
#[tactic(auto, unfolding(crate::specs::Statement::st_statement))]
fn st(set: &[u8]) -> Statement
    ensures { statement_view result ≡ st_statement set.now }
{
    match set {
        b"997" => Statement::St,
        _ => Statement::Other,
    }
}

/// What AK1 states, by AK101 and AK102.
#[tactic(auto, unfolding(crate::specs::Statement::ak1_statement))]
fn ak1(functional: &[u8], number: &[u8]) -> Statement
    ensures { statement_view result ≡ ak1_statement functional.now number.now }
{
    let [first, second] = *functional else {
        return Statement::Other;
    };
    match number_of(number) {
        Some(number) => Statement::Ak1 {
            functional: [first, second],
            number,
        },
        None => Statement::Other,
    }
}

/// What AK2 states, by AK202.
#[tactic(auto, unfolding(crate::specs::Statement::ak2_statement))]
fn ak2(number: &[u8]) -> Statement
    ensures { statement_view result ≡ ak2_statement number.now }
{
    match SetNo::new(number) {
        Some(number) => Statement::Ak2(number),
        None => Statement::Other,
    }
}

/// What AK5 states, by AK501.
#[tactic(auto, unfolding(crate::specs::Statement::ak5_statement))]
fn ak5(code: &[u8]) -> Statement
    ensures { statement_view result ≡ ak5_statement code.now }
{
    match set_code(code) {
        Some(code) => Statement::Ak5(code),
        None => Statement::Other,
    }
}

/// What AK9 states, by AK901.
#[tactic(auto, unfolding(crate::specs::Statement::ak9_statement))]
fn ak9(code: &[u8]) -> Statement
    ensures { statement_view result ≡ ak9_statement code.now }
{
    match group_code(code) {
        Some(code) => Statement::Ak9(code),
        None => Statement::Other,
    }
}

/// What a segment with this identifier and these first two elements states.
#[tactic(auto, unfolding(crate::specs::Statement::statement_by))]
fn stated(identifier: &[u8], first: &[u8], second: &[u8]) -> Statement
    ensures { statement_view result ≡ statement_by identifier.now first.now second.now }
{
    match identifier {
        b"ST" => st(first),
        b"AK1" => ak1(first, second),
        b"AK2" => ak2(second),
        b"AK3" => Statement::Ak3,
        b"AK4" => Statement::Ak4,
        b"AK5" => ak5(first),
        b"AK9" => ak9(first),
        b"SE" => Statement::Se,
        _ => Statement::Other,
    }
}

/// What a segment states.
#[tactic(auto, unfolding(crate::specs::Statement::statement_of, x12_envelopes::specs::Segment::element_of))]
fn stated_by(read: &Segment) -> Statement
    ensures { statement_view result
        ≡ statement_of (elements_of read.now.delims read.now.bytes.now) }
{
    stated(read.identifier(), read.element(1), read.element(2))
}

/// The segments of a transaction set that are still to come, each with what it states in a 997.
#[derive(Clone, Copy)]
pub(crate) struct Statements<'a> {
    pub(crate) segments: Segments<'a>,
}

impl<'a> Iterator for Statements<'a> {
    type Item = Statement;

    ghost next_gives = { YieldsFirstBy statement_view statements_left };

    ghost remaining = { item_count statements_left };

    fn next(&mut self) -> Option<Statement> {
        let read = self.segments.next()?;
        Some(stated_by(&read))
    }
}
