//! What an arrival answers, and the numbers of the closed submissions that its answers may name.

ghost use Rattle.std.specs.Prelude.{◌≡◌, ◌<◌, ℕ, List, Ok, IsTrue, IfOk, IfErr, Some, map, AllPairs};
ghost use Rattle.x12_envelopes.specs.Header.{header_of};
ghost use Rattle.x12_judge.specs.Bound.{IsReadOf};
ghost use Rattle.x12_judge.specs.Verdict.{judgement_view};
ghost use Rattle.x12_acks.specs.Answer.{answer_view};
ghost use Rattle.x12_outbound.specs.Entry.{InterchangeRow};
ghost use Rattle.x12_profile.specs.Reading.{answers_in};
ghost use Rattle.x12_station.specs.Closed.{heard, HoldsNumbers};
ghost use Rattle.x12_station.specs.declared.fault.StationFault.TheVariants.{Store};
ghost use Rattle.x12_station.specs.declared.records.StoreFault.{StoreFault};
ghost use Rattle.x12_station.specs.Fault.{IsOfRecords};
ghost use Rattle.x12_station.specs.Found.{closed_for};
ghost use Rattle.x12_profile.specs.Stop.{CountsFailures};
ghost use Rattle.x12_station.specs.Standing.{WereAsked};

use crate::fault::StationFault;
use crate::older::read_by;
use crate::records::{Records, StoreFault};
use std::alloc::{AllocError, Global};
use x12_acks::{Answer, read_answers};
use x12_envelopes::{Header, Party};
use x12_judge::{Judgement, Reading, Verdict};
use x12_profile::Edition;

/// What an interchange answers; nothing where its segments can't be read.
fn answers_read(
    alloc: Global,
    header: &Header,
    reading: &Reading<'_>,
) -> Result<Vec<Answer>, AllocError>
    ensures { (bytes : List ℕ) → header_of bytes ≡ Ok header.now →
        IsReadOf bytes header.now reading.now →
        IfOk result (λ v. map answer_view v.items ≡ answers_in bytes) }
{
    match reading {
        Ok(outline) => read_answers(alloc, outline, &header.delims),
        Err(_) => Ok(Vec::new(alloc)),
    }
}

/// What a station hears of an arrival that it read and judged so, by this edition: its answers, unless
/// it is refused.
pub(crate) fn answers_heard(
    alloc: Global,
    edition: Edition,
    header: &Header,
    reading: &Reading<'_>,
    judgement: &Judgement,
) -> Result<Vec<Answer>, AllocError>
    ensures { (bytes : List ℕ) → header_of bytes ≡ Ok header.now →
        IsReadOf bytes header.now reading.now →
        let heard_of = heard edition (judgement_view judgement.now).verdict bytes in
        IfOk result (λ v. map answer_view v.items ≡ heard_of) }
{
    match &judgement.verdict {
        Verdict::Refused(_) => Ok(Vec::new(alloc)),
        Verdict::Judged(_) => {
            let answers = answers_read(alloc, header, reading)?;
            read_by(alloc, edition, answers)
        }
    }
}

/// The number of the closed submission that an answer from this party may name.
fn number_named<R: Records>(
    records: &mut R,
    from: &Party,
    answer: &Answer,
) -> Result<Option<u32>, StoreFault>
    requires { R.valid records.old }
    ensures asked { WereAsked R.Records records.old records.new }
    ensures number { IsTrue (R.answers records.new) → IfOk result (λ o. (e : InterchangeRow) →
        closed_for (R.content records.old) from.now (answer_view answer.now) ≡ Some e →
        o ≡ Some e.icn) }

    ensures device { CountsFailures result (λ e. e ≡ StoreFault.Device)
        (R.failed records.old) (R.failed records.new) }
{
    match answer {
        Answer::Interchange {
            icn,
            code: _,
            note: _,
        } => Ok(Some(*icn)),
        Answer::Group {
            functional,
            number,
            code: _,
            sets: _,
        } => match records.find_closed_group(from, *functional, *number)? {
            Some(entry) => Ok(Some(entry.icn)),
            None => Ok(None),
        },
        Answer::Unclear => Ok(None),
    }
}

/// The numbers of the closed submissions that the answers may name, rising.
pub(crate) fn numbers_named<R: Records>(
    records: &mut R,
    alloc: Global,
    from: &Party,
    answers: &[Answer],
) -> Result<Vec<u32>, StationFault>
    requires { R.valid records.old }
    ensures asked { WereAsked R.Records records.old records.new }
    ensures rising { IfOk result (λ v. AllPairs (λ a b. a < b) v.items) }
    ensures numbers { IsTrue (R.answers records.new) → IfOk result (λ v.
        HoldsNumbers (R.content records.old) from.now (map answer_view answers.now) v.items) }

    ensures fault { IfErr result IsOfRecords }
    ensures device { CountsFailures result (λ f. f ≡ Store)
        (R.failed records.old) (R.failed records.new) }
{
    let mut numbers = Vec::new(alloc);
    for answer in answers {
        match number_named(records, from, answer)? {
            Some(icn) => numbers.push(icn)?,
            None => {}
        }
    }
    numbers.sort_unstable();
    numbers.dedup();
    Ok(numbers)
}
