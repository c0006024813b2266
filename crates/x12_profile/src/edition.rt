//! The edition of the rules by which a station judges and reads an arrival.

ghost use Rattle.std.specs.Prelude.{◌≡◌, ℕ, ◌+◌, List, IfOk, map};
ghost use Rattle.x12_judge.specs.Agreement.{agreement_view};
ghost use Rattle.x12_judge.specs.Bound.{IsReadOf, IsSmall};
ghost use Rattle.x12_judge.specs.Verdict.{judgement_view};
ghost use Rattle.x12_profile.specs.Edition.{controls_of, edition_at};
ghost use Rattle.x12_profile.specs.Marking.{marks_view};
ghost use Rattle.x12_profile.specs.X12.{judged_by};

use std::alloc::{AllocError, Global};
use x12_envelopes::{Header, Party};
use x12_judge::{Agreement, Controls, Judgement, Reading, judge_reading};

/// An edition of the rules by which a station judges and reads an arrival.
#[derive(Clone, Copy)]
pub enum Edition {
    /// 004010, in envelopes of the control versions 00200 to 00401; a set that an acknowledgment lists as
    /// accepted with errors noted is read as accepted.
    First,
    /// The same, but it is read as noted.
    Second,
    /// The same, in envelopes of the control versions 00200 to 00501.
    Third,
}

/// Up to which numbers of a station's history arrivals are judged and read in an older way.
#[derive(Clone, Copy)]
pub struct Marks {
    /// Up to this one a set with errors noted is read as accepted.
    pub noted: u64,
    /// Up to this one the control versions 00402 to 00501 are refused.
    pub era: u64,
}

impl Edition {
    /// The edition of what has this number, from 1, in a station's history.
    #[tactic(auto, unfolding(crate::specs::Edition::edition_at))]
    pub fn at(marks: Marks, number: u64) -> Edition
        ensures { result ≡ edition_at (marks_view marks) number }
    {
        if number <= marks.noted {
            return Edition::First;
        }
        if number <= marks.era {
            return Edition::Second;
        }
        Edition::Third
    }

    /// The edition of what comes next where this number is the last in a station's history.
    #[tactic(auto, unfolding(crate::specs::Edition::edition_at))]
    pub fn after(marks: Marks, last: u64) -> Edition
        ensures { result ≡ edition_at (marks_view marks) (last + 1) }
    {
        if last < marks.noted {
            return Edition::First;
        }
        if last < marks.era {
            return Edition::Second;
        }
        Edition::Third
    }

    /// The versions of the interchange controls that this edition takes.
    pub fn controls(self) -> Controls
        ensures { result ≡ controls_of self }
    {
        match self {
            Edition::First | Edition::Second => Controls::Until401,
            Edition::Third => Controls::Until501,
        }
    }

    /// What an interchange deserves at this station, under these agreements, by this edition: by
    /// what was read of it, as `read_interchange` gives it. Answers an error for want of memory alone.
    pub fn judge<'a>(
        self,
        alloc: Global,
        me: &Party,
        agreements: &[Agreement],
        header: &Header,
        reading: &Reading<'a>,
    ) -> Result<Judgement<'a>, AllocError>
        requires small { IfOk reading.now IsSmall }
        ensures { (bytes : List ℕ) → IsReadOf bytes header.now reading.now →
            let ags = map agreement_view agreements.now in IfOk result (λ j.
            judgement_view j ≡ judged_by self me.now ags header.now bytes) }
    {
        judge_reading(alloc, me, agreements, self.controls(), header, reading)
    }
}
