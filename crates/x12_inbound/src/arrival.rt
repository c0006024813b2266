//! An interchange that arrived under a number that its sender hadn't used: judged, and then kept
//! with its reply and its postings, all together.
ghost use Rattle.std.specs.Prelude.{◌≡◌, IfOk, IfErr, map};
ghost use Rattle.x12_judge.specs.Verdict.{judgement_view};
ghost use Rattle.x12_inbound.specs.Filing.{filed_under, reply_bytes};
ghost use Rattle.x12_inbound.specs.Posting.{posting_view};
ghost use Rattle.x12_inbound.specs.Arrival.{arrived_view, ArePostingsOf, HasDueReply, filing_of};

use crate::filing::{Filed, FiledRow};
use crate::posting::{Posting, make_postings};
use std::alloc::{AllocError, Global};
use std::marker::Model;
use x12_envelopes::Party;
use x12_judge::{Judgement, judgements_are_small};

/// An interchange that arrived, and is to be judged. It may be let go: nothing was written yet.
#[derive(Drop)]
pub struct Arrived<'a> {
    pub(crate) partner: Party,
    pub(crate) icn: u32,
    pub(crate) bytes: &'a [u8],
}

/// An interchange that was judged, with its reply and its postings. It has no `Drop`: what was
/// judged is kept, reply and postings together.
#[must_use]
pub struct Judged {
    kept: Kept,
}

/// An interchange that is kept, with its reply and its postings. It has no `Drop`: a register takes
/// it ([`Register::add`](crate::Register::add)), or gives it back.
#[must_use]
#[derive(Debug)]
pub struct Kept {
    pub(crate) row: FiledRow,
    pub(crate) postings: Vec<Posting>,
}

impl Model for Kept {
    ghost use Rattle.std.specs.Prelude.{map};
    ghost use Rattle.x12_inbound.specs.Filing.{filed_row_view};
    ghost use Rattle.x12_inbound.specs.Posting.{posting_view};
    ghost use Rattle.x12_inbound.specs.Arrival.{Filing, ArePostingsOf};

    ghost Value = { Filing };

    ghost view = { λ k. record {
      filed = filed_row_view k.row;
      postings = map posting_view k.postings.items;
    } };

    ghost invariant = { λ k. ArePostingsOf (filed_row_view k.row) (map posting_view k.postings.items) };
}

impl Model for Judged {
    ghost use Rattle.x12_inbound.specs.Arrival.{Filing};

    ghost Value = { Filing };

    ghost view = { λ j. j.kept };
}

impl<'a> Arrived<'a> {
    /// Judges an interchange: its postings are the accepted transaction sets of this judgement,
    /// which is of its bytes, and its reply is the reply to it; `None` where none is due. A refused
    /// interchange has no postings.
    ///
    /// Where memory is missing all comes back.
    pub fn judge(
        self,
        alloc: Global,
        judgement: &Judgement,
        reply: Option<Vec<u8>>,
    ) -> Result<Judged, (Arrived<'a>, Option<Vec<u8>>, AllocError)>
        requires { HasDueReply (arrived_view self) (judgement_view judgement.now)
            (reply_bytes reply) }
        ensures judged { IfOk result (λ j.
            j ≡ filing_of (arrived_view self.entry) (judgement_view judgement.now)
            (reply_bytes reply)) }

        ensures back { IfErr result (λ e.
            (arrived_view e.0 ≡ arrived_view self.entry) × (e.1 ≡ reply)) }
    {
        // law: what an interchange deserves is small, so that its places have numbers
        judgements_are_small();
        let Ok(postings) = make_postings(alloc, &self.partner, self.icn, judgement) else {
            return Err((self, reply, AllocError));
        };
        let Ok(bytes) = Vec::from_slice(alloc, self.bytes) else {
            return Err((self, reply, AllocError));
        };
        let row = FiledRow {
            partner: self.partner,
            icn: self.icn,
            filed: Filed { bytes, reply },
        };
        Ok(Judged {
            kept: Kept { row, postings },
        })
    }
}

impl Judged {
    /// Keeps what was judged: the interchange, its reply and its postings.
    pub fn keep(self) -> Kept
        ensures { result ≡ self }
    {
        let Judged { kept } = self;
        kept
    }
}

impl Kept {
    /// The partner, the number, what is filed under them, and the postings by rising key.
    pub fn view(&self) -> (&Party, u32, &Filed, &[Posting])
        ensures filed { filed_under result.0.now result.1 result.2.now ≡ self.now.filed }
        ensures postings { map posting_view result.3.now ≡ self.now.postings }
        ensures theirs { ArePostingsOf self.now.filed self.now.postings }
    {
        (
            &self.row.partner,
            self.row.icn,
            &self.row.filed,
            &self.postings,
        )
    }

    /// Gives up what was kept: a register or records hold it already, or a commit refused it.
    pub fn discard(self) {
        let Kept {
            row: _,
            postings: _,
        } = self;
    }
}
