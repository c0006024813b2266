//! Checking a transmission: what is wrong with each of its interchanges.

ghost use Rattle.std.specs.Prelude.{◌≡◌, [], ◌∷◌, IfOk, Ok};
ghost use Rattle.x12_envelopes.specs.Header.{header_of};
ghost use Rattle.x12_judge.specs.Agreement.{agreement_view};
ghost use Rattle.x12_inspect.specs.Checking.{EndsAsChecked, agreements_taken, checking_party};
ghost use Rattle.x12_inspect.specs.Checking.{pairs_taken};

use crate::accepting::accepts_all;
use crate::coded::numbered;
use crate::fault::cause_of;
use crate::inspecting::{Inspector, Outcome, inspect_all};
use crate::remarking::{Remarks, remarks_on};
use crate::report::{Found, Judged, Report, Taken, checked, tell, unreadable};
use crate::slice::{Interchange, Slice};
use crate::standing::{Pairs, standing_pairs};
use crate::style::Style;
use crate::text::Text;
use std::alloc::{AllocError, Global};
use std::io::Write;
use std::slice;
use x12_answering::RunFault;
use x12_envelopes::{Header, Party, read_header};
use x12_judge::{Agreement, Judgement, Verdict, judge};
use x12_lint::Table;

/// What checking is told.
#[derive(Drop)]
pub struct CheckTerms {
    /// The station that checks; `None` where it is the receiver of each interchange.
    pub me: Option<Party>,
    /// Whether sets are accepted whose only errors are in elements, with these noted.
    pub lenient: bool,
    /// GS01 and ST01 of what is taken from every partner, as `PO` and `850`; where none is named, of the
    /// sets that stand in the interchange.
    pub pairs: Vec<([u8; 2], [u8; 3])>,
    /// The table by which sets are remarked on; `None` where that isn't asked.
    pub table: Option<Table>,
}

impl CheckTerms {
    /// The station that checks an interchange with this header.
    fn party(&self, header: &Header) -> Party
        ensures { result ≡ checking_party self.now.me header.now }
    {
        match self.me {
            Some(me) => me,
            None => header.receiver,
        }
    }

    /// GS01 and ST01 of what is taken of an interchange.
    fn pairs(&self, alloc: Global, bytes: &[u8], header: &Header) -> Result<Pairs, AllocError>
        requires read { header_of bytes.now ≡ Ok header.now }
        ensures { IfOk result (λ v. v.items ≡ pairs_taken self.now header.now bytes.now) }
    {
        if self.pairs.as_slice().is_empty() {
            return standing_pairs(alloc, bytes, header);
        }
        Vec::from_slice(alloc, self.pairs.as_slice())
    }

    /// The agreement under which an interchange is checked. What is taken is taken from its sender as
    /// from any other.
    fn agreement(
        &self,
        alloc: Global,
        bytes: &[u8],
        header: &Header,
    ) -> Result<Agreement, AllocError>
        requires read { header_of bytes.now ≡ Ok header.now }
        ensures { IfOk result (λ a.
            agreement_view a ∷ [] ≡ agreements_taken self.now header.now bytes.now) }
    {
        let pairs = self.pairs(alloc, bytes, header)?;
        Ok(Agreement {
            partner: header.sender,
            lenient: self.lenient,
            pairs,
        })
    }

    /// Who checks an interchange, and what is taken under an agreement.
    fn taken<'r>(&self, header: &Header, agreement: &'r Agreement) -> Taken<'r> {
        Taken {
            me: self.party(header),
            is_receiver: self.me.is_none(),
            pairs: agreement.pairs.as_slice(),
            are_standing: self.pairs.is_empty(),
        }
    }

    /// What is found of an interchange that was judged.
    fn found<'r, 'a: 'r>(
        &self,
        alloc: Global,
        at: &Interchange<'r, 'a>,
        taken: Taken<'r>,
        judgement: &'r Judgement<'a>,
    ) -> Result<Found<'r, 'a>, AllocError> {
        match &judgement.verdict {
            Verdict::Refused(note) => {
                let coded = numbered("TA1", u32::from(note.number()));
                let cause = cause_of(alloc, note.number(), &taken.me, at)?;
                Ok(Found::Refused(coded, cause))
            }
            Verdict::Judged(groups) => Ok(Found::Judged(Judged { taken, groups })),
        }
    }

    /// What is remarked of the sets of an interchange that was judged, where that is asked.
    fn remarks(
        &self,
        alloc: Global,
        style: &Style<'_>,
        at: &Interchange<'_, '_>,
        judgement: &Judgement<'_>,
    ) -> Result<Option<Remarks>, AllocError> {
        match (&self.table, &judgement.verdict) {
            (Some(table), Verdict::Judged(groups)) => {
                Ok(Some(remarks_on(alloc, table, style, at, groups)?))
            }
            _ => Ok(None),
        }
    }
}

/// The receiver of interchanges, who checks each.
#[derive(Drop)]
struct Receiver<'t> {
    terms: &'t CheckTerms,
    style: &'t Style<'t>,
}

impl Inspector for Receiver<'_> {
    ghost use Rattle.std.specs.Prelude.{refl};
    ghost use Rattle.std.specs.List.{list_all};
    ghost use Rattle.x12_inspect.specs.Checking.{is_right};

    ghost all_right = { λ r interchanges. list_all (is_right r.terms.now) interchanges };

    #[tactic(auto, unfolding(crate::specs::Checking::is_right))]
    fn inspect(
        &mut self,
        alloc: Global,
        out: &mut Text,
        slice: &Slice<'_>,
    ) -> Result<bool, AllocError> {
        let header = match read_header(slice.bytes) {
            Ok(header) => header,
            Err(fault) => {
                tell(self.style, out, &unreadable(slice, fault));
                return Ok(false);
            }
        };
        let at = slice.with(&header);
        let agreement = self.terms.agreement(alloc, slice.bytes, &header)?;
        let me = self.terms.party(&header);
        let agreements = slice::from_ref(&agreement);
        let judgement = judge(alloc, &me, agreements, slice.bytes, &header)?;
        let taken = self.terms.taken(&header, &agreement);
        let found = self.terms.found(alloc, &at, taken, &judgement)?;
        let accepted = accepts_all(&judgement);
        let remarks = self.terms.remarks(alloc, self.style, &at, &judgement)?;
        let report = Report {
            remarks,
            ..checked(&at, accepted, found)
        };
        tell(self.style, out, &report);
        Ok(accepted)
    }

    ghost of_none = { λ r. refl };

    ghost asked = { λ r interchanges s. Unit {0} };

    ghost at_last = { λ r. tt };
}

/// Checks a transmission as its receiver: writes to `out` what is said of each interchange, in
/// order. All is right exactly where each interchange can be read and is accepted with all its
/// sets.
///
/// On `RunFault::Write` and `RunFault::Memory`, the only errors, what was said of the first
/// interchanges may have been written.
pub fn run_check<W: Write>(
    alloc: Global,
    terms: &CheckTerms,
    style: &Style<'_>,
    input: &[u8],
    out: &mut W,
) -> Result<Outcome, RunFault>
    ensures checked { IfOk result (λ outcome. EndsAsChecked terms.now input.now outcome) }
{
    let mut receiver = Receiver { terms, style };
    inspect_all(alloc, &mut receiver, style.look, input, out)
}
