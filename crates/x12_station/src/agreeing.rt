//! Trading partner agreements: one for a partner, in which each pair stands once.

ghost use Rattle.std.specs.Prelude.{◌≡◌, ◌∷◌, [], ◌++◌, ◌<◌, ◌≤◌, not, map};
ghost use Rattle.std.specs.Prelude.{IfOk, vec_len, vec_capacity, if◌then◌else◌};
ghost use Rattle.x12_judge.specs.Agreement.{agreement_view, is_same_party};
ghost use Rattle.x12_station.specs.Station.{agreed, each_once, is_empty, of_others};
ghost use Rattle.std.specs.Prelude.{IsTrue, IfErr, OnOk, OnErr, Some};
ghost use Rattle.x12_station.specs.declared.fault.StationFault.TheVariants.{Store};
ghost use Rattle.x12_station.specs.working.Agreeing.{stored_agreed, IsMemoryAgreed, IsSameButRoom};
ghost use Rattle.x12_station.specs.Durable.{IsHistoryOf};
ghost use Rattle.x12_station.specs.Fault.{IsOfRecords};
ghost use Rattle.x12_station.specs.Keeps.{Caches};
ghost use Rattle.x12_profile.specs.Stop.{CountsFailures};
ghost use Rattle.x12_station.specs.Plan.{Agrees};
ghost use Rattle.x12_station.specs.Seen.{KeepsDisk};
ghost use Rattle.x12_station.specs.Standing.{MayLeave, WereUsed};
ghost use Rattle.x12_station.specs.Stopped.{LeavesWhole};

use crate::cached::Cached;
use crate::fault::StationFault;
use crate::plan::{Change, Planned};
use crate::records::Records;
use crate::station::Station;
use crate::writing::write;
use indexmap::IndexSet;
use std::alloc::{AllocError, Global};
use x12_envelopes::Party;
use x12_judge::Agreement;

/// GS01 and ST01 of what is taken.
type Pair = ([u8; 2], [u8; 3]);

/// The pairs, each where it stands first.
fn first_ones(alloc: Global, pairs: &[Pair]) -> Result<Vec<Pair>, AllocError>
    ensures { IfOk result (λ v. v.items ≡ each_once pairs.now) }
{
    let mut first = IndexSet::new(alloc);
    for pair in pairs {
        first.insert(*pair)?;
    }
    Vec::from_slice(alloc, first.as_slice())
}

/// A copy of an agreement, in which each pair stands once.
pub(crate) fn each_pair_once(alloc: Global, agreement: &Agreement) -> Result<Agreement, AllocError>
    ensures { IfOk result (λ a. agreement_view a ≡ record {
      partner = (agreement_view agreement.now).partner;
      lenient = (agreement_view agreement.now).lenient;
      pairs = each_once (agreement_view agreement.now).pairs;
    }) }
{
    Ok(Agreement {
        partner: agreement.partner,
        lenient: agreement.lenient,
        pairs: first_ones(alloc, &agreement.pairs)?,
    })
}

/// Puts an agreement in the place of its partner's earlier one; one without pairs withdraws it.
pub(crate) fn put(agreements: &mut Vec<Agreement>, agreement: Agreement)
    requires { vec_len agreements.old < vec_capacity agreements.old }
    ensures { map agreement_view agreements.new.items
        ≡ (if is_empty (agreement_view agreement).pairs
        then of_others agreement.partner (map agreement_view agreements.old.items)
        else of_others agreement.partner (map agreement_view agreements.old.items)
        ++ agreement_view agreement ∷ []) }
{
    leave(agreements, agreement.partner);
    if !agreement.pairs.is_empty() {
        agreements.push_reserved(agreement);
    }
}

/// Whether an agreement is with another party.
fn is_with_other(agreement: &Agreement, party: &Party) -> bool
    ensures { result ≡ not (is_same_party agreement.now.partner party.now) }
{
    agreement.partner.qualifier != party.qualifier || agreement.partner.id != party.id
}

/// Takes a partner's agreement out.
fn leave(agreements: &mut Vec<Agreement>, partner: Party)
    ensures others { map agreement_view agreements.new.items
        ≡ of_others partner (map agreement_view agreements.old.items) }
    ensures len { vec_len agreements.new ≤ vec_len agreements.old }
    ensures capacity { vec_capacity agreements.new ≡ vec_capacity agreements.old }
{
    agreements.retain(
        |agreement: &Agreement| -> bool
            ensures { result ≡ not (is_same_party agreement.now.partner partner) }
        { is_with_other(agreement, &partner) },
    );
}

/// Makes an agreement: one commit, and then the same in memory.
fn agree<R: Records>(
    records: &mut R,
    memory: &mut Cached,
    agreement: Agreement,
) -> Result<(), StationFault>
    requires valid { R.valid records.old }
    requires durable { IsTrue (R.answers records.old) → Caches memory.old (R.content records.old)
        × IsHistoryOf memory.old.ledger.holds.me memory.old.ledger.holds.hubs (R.content records.old) }
    ensures used { WereUsed R.Records records.old records.new }
    ensures agreed { IsTrue (R.answers records.new) → OnOk result
        (R.content records.new ≡ stored_agreed (agreement_view agreement) (R.content records.old)) }
    ensures crash { MayLeave R.Records (record {
      book = memory.old.book;
      seq = memory.old.seq;
      change = Agrees (agreement_view agreement);
    }) result records.old records.new }
    ensures memory { OnOk result
        (IsMemoryAgreed (agreement_view agreement) memory.old memory.new) }

    ensures unchanged { OnErr result (IsSameButRoom memory.old memory.new
        × (IsTrue (R.answers records.new) →
        R.content records.new ≡ R.content records.old)) }
    ensures fault { IfErr result IsOfRecords × CountsFailures result (λ f. f ≡ Store)
        (R.failed records.old) (R.failed records.new) }
{
    let kept = each_pair_once(memory.alloc, &agreement)?;
    memory.agreements.reserve(1)?;
    let plan = Planned::new(memory.book, memory.seq, Change::Agreed(agreement));
    write(records, plan)?.end();
    put(&mut memory.agreements, kept);
    Ok(())
}

impl<R: Records> Station<R> {
    /// Makes an agreement with its partner, in place of an earlier one: which transaction sets are
    /// taken from it, each pair once. An agreement without pairs is withdrawn.
    ///
    /// S13 and S14: the station is as it was.
    pub fn set_agreement(&mut self, agreement: Agreement) -> Result<(), StationFault>
        ensures never_won_back { IsTrue self.new.answers → IsTrue self.old.answers }
        ensures disk { KeepsDisk result self.old self.new }
        ensures crash { LeavesWhole R.Records (Some (record {
          station = record self.old.state {
            agreements = agreed (agreement_view agreement) self.old.state.agreements;
          };
          sends = [];
        })) self.old self.new }
        ensures agreed { IsTrue self.new.answers →
            OnOk result (self.new.state ≡ record self.old.state
            { agreements = agreed (agreement_view agreement) self.old.state.agreements }) }

        ensures unchanged { IsTrue self.new.answers →
            OnErr result (self.new.state ≡ self.old.state) }
        ensures fault { IfErr result IsOfRecords }
        ensures store { CountsFailures result (λ f. f ≡ Store)
            self.old.failures self.new.failures }
    {
        agree(&mut self.records, &mut self.memory, agreement)
    }
}
