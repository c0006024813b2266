//! Opening a station over its records, and restarting it.

ghost use Rattle.std.specs.Prelude.{◌≡◌, ◌∷◌, IsTrue, IfOk, IfErr, OnErr, OnOk, MatchResult};
ghost use Rattle.std.specs.Prelude.{option_to_list};
ghost use Rattle.x12_envelopes.specs.Party.{is_plain_party};
ghost use Rattle.x12_profile.specs.X12.{x12};
ghost use Rattle.x12_station.specs.declared.fault.StationFault.TheVariants.{Store};
ghost use Rattle.x12_station.specs.Durable.{IsHistoryOf};
ghost use Rattle.x12_station.specs.Fault.{IsOfRecords};
ghost use Rattle.x12_station.specs.Keeps.{IsReady};
ghost use Rattle.x12_station.specs.working.Loading.{IsTakenIn};
ghost use Rattle.x12_station.specs.Opened.{opened, HoldsState};
ghost use Rattle.x12_station.specs.Record.{loaded_of};
ghost use Rattle.x12_profile.specs.Stop.{CountsFailures};
ghost use Rattle.x12_station.specs.Seen.{KeepsDisk};
ghost use Rattle.x12_station.specs.Standing.{LeavesHistory, LeavesNoMore, WereAsked};
ghost use Rattle.x12_station.specs.Stopped.{LeavesAsBefore};
ghost use Rattle.x12_station.specs.StationStep.{restarted};

use crate::cached::Cached;
use crate::fault::StationFault;
use crate::records::Records;
use crate::station::Station;
use std::alloc::Global;
use x12_envelopes::Party;
use x12_outbound::Hubs;

/// What the records hold, taken into memory.
fn load<R: Records>(
    alloc: Global,
    me: Party,
    hubs: Hubs,
    records: &mut R,
) -> Result<Cached, StationFault>
    requires valid { R.valid records.old }
    requires plain { IsTrue (is_plain_party me) }
    ensures asked { WereAsked R.Records records.old records.new }
    ensures taken { IsTrue (R.answers records.new) → IfOk result (λ m.
        IsTakenIn me hubs (loaded_of (R.content records.old)) m) }
    ensures ready { IfOk result (λ m. IsReady m × (m.me ≡ me) × (m.hubs ≡ hubs)) }
    ensures answered { IsTrue (R.clean records.new) → OnOk result (IsTrue (R.answers records.new)) }

    ensures fault { IfErr result IsOfRecords }
    ensures device { CountsFailures result (λ f. f ≡ Store)
        (R.failed records.old) (R.failed records.new) }
{
    let loaded = records.load()?;
    Ok(Cached::take_in(alloc, me, hubs, loaded)?)
}

impl<R: Records> Station<R> {
    /// Opens a station over its records: what was submitted is not forgotten, each open interchange
    /// is due at once, and no tick was seen. It believes its hub, and the other one that this is
    /// connected to, if there is one. Records that hold something were written by a station of the
    /// same party and the same hubs.
    ///
    /// S13 and S14, with the records as they were.
    pub fn open(
        alloc: Global,
        me: Party,
        hub: Party,
        other: Option<Party>,
        records: R,
    ) -> Result<Station<R>, (R, StationFault)>
        requires plain { IsTrue (is_plain_party me) }
        requires valid { R.valid records }
        requires written { IsTrue (R.answers records) →
            IsHistoryOf me (hub ∷ option_to_list other) (R.content records) }
        ensures opened { IfOk result (λ s. IsTrue s.answers → IsTrue (R.answers records)
            × (s.state ≡ opened me (hub ∷ option_to_list other) (R.content records))) }

        ensures back { IfErr result (λ e. R.valid e.0 × (IsTrue (R.answers e.0) →
            IsTrue (R.answers records) × (R.content e.0 ≡ R.content records))) }
        ensures crash { MatchResult result (λ s. LeavesNoMore R.Records records s.records)
            (λ e. LeavesNoMore R.Records records e.0) }
        ensures fault { IfErr result (λ e. IsOfRecords e.1) }
        ensures device { MatchResult result (λ s. s.failures ≡ R.failed records) (λ e.
            CountsFailures result (λ q. q.1 ≡ Store) (R.failed records) (R.failed e.0)) }
    {
        let hubs = Hubs { hub, other };
        let mut records = records;
        match load(alloc, me, hubs, &mut records) {
            Ok(memory) => Ok(Station { records, memory }),
            Err(fault) => Err((records, fault)),
        }
    }

    /// Starts the station again over its records: what is open is due at once, no tick was seen, and
    /// nothing is counted. All else is kept.
    ///
    /// S13 and S14: the station is as it was.
    pub fn restart(&mut self) -> Result<(), StationFault>
        ensures never_won_back { IsTrue self.new.answers → IsTrue self.old.answers }
        ensures disk { KeepsDisk result self.old self.new }
        ensures crash { LeavesAsBefore R.Records self.old self.new }
        ensures restarted { IsTrue self.new.answers →
            OnOk result (self.new.state ≡ restarted x12 self.old.state) }

        ensures unchanged { IsTrue self.new.answers →
            OnErr result (self.new.state ≡ self.old.state) }
        ensures fault { IfErr result IsOfRecords }
        ensures store { CountsFailures result (λ f. f ≡ Store)
            self.old.failures self.new.failures }
    {
        let memory = load(
            self.memory.alloc,
            self.memory.me,
            self.memory.hubs,
            &mut self.records,
        )?;
        self.memory = memory;
        Ok(())
    }

    /// Closes the station, and gives its records back as they stand: a station of the same party and
    /// hubs can be opened over them.
    pub fn close(self) -> R
        ensures valid { R.valid result }
        ensures records { result ≡ self.records }
        ensures written { IsTrue (R.answers result) →
            IsHistoryOf self.state.me self.state.hubs (R.content result) }
        ensures left { LeavesHistory R.Records self.state.me self.state.hubs result }
        ensures holds { HoldsState self.state (R.content result) }
        ensures answers { R.answers result ≡ self.answers }
        ensures clean { R.clean result ≡ self.clean }
        ensures failed { R.failed result ≡ self.failures }
    {
        let Station { records, memory: _ } = self;
        records
    }
}
