//! What a station keeps in memory.

ghost use Rattle.std.specs.Prelude.{IfOk, IsTrue};
ghost use Rattle.x12_envelopes.specs.Party.{is_plain_party};
ghost use Rattle.x12_station.specs.Keeps.{IsReady};
ghost use Rattle.x12_station.specs.working.Loading.{IsTakenIn};
ghost use Rattle.x12_station.specs.Record.{loaded_view, IsSoundLoaded};

use crate::loading::ledger_of;
use crate::records::Loaded;
use std::alloc::{AllocError, Global};
use x12_envelopes::Party;
use x12_judge::Agreement;
use x12_numbers::Book;
use x12_outbound::{Counts, Hubs, Ledger};
use x12_profile::Marks;

/// What a station keeps in memory: of its records the marks, the numbers, the agreements and the open
/// submissions; and what a restart forgets.
#[derive(Drop)]
pub(crate) struct Cached {
    pub alloc: Global,
    /// The station's party.
    pub me: Party,
    /// The station's hub, and the one that this is connected to.
    pub hubs: Hubs,
    /// How far the history is judged and read in an older way.
    pub marks: Marks,
    /// The last control numbers.
    pub book: Book,
    /// The last number of a submission or first arrival.
    pub seq: u64,
    /// The agreements in force, in the order in which they were made.
    pub agreements: Vec<Agreement>,
    /// The open submissions, the greatest tick seen, and the schedules.
    pub ledger: Ledger,
    /// What the evidence of arrivals did, since the station was opened or restarted.
    pub counts: Counts,
}

impl Cached {
    /// What a station keeps of what was loaded: nothing was sent yet, and no tick was seen.
    pub(crate) fn take_in(
        alloc: Global,
        me: Party,
        hubs: Hubs,
        loaded: Loaded,
    ) -> Result<Cached, AllocError>
        requires plain { IsTrue (is_plain_party me) }
        requires sound { IsSoundLoaded (loaded_view loaded) }
        ensures taken { IfOk result (λ m. IsTakenIn me hubs (loaded_view loaded) m) }
        ensures ready { IfOk result IsReady }
    {
        Ok(Cached {
            alloc,
            me,
            hubs,
            marks: loaded.marks,
            book: loaded.book,
            seq: loaded.seq,
            agreements: loaded.agreements,
            ledger: ledger_of(alloc, me, hubs, loaded.entries)?,
            counts: Counts {
                settled: 0,
                repeated: 0,
                unmatched: 0,
                conflicting: 0,
                unclear: 0,
            },
        })
    }
}
