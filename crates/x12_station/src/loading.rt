//! What a station takes into memory of its records.

ghost use Rattle.std.specs.Prelude.{map, IfOk};
ghost use Rattle.x12_outbound.specs.Entry.{entry_row, submission_of_entry};
ghost use Rattle.x12_outbound.specs.Ledger.{AreInOrder};
ghost use Rattle.x12_station.specs.working.Loading.{IsLedgerOf};

use std::alloc::{AllocError, Global};
use x12_envelopes::Party;
use x12_outbound::{Entry, Hubs, Ledger};

/// A ledger of these open submissions, each due at once.
pub(crate) fn ledger_of(
    alloc: Global,
    me: Party,
    hubs: Hubs,
    entries: Vec<Entry>,
) -> Result<Ledger, AllocError>
    requires { AreInOrder (map (submission_of_entry me) (map entry_row entries.items)) }
    ensures { IfOk result (λ l. IsLedgerOf me hubs (map entry_row entries.items) l.holds) }
{
    let mut ledger = Ledger::new(alloc, me, hubs.hub, hubs.other);
    for entry in entries {
        match ledger.add_unsent(entry) {
            Ok(()) => {}
            Err((_, error)) => return Err(error),
        }
    }
    Ok(ledger)
}
