//! A node's cell: its core, and the log that made it what it is.

ghost use Rattle.std.specs.Prelude.{◌≡◌, ◌⊎◌, [], map, true, false, IsTrue, IfOk, IfErr};
ghost use Rattle.std.specs.Prelude.{OnOk, OnErr, Err};
ghost use Rattle.x12_core.specs.Ask.{suits};
ghost use Rattle.x12_core.specs.Core.{core_answers, node_of};
ghost use Rattle.x12_core.specs.View.{ask_view, packet_view};
ghost use Rattle.x12_nodes.specs.Cell.{opening_node, stamp_may_follow, IsCellRefusal};
ghost use Rattle.x12_nodes.specs.Cell.{IsNewCore};
ghost use Rattle.x12_nodes.specs.Cell.{CellWasCounted, StaysSo, TakesCall};
ghost use Rattle.x12_nodes.specs.declared.fault.CellFault.TheVariants.{WrongKind};
ghost use Rattle.x12_nodes.specs.View.{node_answer_view, log_entry_view, receipt_view};

use crate::asking::{ready, step};
use crate::copying::copied_packets;
use crate::fault::CellFault;
use crate::log::{Answer, Kept, LogEntry, Receipt};
use crate::opening::{Opening, opening_of};
use crate::writing::written;
use std::alloc::{AllocError, Global};
use std::marker::Model;
use x12_core::{Ask, Core, Packet, Site};
use x12_hub::HubRecords;
use x12_station::Records;

/// A node: its core, what it was when the cell was made, and its log, each call that it took since.
///
/// Whenever a cell can be looked at, the core is what the log makes of what it was, and stamps rise;
/// of the core that is said while its records answer.
pub struct NodeCell<R: Records, H: HubRecords> {
    alloc: Global,
    pub(crate) site: Site,
    pub(crate) opening: Opening,
    core: Core<R, H>,
    last: u64,
    pub(crate) log: Vec<LogEntry>,
}

impl<R: Records, H: HubRecords> Model for NodeCell<R, H> {
    ghost use Rattle.std.specs.Prelude.{map};
    ghost use Rattle.x12_core.specs.Core.{core_answers, core_failures, node_of};
    ghost use Rattle.x12_nodes.specs.Cell.{CellView, IsReplayed};
    ghost use Rattle.x12_nodes.specs.View.{log_entry_view};

    ghost Value = { CellView };

    ghost view = { λ c. record {
      site = c.site;
      opening = c.opening;
      log = map log_entry_view c.log.items;
      last = c.last;
      now = node_of c.core;
      answers = core_answers c.core;
      failures = core_failures c.core;
    } };

    ghost invariant = { λ c. IsReplayed (record {
      site = c.site;
      opening = c.opening;
      log = map log_entry_view c.log.items;
      last = c.last;
      now = node_of c.core;
      answers = core_answers c.core;
      failures = core_failures c.core;
    }) };
}

/// Copies of the packets of an entry; none where memory is missing.
fn copies(alloc: Global, entry: &LogEntry) -> Vec<Packet>
    ensures { (map packet_view result.items ≡ (log_entry_view entry.now).packets)
        ⊎ (result.items ≡ []) }
{
    match &entry.kept {
        Kept::Fate(_) => Vec::new(alloc),
        Kept::Sent { packets, .. } => match copied_packets(alloc, packets) {
            Ok(copies) => copies,
            Err(AllocError) => Vec::new(alloc),
        },
    }
}

impl<R: Records, H: HubRecords> NodeCell<R, H> {
    /// The cell of the node of this site: number 0 is the hub, 1 to 16 are the stations, 17 is a second
    /// hub. Its core was asked to do nothing yet, as `is_new` of a station or a hub says.
    pub fn new(alloc: Global, site: Site, core: Core<R, H>) -> NodeCell<R, H>
        requires new { IsTrue (core_answers core) → IsNewCore core }
        ensures site { result.site ≡ site }
        ensures log { (result.log ≡ []) × (result.last ≡ 0) }
        ensures now { result.now ≡ node_of core }
        ensures opening { IsTrue (core_answers core) →
            opening_node result.opening ≡ node_of core }
        ensures answers { result.answers ≡ core_answers core }
    {
        let opening = opening_of(&core);
        NodeCell {
            alloc,
            site,
            opening,
            core,
            last: 0,
            log: Vec::new(alloc),
        }
    }

    /// Whether a node of this kind is asked so.
    pub(crate) fn suits(&self, ask: &Ask) -> bool
        ensures { result ≡ suits self.now.site.node (ask_view ask.now) self.now.now }
    {
        self.core.suits(self.site.node, ask)
    }

    /// Takes a call, as `apply` does, and gives the answer too.
    pub(crate) fn take(
        &mut self,
        stamp: u64,
        ask: Ask,
    ) -> Result<(Receipt, Answer, Vec<Packet>), CellFault>
        ensures never_won_back { IsTrue self.new.answers → IsTrue self.old.answers }
        ensures took { IsTrue self.new.answers → IfOk result (λ r. TakesCall self.old stamp
            (ask_view ask) (receipt_view r.0) (map packet_view r.2.items) self.new) }
        ensures told { IfOk result (λ r. receipt_view r.0 ≡ record {
          node = self.old.site.node;
          stamp = stamp;
          ask = ask_view ask;
          answer = node_answer_view r.1;
        }) }
        ensures follows { OnOk result (stamp_may_follow self.old.last stamp ≡ true) }
        ensures same { (self.new.site ≡ self.old.site) × (self.new.opening ≡ self.old.opening) }

        ensures kind { suits self.old.site.node (ask_view ask) self.old.now ≡ false → result ≡ Err WrongKind }
        ensures refused { IsTrue self.new.answers →
            IfErr result (IsCellRefusal self.old stamp (ask_view ask)) }
        ensures unchanged { IfErr result (λ f. StaysSo self.old self.new
            × CellWasCounted f self.old.failures self.new.failures) }
    {
        let room = match ready(self.alloc, self.site.node, &self.core, &mut self.log, &ask) {
            Ok(room) => room,
            Err(fault) => {
                drop(ask);
                return Err(fault);
            }
        };
        let did = match step(
            self.alloc,
            self.site,
            &mut self.core,
            self.last,
            stamp,
            &ask,
        ) {
            Ok(did) => did,
            Err(fault) => {
                drop(room);
                drop(ask);
                return Err(fault);
            }
        };
        let (entry, receipt, answer) = written(self.site.node, stamp, ask, did, room);
        let copies = copies(self.alloc, &entry);
        self.log.push_reserved(entry);
        self.last = stamp;
        Ok((receipt, answer, copies))
    }

    /// Takes a call under a stamp: the receipt, and copies of the packets that the node sent, or none
    /// where memory for them is missing. The log keeps the packets themselves.
    ///
    /// L7, L4, L2 and L3, the first that holds; node and log are then as they were.
    pub fn apply(&mut self, stamp: u64, ask: Ask) -> Result<(Receipt, Vec<Packet>), CellFault>
        ensures never_won_back { IsTrue self.new.answers → IsTrue self.old.answers }
        ensures took { IsTrue self.new.answers → IfOk result (λ r. TakesCall self.old stamp
            (ask_view ask) (receipt_view r.0) (map packet_view r.1.items) self.new) }
        ensures follows { OnOk result (stamp_may_follow self.old.last stamp ≡ true) }
        ensures same { (self.new.site ≡ self.old.site) × (self.new.opening ≡ self.old.opening) }

        ensures kind { suits self.old.site.node (ask_view ask) self.old.now ≡ false → result ≡ Err WrongKind }
        ensures refused { IsTrue self.new.answers →
            IfErr result (IsCellRefusal self.old stamp (ask_view ask)) }
        ensures unchanged { OnErr result (StaysSo self.old self.new) }
        ensures store { IfErr result (λ f.
            CellWasCounted f self.old.failures self.new.failures) }
    {
        match self.take(stamp, ask) {
            Ok((receipt, _, copies)) => Ok((receipt, copies)),
            Err(fault) => Err(fault),
        }
    }

    /// How many submissions of a station are open; none of a hub's.
    pub(crate) fn open_count(&self) -> u64 {
        match &self.core {
            Core::Station(station) => station.open_count(),
            Core::Hub(_) => 0,
        }
    }

    /// Ends the cell: its core comes back as it is.
    pub fn end(self) -> Core<R, H>
        ensures now { node_of result ≡ self.now }
        ensures answers { core_answers result ≡ self.answers }
    {
        let NodeCell {
            alloc: _,
            site: _,
            opening: _,
            core,
            last: _,
            log: _,
        } = self;
        core
    }
}
