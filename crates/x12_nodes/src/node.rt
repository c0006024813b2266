//! A node behind its lock.

ghost use Rattle.std.specs.Prelude.{◌≡◌, ◌<◌, ◌∷◌, ◌++◌, [], ℕ, map, IfErr, IfOk, IsTrue, OnErr, OnOk};
ghost use Rattle.std.specs.Prelude.{vec_len, vec_capacity};
ghost use Rattle.x12_core.specs.Core.{core_answers};
ghost use Rattle.x12_core.specs.View.{ask_view};
ghost use Rattle.x12_nodes.specs.Cell.{IsNewCore};
ghost use Rattle.x12_nodes.specs.View.{node_answer_view, receipt_view};
ghost use Rattle.x12_nodes.specs.Wire.{passed_gate};

use crate::cell::NodeCell;
use crate::fault::CallFault;
use crate::gate::{Gate, GateCall, GateFault};
use crate::log::{Answer, Receipt};
use crate::pass::Pass;
use crate::wire::Wire;
use std::alloc::Global;
use std::marker::Model;
use std::sync::{Mutex, Wait};
use x12_core::{Ask, Core, Site};
use x12_hub::HubRecords;
use x12_station::Records;

/// A node that threads share: one at a time has its cell.
pub struct Node<R: Records, H: HubRecords> {
    number: u16,
    pub(crate) cell: Mutex<NodeCell<R, H>>,
}

impl<R: Records, H: HubRecords> Model for Node<R, H> {
    ghost use Rattle.std.specs.Prelude.{ℕ};

    ghost Value = { ℕ };

    ghost view = { λ n. n.number };
}

/// A receipt of the node of this number.
fn of_node(number: u16, receipt: Receipt) -> Receipt
    ensures { receipt_view result ≡ record {
      node = number;
      stamp = receipt.stamp;
      ask = ask_view receipt.event;
      answer = node_answer_view receipt.answer;
    } }
{
    let Receipt {
        node: _,
        stamp,
        event,
        answer,
    } = receipt;
    Receipt {
        node: number,
        stamp,
        event,
        answer,
    }
}

/// Puts a receipt of the node of this number behind those of a pass, where there is room.
fn keep(receipts: &mut Vec<Receipt>, number: u16, receipt: Receipt)
    requires room { vec_len receipts.old < vec_capacity receipts.old }
    ensures { map receipt_view receipts.new.items ≡ map receipt_view receipts.old.items ++ record {
      node = number;
      stamp = receipt.stamp;
      ask = ask_view receipt.event;
      answer = node_answer_view receipt.answer;
    } ∷ [] }
{
    receipts.push_reserved(of_node(number, receipt));
}

/// A stamp of the wire for a call that a cell may be asked, and room for its receipt.
fn admitted<W: Wait, R: Records, H: HubRecords>(
    rt: &W,
    cell: &NodeCell<R, H>,
    number: u16,
    wire: &Wire,
    receipts: &mut Vec<Receipt>,
    ask: &Ask,
) -> Result<u64, CallFault>
    ensures unchanged { receipts.new.items ≡ receipts.old.items }
    ensures room { OnOk result (vec_len receipts.new < vec_capacity receipts.new) }
{
    if !cell.suits(ask) {
        return Err(CallFault::WrongKind);
    }
    if !wire.has_mailbox(ask) {
        return Err(CallFault::WrongKind);
    }
    let stamp = wire.stamp(rt)?;
    wire.admit(rt, number, ask)?;
    receipts.reserve(1)?;
    Ok(stamp)
}

/// Asks a cell, under a stamp of the wire, and puts what it sends on the wire.
fn ask_cell<W: Wait, R: Records, H: HubRecords>(
    rt: &W,
    cell: &mut NodeCell<R, H>,
    number: u16,
    wire: &Wire,
    receipts: &mut Vec<Receipt>,
    ask: Ask,
) -> Result<Answer, CallFault>
    ensures added { IfOk result (λ a. (stamp : ℕ) × (map receipt_view receipts.new.items
        ≡ map receipt_view receipts.old.items ++ record {
          node = number;
          stamp = stamp;
          ask = ask_view ask;
          answer = node_answer_view a;
        } ∷ [])) }
    ensures unchanged { OnErr result (receipts.new.items ≡ receipts.old.items) }
{
    let stamp = match admitted(rt, cell, number, wire, receipts, &ask) {
        Ok(stamp) => stamp,
        Err(fault) => {
            drop(ask);
            return Err(fault);
        }
    };
    let (receipt, answer, packets) = cell.take(stamp, ask)?;
    wire.put(rt, number, stamp, packets);
    keep(receipts, number, receipt);
    Ok(answer)
}

impl<R: Records, H: HubRecords> Node<R, H> {
    /// The node of this site: number 0 is the hub, 1 to 16 are the stations, 17 is a second hub. Its core
    /// was asked to do nothing yet, as `is_new` of a station or a hub says.
    pub fn new(alloc: Global, site: Site, core: Core<R, H>) -> Node<R, H>
        requires new { IsTrue (core_answers core) → IsNewCore core }
        ensures { result ≡ site.node }
    {
        let cell = NodeCell::new(alloc, site, core);
        Node {
            number: site.node,
            cell: Mutex::new(cell),
        }
    }

    /// Its number.
    pub fn number(&self) -> u16
        ensures { result ≡ self.now }
    {
        self.number
    }

    /// Calls the node: waits for its lock, takes a stamp of the wire, and puts what the node sends on
    /// the wire before the lock is free again.
    ///
    /// L7, L1, L5, L6, L4, L2 and L3, the first that holds. A refused call may have used up a stamp,
    /// and changes nothing else.
    pub fn call<W: Wait>(
        &self,
        rt: &W,
        wire: &Wire,
        pass: &mut Pass,
        event: Ask,
    ) -> Result<Answer, CallFault>
        ensures added { IfOk result (λ a. (stamp : ℕ) × (pass.new ≡ pass.old
            ++ record {
              node = self.now;
              stamp = stamp;
              ask = ask_view event;
              answer = node_answer_view a;
            } ∷ [])) }
        ensures unchanged { OnErr result (pass.new ≡ pass.old) }
    {
        let mut cell = self.cell.lock(rt);
        ask_cell(rt, &mut cell, self.number, wire, &mut pass.receipts, event)
    }

    /// Calls the node behind a gate, which holds its lock.
    fn call_behind<G: Gate, W: Wait>(
        &self,
        rt: &W,
        wire: &Wire,
        through: &GateCall<'_, G>,
        pass: &mut Pass,
        event: Ask,
    ) -> Result<Answer, GateFault>
        ensures added { IfOk result (λ a. (stamp : ℕ) × (pass.new ≡ pass.old
            ++ record {
              node = self.now;
              stamp = stamp;
              ask = ask_view event;
              answer = node_answer_view a;
            } ∷ [])) }
        ensures unchanged { OnErr result (pass.new ≡ pass.old) }
        ensures refused { IfErr result (λ e.
            G.lets through.now.gate.now self.now through.now.call (passed_gate e)) }
    {
        let mut cell = self.cell.lock(rt);
        if !through.gate.enter(self.number, through.call) {
            drop(event);
            return Err(GateFault::Gate);
        }
        let answer = ask_cell(rt, &mut cell, self.number, wire, &mut pass.receipts, event)?;
        Ok(answer)
    }

    /// Calls the node through a gate: as `call`, where the gate lets it pass. The gate is asked under
    /// the node's lock, before a stamp is taken, and told when the lock is free again, however the call
    /// ended.
    ///
    /// `Gate`, or what `call` is refused for.
    pub fn call_through<G: Gate, W: Wait>(
        &self,
        rt: &W,
        wire: &Wire,
        through: &GateCall<'_, G>,
        pass: &mut Pass,
        event: Ask,
    ) -> Result<Answer, GateFault>
        ensures added { IfOk result (λ a. (stamp : ℕ) × (pass.new ≡ pass.old
            ++ record {
              node = self.now;
              stamp = stamp;
              ask = ask_view event;
              answer = node_answer_view a;
            } ∷ [])) }
        ensures unchanged { OnErr result (pass.new ≡ pass.old) }
        ensures refused { IfErr result (λ e.
            G.lets through.now.gate.now self.now through.now.call (passed_gate e)) }
    {
        let told = self.call_behind(rt, wire, through, pass, event);
        through.gate.leave(self.number, through.call);
        told
    }

    /// How many submissions of a station are open, once its lock is free; none of a hub's.
    pub fn open_count<W: Wait>(&self, rt: &W) -> u64 {
        self.cell.lock(rt).open_count()
    }

    /// Ends the sharing: the cell comes back, as its last call left it.
    pub fn end(self) -> NodeCell<R, H> {
        let Node { number: _, cell } = self;
        cell.into_inner()
    }
}
