//! A node's caller: it delivers what comes out of the node's inboxes, and makes its jobs.
ghost use Rattle.std.specs.Prelude.{◌≡◌, ◌≢◌, IfOk, Ok, false, true};
ghost use Rattle.x12_core.specs.View.{ask_view};
ghost use Rattle.x12_links.specs.Worker.{made, GetsOneMore};
ghost use Rattle.x12_links.specs.declared.worker.Delivery.TheVariants.{Made};
ghost use Rattle.x12_network.specs.Deliveries.{delivered_from, is_delivery};
ghost use Rattle.x12_network.specs.Deliveries.{DeliverNothing, IsAnswer, IsCalled};
ghost use Rattle.x12_nodes.specs.Wire.{passed_gate};

use crate::patience::Patience;
use crate::tally::Tally;
use std::sync::Wait;
use x12_core::{Action, Ask, Load, PacketName};
use x12_envelopes::Moment;
use x12_hub::HubRecords;
use x12_links::{Delivery, Halt, Looks, Progress, Recipient};
use x12_nodes::{Answer, CallFault, Gate, GateCall, GateFault, Node, Pass, Wire};
use x12_station::Records;

/// What all callers of a run share.
#[derive(Drop)]
pub(crate) struct Shared<'n, G> {
    pub wire: &'n Wire,
    pub gate: &'n G,
    /// The moment of each delivery.
    pub at: Moment,
    pub tally: &'n Tally,
}

/// The caller of a node.
pub(crate) struct Caller<'n, R: Records, H: HubRecords, G> {
    pub node: &'n Node<R, H>,
    pub shared: &'n Shared<'n, G>,
    /// The receipts of its calls.
    pub pass: Pass,
    /// What is still to be made, the next one last.
    pub jobs: Vec<Ask>,
    /// How many calls it made, and how many packets the last one sent.
    pub calls: u64,
    pub sent: u64,
    /// How long it waits for a packet.
    pub patience: Patience,
    /// Whether a set of its station was open behind its last turn.
    pub is_open: bool,
}

/// Whether a node is asked to take a packet of another node.
fn delivers(ask: &Ask) -> bool
    ensures { result ≡ is_delivery (ask_view ask.now) }
{
    match ask {
        Ask::Deliver { .. } => true,
        _ => false,
    }
}

/// How many packets an answer tells.
fn sent_in(answer: &Answer) -> u64 {
    match answer {
        Answer::Sent { packets, .. } => packets.len() as u64,
        Answer::Fate(_) => 0,
    }
}

/// What a refusal means for the run: one for want of memory, or of the gate, ends it.
fn refused(fault: GateFault) -> Result<Delivery, Halt>
    ensures unmade { result ≢ Ok Made }
    ensures passed { IfOk result (λ _. passed_gate fault ≡ true) }
{
    match fault {
        GateFault::Gate => Err(Halt::Gate),
        GateFault::Call(CallFault::Memory) => Err(Halt::Memory),
        GateFault::Call(_) => Ok(Delivery::Refused),
    }
}

impl<R: Records, H: HubRecords, G: Gate> Caller<'_, R, H, G> {
    /// Makes a call: whether the node took it.
    #[tactic(auto, using(crate::proofs::DeliveryLemmas::refused_call))]
    fn make<W: Wait>(&mut self, rt: &W, ask: Ask) -> Result<Delivery, Halt>
        ensures called { IsCalled self.old.node.now (ask_view ask) result self.old.pass self.new.pass }
        ensures answered { IfOk result (IsAnswer G.lets) }
    {
        self.calls = self.calls.saturating_add(1);
        self.sent = 0;
        let through = GateCall {
            gate: self.shared.gate,
            call: self.calls,
        };
        match self
            .node
            .call_through(rt, self.shared.wire, &through, &mut self.pass, ask)
        {
            Ok(answer) => {
                self.sent = sent_in(&answer);
                self.shared.tally.count_event();
                Ok(Delivery::Made)
            }
            Err(fault) => refused(fault),
        }
    }

    /// The event that a node makes by itself: a hub a collection, of the mailboxes in rotation, a station
    /// a tick.
    fn own_event(&self, turn: u64) -> Ask
        ensures { is_delivery (ask_view result) ≡ false }
    {
        match self.patience.next_mailbox() {
            Some(node) => Ask::Do(Action::Collect { node }),
            None => Ask::Do(Action::Tick { now: turn }),
        }
    }

    /// Makes an event of the node's own.
    #[tactic(auto, using(crate::proofs::DeliveryLemmas::called_quietly))]
    fn make_own<W: Wait>(&mut self, rt: &W, turn: u64) -> Result<(), Halt>
        ensures { DeliverNothing self.old.pass self.new.pass }
    {
        let ask = self.own_event(turn);
        self.make(rt, ask)?;
        self.patience.event_made(self.sent);
        Ok(())
    }

    /// Makes a job. One that delivers a packet isn't made: packets come out of inboxes alone.
    #[tactic(auto, using(crate::proofs::DeliveryLemmas::called_quietly, crate::proofs::DeliveryLemmas::same_quietly))]
    fn make_job<W: Wait>(&mut self, rt: &W, job: Ask) -> Result<(), Halt>
        ensures { DeliverNothing self.old.pass self.new.pass }
    {
        if delivers(&job) {
            return Ok(());
        }
        self.make(rt, job)?;
        Ok(())
    }

    /// What the packet of this name carries, as it lies on the wire. None would be a packet that was
    /// lost there.
    fn load_of<W: Wait>(&self, rt: &W, from: u16, name: PacketName) -> Result<Option<Load>, Halt> {
        let before = PacketName {
            event: name.event,
            place: name.place.saturating_sub(1),
        };
        let wire = self.shared.wire;
        let Some((next, packet)) = wire.next(rt, from, self.node.number(), &before)? else {
            return Ok(None);
        };
        if next == name {
            Ok(Some(packet.load))
        } else {
            Ok(None)
        }
    }

    /// Whether all jobs are made and no set of the station is open.
    fn progress<W: Wait>(&mut self, rt: &W) -> Progress
        ensures { self.new.pass ≡ self.old.pass }
    {
        if !self.jobs.is_empty() {
            return Progress::Busy;
        }
        self.is_open = self.node.open_count(rt) > 0;
        if self.is_open {
            Progress::Busy
        } else {
            Progress::Settled
        }
    }

    /// Makes a packet of this sender come to the node.
    #[tactic(auto, using(crate::proofs::DeliveryLemmas::called_for))]
    fn make_delivery<W: Wait>(
        &mut self,
        rt: &W,
        from: u16,
        packet: PacketName,
        load: Load,
    ) -> Result<Delivery, Halt>
        ensures delivered { GetsOneMore (λ k. delivered_from k self.old.pass)
            (λ k. delivered_from k self.new.pass) from (made result packet) }
        ensures answered { IfOk result (IsAnswer G.lets) }
    {
        self.patience.packet_came();
        let at = self.shared.at;
        self.make(
            rt,
            Ask::Deliver {
                packet,
                from,
                load,
                at,
            },
        )
    }

    /// Makes the next job, or an event of the node's own where none is left and no packet came.
    #[tactic(auto, using(crate::proofs::DeliveryLemmas::same_quietly))]
    fn make_next<W: Wait>(&mut self, rt: &W, turn: u64, came: bool) -> Result<(), Halt>
        ensures { DeliverNothing self.old.pass self.new.pass }
    {
        if let Some(job) = self.jobs.pop() {
            return self.make_job(rt, job);
        }
        if came {
            return Ok(());
        }
        self.make_own(rt, turn)
    }

    /// Ends the caller: its pass.
    pub fn end(self) -> Pass
        ensures { result ≡ self.entry.pass }
    {
        let Caller {
            node: _,
            shared: _,
            pass,
            jobs: _,
            calls: _,
            sent: _,
            patience: _,
            is_open: _,
        } = self;
        pass
    }
}

impl<R: Records, H: HubRecords, G: Gate> Recipient<PacketName> for Caller<'_, R, H, G> {
    ghost use Rattle.x12_network.specs.Deliveries.{delivered_from, IsAnswer};

    ghost delivered = { λ c from. delivered_from from c.pass };

    ghost answered = { λ from name. IsAnswer G.lets };

    #[tactic(auto, using(crate::proofs::DeliveryLemmas::refused_more))]
    fn deliver<W: Wait>(
        &mut self,
        rt: &W,
        from: u16,
        parcel: PacketName,
    ) -> Result<Delivery, Halt> {
        match self.load_of(rt, from, parcel) {
            Ok(Some(load)) => self.make_delivery(rt, from, parcel, load),
            Ok(None) => Err(Halt::Memory),
            Err(halt) => Err(halt),
        }
    }

    fn work<W: Wait>(&mut self, rt: &W, turn: u64, came: bool) -> Result<Progress, Halt> {
        self.shared.tally.begin_turn(turn);
        self.make_next(rt, turn, came)?;
        Ok(self.progress(rt))
    }

    fn patience(&self) -> Looks {
        self.patience.looks(!self.jobs.is_empty(), self.is_open)
    }
}
