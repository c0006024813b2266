//! Submitting orders: they are written, and what is written of them is entered.

ghost use Rattle.std.specs.Prelude.{◌≡◌, ◌∷◌, [], Some, IsTrue, IfOk, IfErr, OnErr, map};
ghost use Rattle.std.specs.Arc.{arc_slice_items};
ghost use Rattle.x12_profile.specs.X12.{x12};
ghost use Rattle.x12_station.specs.declared.fault.StationFault.TheVariants.{Store};
ghost use Rattle.x12_station.specs.Fault.{IsRowOrWant, orders_fault};
ghost use Rattle.x12_station.specs.Ordering.{order_view};
ghost use Rattle.x12_profile.specs.Stop.{CountsFailures};
ghost use Rattle.x12_station.specs.Seen.{KeepsDisk};
ghost use Rattle.x12_station.specs.Stopped.{LeavesWhole};
ghost use Rattle.x12_station.specs.StationStep.{submit_orders};

use crate::entering::enter;
use crate::fault::StationFault;
use crate::ordered::prepared_orders;
use crate::ordering::Body;
use crate::orders::write_orders;
use crate::records::Records;
use crate::station::Station;
use crate::submitting::Sent;
use x12_envelopes::{Moment, Party};

impl<R: Records> Station<R> {
    /// Submits orders, each as a transaction set 850, as one interchange with one functional group PO
    /// under the next control numbers: kept and sent until each of them is accepted or rejected.
    ///
    /// S1, S2, S3, S9 and S11, the first that holds; S13 and S14. Then the station is as it was.
    pub fn submit_orders(
        &mut self,
        to: Party,
        at: &Moment,
        orders: &[Body],
    ) -> Result<Sent, StationFault>
        ensures never_won_back { IsTrue self.new.answers → IsTrue self.old.answers }
        ensures disk { KeepsDisk result self.old self.new }
        ensures crash { let texts = map order_view orders.now in LeavesWhole R.Records
            (submit_orders x12 self.old.state to at.now texts) self.old self.new }
        ensures took { IsTrue self.new.answers → IfOk result (λ sent.
            submit_orders x12 self.old.state to at.now (map order_view orders.now)
            ≡ Some (record { station = self.new.state; sends = arc_slice_items sent.bytes ∷ [] })) }
        ensures number { IfOk result (λ sent. sent.icn ≡ x12.number (arc_slice_items sent.bytes)) }

        ensures refused { IsTrue self.new.answers →
            let row = orders_fault self.old.state to at.now (map order_view orders.now) in
            IfErr result (IsRowOrWant row) }
        ensures unchanged { IsTrue self.new.answers →
            OnErr result (self.new.state ≡ self.old.state) }
        ensures store { CountsFailures result (λ f. f ≡ Store)
            self.old.failures self.new.failures }
    {
        let bytes = write_orders(&self.memory, &to, at, orders)?;
        let prepared = prepared_orders(&self.memory, to, at, orders, bytes)?;
        let sent = Sent {
            icn: prepared.entry.icn,
            bytes: prepared.entry.bytes.clone()?,
        };
        enter(&mut self.records, &mut self.memory, prepared)?;
        Ok(sent)
    }
}
