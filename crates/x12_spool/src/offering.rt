//! What a node has to put by itself: a station what is due, a hub what waits in a mailbox.

ghost use Rattle.std.specs.Prelude.{◌≡◌, ◌∷◌, [], IfOk, OnOk, OnErr, map};
ghost use Rattle.std.specs.Arc.{arc_slice_items};
ghost use Rattle.x12_hub.specs.Mailbox.{item_view};
ghost use Rattle.x12_spool.specs.Node.{offer_view, plain_offer, item_offer};
ghost use Rattle.x12_spool.specs.Deed.{AddsDeeds};
ghost use Rattle.x12_spool.specs.Turn.{Does};
ghost use Rattle.x12_spool.specs.Offering.{deed_of_offer, AreFront, PutsAll, PutsSome};

use crate::node::{Node, Offer};
use crate::spool::Spool;
use crate::turn::TurnFault;
use std::alloc::{AllocError, Global};
use std::sync::ArcSlice;
use x12_station::Outgoing;

/// Interchanges that were submitted, put as what is sent.
pub(crate) fn plain_offers(
    alloc: Global,
    interchanges: Vec<ArcSlice<u8>>,
) -> Result<Vec<Offer>, AllocError>
    ensures { IfOk result (λ v. map offer_view v.items
        ≡ map plain_offer (map arc_slice_items interchanges.items)) }
{
    let mut offers = Vec::new(alloc);
    for bytes in interchanges {
        offers.push(Offer {
            item: None,
            bytes: Outgoing::Shared(bytes),
        })?;
    }
    Ok(offers)
}

/// Items of a mailbox that are put under their numbers.
pub(crate) fn item_offers(
    alloc: Global,
    items: Vec<(u32, Vec<u8>)>,
) -> Result<Vec<Offer>, AllocError>
    ensures { IfOk result (λ v. map offer_view v.items ≡ map item_offer (map item_view items.items)) }
{
    let mut offers = Vec::new(alloc);
    for (item, bytes) in items {
        offers.push(Offer {
            item: Some(item),
            bytes: Outgoing::Own(bytes),
        })?;
    }
    Ok(offers)
}

/// Puts one offer: an item under its number, anything else as what is sent.
fn put_offer<P: Spool>(spool: &mut P, offer: &Offer) -> Result<(), TurnFault>
    ensures put { OnOk result
        (AddsDeeds (P.done spool.old) (P.done spool.new) (deed_of_offer (offer_view offer.now) ∷ [])) }
    ensures unput { OnErr result (AddsDeeds (P.done spool.old) (P.done spool.new) []) }
{
    match offer.item {
        Some(item) => Ok(spool.put(item, offer.bytes.bytes())?),
        None => Ok(spool.send(offer.bytes.bytes())?),
    }
}

/// Puts these offers, in their order.
fn put_each<P: Spool>(spool: &mut P, offers: &[Offer]) -> Result<(), TurnFault>
    ensures put { OnOk result (AddsDeeds (P.done spool.old) (P.done spool.new)
        (map deed_of_offer (map offer_view offers.now))) }
    ensures stopped { OnErr result (Does (P.done spool.old) (P.done spool.new)
        (AreFront (map deed_of_offer (map offer_view offers.now)))) }
{
    for offer in offers {
        put_offer(spool, offer)?;
    }
    Ok(())
}

/// Puts all that a node has to put by itself, at this tick: a station what is due, a hub what waits in
/// a mailbox. It stops at the first that the spool can't put.
pub fn put_offers<N: Node, P: Spool>(node: &mut N, spool: &mut P, now: u64) -> Result<(), TurnFault>
    ensures put { OnOk result (Does (P.done spool.old) (P.done spool.new)
        (PutsAll N.Node now node.old node.new)) }
    ensures stopped { OnErr result (Does (P.done spool.old) (P.done spool.new)
        (PutsSome N.Node now node.old node.new)) }
{
    let offers = node.offer(now)?;
    put_each(spool, &offers)
}
