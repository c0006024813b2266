//! First arrivals in memory: in their order, and found by their partner and number.

ghost use Rattle.std.specs.Prelude.{◌≡◌, ◌++◌, ◌∷◌, ◌<◌, [], map, None, IfOk};
ghost use Rattle.std.specs.Prelude.{option_map, ℕ};
ghost use Rattle.indexmap.specs.IndexMap.{spare};
ghost use Rattle.x12_envelopes.specs.declared.party.Party.{Party};
ghost use Rattle.x12_inbound.specs.Filing.{filed_under};
ghost use Rattle.x12_inbound.specs.Order.{interchange};
ghost use Rattle.x12_inbound.specs.Posting.{posting_view};
ghost use Rattle.x12_inbound.specs.Register.{found_in};
ghost use Rattle.x12_station.specs.Memory.{arrival_view, filed_of};

use indexmap::IndexMap;
use std::alloc::{AllocError, Global};
use x12_envelopes::Party;
use x12_inbound::{Filed, Posting};

/// A partner's qualifier and identifier, and an interchange number.
pub(crate) type ArrivalKey = ([u8; 2], [u8; 15], u32);

/// What is filed, under its number among submissions and first arrivals.
#[derive(Drop)]
pub(crate) struct NumberedArrival {
    pub seq: u64,
    pub filed: Filed,
}

/// The key of an interchange.
pub(crate) fn key_of(partner: &Party, icn: u32) -> ArrivalKey
    ensures { result ≡ (partner.now.qualifier, partner.now.id, icn) }
{
    (partner.qualifier, partner.id, icn)
}

/// A copy of a reply, where there is one.
pub(crate) fn copy_reply(
    alloc: Global,
    reply: &Option<Vec<u8>>,
) -> Result<Option<Vec<u8>>, AllocError>
    ensures { IfOk result (λ r. option_map (λ v. v.items) r ≡ option_map (λ v. v.items) reply.now) }
{
    match reply {
        Some(bytes) => Ok(Some(Vec::from_slice(alloc, bytes)?)),
        None => Ok(None),
    }
}

/// A copy of what is filed.
pub(crate) fn copy_filed(alloc: Global, filed: &Filed) -> Result<Filed, AllocError>
    ensures { IfOk result (λ f. (partner : Party) (icn : ℕ) →
        filed_under partner icn f ≡ filed_under partner icn filed.now) }
{
    Ok(Filed {
        bytes: Vec::from_slice(alloc, &filed.bytes)?,
        reply: copy_reply(alloc, &filed.reply)?,
    })
}

/// Files an interchange behind the others, where there is room for it and nothing is filed under
/// its partner and number.
pub(crate) fn file(
    arrivals: &mut IndexMap<ArrivalKey, NumberedArrival>,
    key: ArrivalKey,
    arrival: NumberedArrival,
)
    requires room { 0 < spare arrivals.old }
    requires new { found_in (filed_of arrivals.old.entries)
        (interchange (arrival_view (key, arrival)).filed.partner key.2) ≡ None }
    ensures { map arrival_view arrivals.new.entries
        ≡ map arrival_view arrivals.old.entries ++ arrival_view (key, arrival) ∷ [] }
{
    let _ = arrivals.insert(key, arrival);
}

/// A copy of what is filed under this partner and number.
pub(crate) fn find_filed(
    alloc: Global,
    arrivals: &IndexMap<ArrivalKey, NumberedArrival>,
    partner: &Party,
    icn: u32,
) -> Result<Option<Filed>, AllocError>
    ensures { IfOk result (λ o. option_map (λ f. filed_under partner.now icn f) o
        ≡ found_in (filed_of arrivals.now.entries) (interchange partner.now icn)) }
{
    match arrivals.get(&key_of(partner, icn)) {
        Some(arrival) => Ok(Some(copy_filed(alloc, &arrival.filed)?)),
        None => Ok(None),
    }
}

/// A copy of a posting.
pub(crate) fn copy_posting(alloc: Global, posting: &Posting) -> Result<Posting, AllocError>
    ensures { IfOk result (λ p. posting_view p ≡ posting_view posting.now) }
{
    Ok(Posting {
        key: posting.key,
        functional: posting.functional,
        set: posting.set,
        number: posting.number,
        bytes: Vec::from_slice(alloc, &posting.bytes)?,
    })
}

/// Copies of these postings.
pub(crate) fn copy_postings(alloc: Global, postings: &[Posting]) -> Result<Vec<Posting>, AllocError>
    ensures { IfOk result (λ v. map posting_view v.items ≡ map posting_view postings.now) }
{
    let mut copies = Vec::new(alloc);
    for posting in postings {
        copies.push(copy_posting(alloc, posting)?)?;
    }
    Ok(copies)
}
