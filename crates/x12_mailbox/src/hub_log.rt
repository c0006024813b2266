//! `van log` of a hub: what went through it, item by item.

use crate::enrolling::hub_trouble;
use crate::search::{Search, Told};
use crate::stop::Stop;
use crate::words::party_text;
use std::alloc::{AllocError, Global};
use x12_envelopes::{Header, read_header};
use x12_hub::{Decision, HubLoaded, HubRecords, HubStoreFault};

/// Says why a hub's records answered nothing.
fn unanswered(search: &Search<'_>, fault: HubStoreFault) -> Stop {
    hub_trouble(search.rt, search.dir, fault.into())
}

/// What became of an interchange.
fn decision_text(
    alloc: Global,
    loaded: &HubLoaded,
    decision: &Decision,
) -> Result<String, AllocError> {
    let Decision::Boxed { node, item } = decision else {
        return String::from_str(alloc, "refused, since it has no mailbox here");
    };
    let waits = loaded
        .mailboxes
        .iter()
        .any(|at| at.0 == *node && at.1 == *item);
    if waits {
        format!(in alloc; "item {item} waits in mailbox {node}")
    } else {
        format!(in alloc; "item {item} was taken out of mailbox {node}")
    }
}

/// What is told of an interchange.
fn item_told(
    alloc: Global,
    loaded: &HubLoaded,
    header: &Header,
    decision: &Decision,
) -> Result<Told, AllocError> {
    let to = party_text(alloc, &header.receiver)?;
    let became = decision_text(alloc, loaded, decision)?;
    let said = format!(in alloc; "to {to}, {became}")?;
    Ok(Told {
        what: "took",
        way: "from",
        icn: header.icn,
        set: None,
        partner: header.sender,
        said,
    })
}

/// Tells of an interchange that is looked for.
fn log_bytes<H: HubRecords>(
    search: &mut Search<'_>,
    records: &mut H,
    loaded: &HubLoaded,
    header: &Header,
    bytes: &[u8],
) -> Result<(), Stop>
    requires { H.valid records.old }
    ensures { H.valid records.new }
{
    if search.wants_bytes() {
        return search.write(bytes);
    }
    match records.find_decision(bytes) {
        Ok(Some(decision)) => {
            let told = item_told(search.rt.alloc(), loaded, header, &decision)?;
            search.tell(&told)
        }
        Ok(None) => Ok(()),
        Err(fault) => Err(unanswered(search, fault)),
    }
}

/// Whether an interchange is looked for.
fn is_wanted(search: &Search<'_>, header: &Header, bytes: &[u8]) -> bool {
    (search.wants_party(&header.sender) || search.wants_party(&header.receiver))
        && search.wants(header.icn, bytes)
}

/// Tells of the interchange of this item number, if it is looked for.
fn log_item<H: HubRecords>(
    search: &mut Search<'_>,
    records: &mut H,
    loaded: &HubLoaded,
    item: u32,
) -> Result<(), Stop>
    requires { H.valid records.old }
    ensures { H.valid records.new }
{
    let bytes = match records.item_bytes(item) {
        Ok(Some(bytes)) => bytes,
        Ok(None) => return Ok(()),
        Err(fault) => return Err(unanswered(search, fault)),
    };
    match read_header(&bytes) {
        Ok(header) if is_wanted(search, &header, &bytes) => log_bytes(
            search, records, loaded, &header, &bytes,
        ),
        _ => Ok(()),
    }
}

/// Tells of all items what is looked for.
fn log_items<H: HubRecords>(
    search: &mut Search<'_>,
    records: &mut H,
    loaded: &HubLoaded,
) -> Result<(), Stop>
    requires { H.valid records.old }
    ensures { H.valid records.new }
{
    for item in 1..=loaded.item {
        log_item(search, records, loaded, item)?;
    }
    Ok(())
}

/// Tells what is looked for of a hub.
pub(crate) fn log_hub<H: HubRecords>(search: &mut Search<'_>, records: &mut H) -> Result<u8, Stop>
    requires { H.valid records.old }
{
    let loaded = match records.load() {
        Ok(loaded) => loaded,
        Err(fault) => return Err(unanswered(search, fault)),
    };
    search.begin()?;
    log_items(search, records, &loaded)?;
    search.ended()
}
