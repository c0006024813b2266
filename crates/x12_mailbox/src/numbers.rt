//! The numbers of mailboxes that a hub has given: those of its records, and those of its folders.

use crate::enrolling::{hub_trouble, node_in};
use crate::listing::names_in;
use crate::opening::{OpensRecords, open_a_hub};
use crate::stop::Stop;
use crate::words::below;
use std::alloc::AllocError;
use std::str;
use x12_hub::{Decision, HubLoaded, HubRecords, HubStoreFault};

/// Adds the numbers of the mailboxes below a hub's folder.
pub(crate) fn add_of_folders(rt: &HostRuntime, dir: &str, to: &mut Vec<u16>) -> Result<(), Stop> {
    for name in &names_in(rt, dir)? {
        if let Ok(name) = str::from_utf8(name) {
            if let Some(node) = node_in(rt, below(rt.alloc(), dir, name)?.as_str())? {
                to.push(node)?;
            }
        }
    }
    Ok(())
}

/// Adds the numbers that parties have, and those of the mailboxes in which something waits.
fn add_of_loaded(loaded: &HubLoaded, to: &mut Vec<u16>) -> Result<(), AllocError> {
    for (_, node) in &loaded.directory {
        to.push(*node)?;
    }
    for (node, _) in &loaded.mailboxes {
        to.push(*node)?;
    }
    Ok(())
}

/// Adds a number, unless it is there.
fn add(to: &mut Vec<u16>, node: u16) -> Result<(), AllocError> {
    if !to.contains(&node) {
        to.push(node)?;
    }
    Ok(())
}

/// The number of the mailbox for which an item was decided, if it was.
fn node_of_item<H: HubRecords>(records: &mut H, item: u32) -> Result<Option<u16>, HubStoreFault>
    requires { H.valid records.old }
    ensures { H.valid records.new }
{
    let Some(bytes) = records.item_bytes(item)? else {
        return Ok(None);
    };
    match records.find_decision(&bytes)? {
        Some(Decision::Boxed { node, .. }) => Ok(Some(node)),
        _ => Ok(None),
    }
}

/// Adds the numbers of the mailboxes for which items were decided: whoever has one gets what is sent again.
fn add_of_items<H: HubRecords>(
    records: &mut H,
    last: u32,
    to: &mut Vec<u16>,
) -> Result<(), HubStoreFault>
    requires { H.valid records.old }
    ensures { H.valid records.new }
{
    for item in 1..=last {
        if let Some(node) = node_of_item(records, item)? {
            add(to, node)?;
        }
    }
    Ok(())
}

/// The numbers that a hub's records know.
fn of_records<H: HubRecords>(rt: &HostRuntime, records: &mut H) -> Result<Vec<u16>, HubStoreFault>
    requires { H.valid records.old }
{
    let mut numbers = Vec::new(rt.alloc());
    let loaded = records.load()?;
    add_of_loaded(&loaded, &mut numbers)?;
    add_of_items(records, loaded.item, &mut numbers)?;
    Ok(numbers)
}

/// The numbers that the records of a hub's folder know.
pub(crate) fn known_numbers<O: OpensRecords>(
    rt: &HostRuntime,
    opens: &O,
    dir: &str,
) -> Result<Vec<u16>, Stop> {
    let mut records = open_a_hub(rt, opens, dir)?.close();
    match of_records(rt, &mut records) {
        Ok(numbers) => Ok(numbers),
        Err(fault) => Err(hub_trouble(rt, dir, fault.into())),
    }
}
