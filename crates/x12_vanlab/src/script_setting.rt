//! What the lines of a script are carried out against: the nodes by their names, and the clock.

use crate::script_fault::LineFault;
use crate::script_name::{Member, Name, hub_name, second_hub_name};
use crate::script_stop::Stop;
use std::alloc::{AllocError, Global};
use x12_envelopes::Moment;
use x12_world::{HUB_NODE, SECOND_HUB_NODE};

/// How many stations a network has at most.
const MOST_STATIONS: usize = 16;

/// A node that no network has: what is for it is refused as V4.
const NOWHERE: u16 = u16::MAX;

/// The moment at which the clock starts: 2 January 2025, 09:30.
#[tactic(auto, unfolding(x12_envelopes::specs::Moment::text_is_date, x12_envelopes::specs::Moment::text_is_time, x12_envelopes::specs::Byte::value_of_digits))]
pub(crate) fn first_moment() -> Moment {
    Moment::new(*b"20250102", *b"0930").unwrap()
}

/// The nodes of a script by their names, and its clock.
#[derive(Drop)]
pub(crate) struct Setting {
    pub(crate) alloc: Global,
    /// The first hub, then the stations, in the order of their nodes.
    pub(crate) members: Vec<Member>,
    /// There is a second hub.
    pub(crate) has_second: bool,
    /// The moment of later events.
    pub(crate) at: Moment,
}

impl Setting {
    /// The first hub alone, and the clock at its start.
    pub(crate) fn new(alloc: Global) -> Result<Setting, AllocError> {
        let mut members = Vec::new(alloc);
        members.push(Member {
            name: hub_name(),
            at_second: false,
        })?;
        Ok(Setting {
            alloc,
            members,
            has_second: false,
            at: first_moment(),
        })
    }

    /// Whether there is no station.
    pub(crate) fn is_empty(&self) -> bool {
        self.members.len() <= 1
    }

    /// The stations, in the order of their nodes.
    pub(crate) fn stations(&self) -> &[Member] {
        match self.members.split_first() {
            Some((_, stations)) => stations,
            None => &[],
        }
    }

    /// Adds the second hub.
    pub(crate) fn add_second_hub<'a>(&mut self) -> Result<(), LineFault<'a>> {
        if !self.is_empty() {
            return Err(LineFault::LateHub);
        }
        if self.has_second {
            return Err(LineFault::UsedName);
        }
        self.has_second = true;
        Ok(())
    }

    /// Adds the next station.
    pub(crate) fn add<'a>(&mut self, station: Member) -> Result<(), Stop<'a>> {
        if self.node(&station.name) != NOWHERE {
            return Err(Stop::BadLine(LineFault::UsedName));
        }
        if self.members.len() > MOST_STATIONS {
            return Err(Stop::BadLine(LineFault::TooManyStations));
        }
        if station.at_second && !self.has_second {
            return Err(Stop::BadLine(LineFault::NoSecondHub));
        }
        self.members.push(station)?;
        Ok(())
    }

    /// Whether this is the name of the second hub, and there is one.
    fn is_second_hub(&self, name: &Name) -> bool {
        self.has_second && name.party == second_hub_name().party
    }

    /// The node of this name: `NOWHERE` where there is none.
    pub(crate) fn node(&self, name: &Name) -> u16 {
        for (place, member) in self.members.iter().enumerate() {
            if member.name.party == name.party {
                return u16::try_from(place).unwrap_or(NOWHERE);
            }
        }
        if self.is_second_hub(name) {
            return SECOND_HUB_NODE;
        }
        NOWHERE
    }

    /// The node of the station of this name.
    pub(crate) fn station<'a>(&self, name: &Name) -> Result<u16, LineFault<'a>> {
        match self.node(name) {
            HUB_NODE | SECOND_HUB_NODE | NOWHERE => Err(LineFault::NoSuchStation),
            node => Ok(node),
        }
    }

    /// The name of a node, as it is written.
    pub(crate) fn word(&self, node: u16) -> &[u8] {
        match self.members.get(node as usize) {
            Some(member) => member.name.party.identifier(),
            None if node == SECOND_HUB_NODE => b"HUB2",
            None => b"?",
        }
    }
}
