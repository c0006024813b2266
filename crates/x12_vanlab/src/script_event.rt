//! The event of a script's line.

use crate::script_line::EventLine;
use crate::script_name::Name;
use crate::script_setting::Setting;
use crate::script_stop::Stop;
use std::alloc::AllocError;
use x12_world::Event;

impl Setting {
    /// The arrival of these bytes from outside.
    fn bring(&self, node: &Name, bytes: &[u8]) -> Result<Event, AllocError> {
        Ok(Event::Outside {
            node: self.node(node),
            bytes: Vec::from_slice(self.alloc, bytes)?,
            at: self.at,
        })
    }

    /// The event of a line.
    pub(crate) fn event<'a>(&self, line: &EventLine<'a>) -> Result<Event, Stop<'a>> {
        match *line {
            EventLine::At(action) => {
                let (node, action) = (self.node(&action.actor()), self.action(&action)?);
                Ok(Event::At { node, action })
            }
            EventLine::Deliver(packet) => Ok(Event::Deliver {
                packet,
                at: self.at,
            }),
            EventLine::Outside { node, bytes } => Ok(self.bring(&node, bytes)?),
        }
    }
}
