//! Which node an event asks, and how.

ghost use Rattle.std.specs.Prelude.{◌≡◌, option_map};
ghost use Rattle.x12_world.specs.Effect.{asked_by};
ghost use Rattle.x12_world.specs.EventView.{asked_view, event_view};
ghost use Rattle.x12_world.specs.View.{held_view};

use crate::event::Event;
use crate::packets::{Held, find};
use x12_core::AskRef;

/// The node that an event asks, and what it asks there; `None` where it delivers a packet that isn't
/// held.
pub(crate) fn asked<'a>(held: &'a Held, event: &'a Event) -> Option<(u16, AskRef<'a>)>
    ensures { option_map asked_view result
        ≡ asked_by (held_view held.now.items) (event_view event.now) }
{
    match event {
        Event::At { node, action } => Some((*node, AskRef::Do(action))),
        Event::Deliver { packet, at } => {
            let name = *packet;
            let packet = find(held, packet)?;
            Some((
                packet.to,
                AskRef::Deliver {
                    packet: name,
                    from: packet.from,
                    load: &packet.load,
                    at: *at,
                },
            ))
        }
        Event::Outside { node, bytes, at } => Some((*node, AskRef::Outside { bytes, at: *at })),
    }
}
