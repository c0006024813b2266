//! What an interchange that arrives is, by what is filed under its sender and number.
ghost use Rattle.std.specs.Prelude.{◌≡◌, option_map};
ghost use Rattle.x12_inbound.specs.Filing.{filed_under};
ghost use Rattle.x12_inbound.specs.Arrival.{arrival};
ghost use Rattle.x12_inbound.specs.Sighting.{sighting_of, seen_view};

use crate::arrival::Arrived;
use crate::filing::Filed;
use x12_envelopes::Party;

/// What an interchange that arrives is.
#[derive(Drop)]
pub enum Seen<'a> {
    /// Nothing is filed under its sender and number: it is to be judged.
    New(Arrived<'a>),
    /// The same bytes are filed: the kept reply answers it again, `None` where none was due.
    Same(Option<&'a [u8]>),
    /// Other bytes are filed under its sender and number.
    Other,
}

/// Says what an interchange from this partner under this number is, by what is filed under them.
#[tactic(auto, unfolding(crate::specs::Sighting::sighting_of))]
pub fn look<'a>(found: Option<&'a Filed>, partner: &Party, icn: u32, bytes: &'a [u8]) -> Seen<'a>
    ensures { seen_view result ≡
        sighting_of (option_map (λ f. filed_under partner.now icn f.now) found.entry)
        (arrival partner.now icn bytes.now) }
{
    let Some(filed) = found else {
        return Seen::New(Arrived {
            partner: *partner,
            icn,
            bytes,
        });
    };
    if filed.bytes.as_slice() != bytes {
        return Seen::Other;
    }
    match &filed.reply {
        Some(reply) => Seen::Same(Some(reply.as_slice())),
        None => Seen::Same(None),
    }
}
