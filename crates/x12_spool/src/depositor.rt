//! Who puts interchanges into a folder of a hub's, and what a hub takes from them.

ghost use Rattle.std.specs.Prelude.{◌≡◌, IfSome, IfNone, option_map, option_to_list};
ghost use Rattle.x12_hub.specs.Hub.{Refused};
ghost use Rattle.x12_spool.specs.Depositor.{IsForeign, MayDeposit, waits_to_hear, sent_back};

use crate::node::Reason;
use x12_envelopes::{Party, read_header};

/// Who puts interchanges into a folder of a hub's.
#[derive(Clone, Copy)]
pub enum Depositor {
    /// A party: what it puts names it as sender.
    Party(Party),
    /// Another hub: it passes on what its own parties sent, and puts its own refusals.
    Hub(Party),
}

/// Why a hub doesn't take bytes from a depositor, if it doesn't: they have no header, or come from a
/// party and name another sender.
pub(crate) fn reason_against(depositor: &Depositor, bytes: &[u8]) -> Option<Reason>
    ensures why { IfSome result (IsForeign depositor.now bytes.now) }
    ensures none { IfNone result (MayDeposit depositor.now bytes.now) }
{
    match read_header(bytes) {
        Err(fault) => Some(Reason::NoHeader(fault)),
        Ok(header) => match depositor {
            Depositor::Hub(_) => None,
            Depositor::Party(party) => {
                if header.sender == *party {
                    None
                } else {
                    Some(Reason::AnotherSender)
                }
            }
        },
    }
}

/// Whether a depositor waits to hear that bytes are refused: another hub doesn't, of what it wrote
/// itself, which is a refusal.
#[tactic(auto, unfolding(x12_profile::specs::Reading::header_in))]
fn is_heard(depositor: &Depositor, bytes: &[u8]) -> bool
    ensures { result ≡ waits_to_hear depositor.now bytes.now }
{
    match depositor {
        Depositor::Party(_) => true,
        Depositor::Hub(hub) => match read_header(bytes) {
            Ok(header) => header.sender != *hub,
            Err(_) => true,
        },
    }
}

/// The refusal of a deposit, for a depositor that waits to hear of it.
pub(crate) fn refusal_for(depositor: &Depositor, bytes: &[u8], reply: Vec<u8>) -> Option<Vec<u8>>
    ensures { option_to_list (option_map (λ v. v.items) result)
        ≡ sent_back depositor.now bytes.now (Refused reply.items) }
{
    if is_heard(depositor, bytes) {
        Some(reply)
    } else {
        None
    }
}
