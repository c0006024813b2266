//! What holds of the hub's definitions: laws, as functions that do nothing.

ghost use Rattle.x12_hub.specs.DecidesOnce.{HubDecidesOnce};
ghost use Rattle.x12_hub.specs.HubRefusal.{RefusesByTable};

/// Whatever happens to a hub, no bytes stand twice among its decisions, the last item number is how
/// many decisions there are, and what was decided on bytes is its answer to them for good.
pub fn a_hub_decides_once()
    ensures law { HubDecidesOnce }
{}

/// A deposit is a step of the hub exactly where no row of its table of refusals holds.
pub fn a_hub_refuses_by_its_table()
    ensures law { RefusesByTable }
{}
