//! What a link makes of the parcels that it takes, one by one.
ghost use Rattle.std.specs.Prelude.{◌≡◌, ◌∷◌, [], OnOk, OnErr};
ghost use Rattle.x12_links.specs.Plan.{standing_after, put_next};
ghost use Rattle.x12_links.specs.Route.{standing_of};

use crate::plan::{FaultPlan, Handling};
use std::alloc::AllocError;
use std::collections::VecDeque;
use std::mem;

/// What a link counted, what it holds, and what it has to put before it takes the next parcel.
#[derive(Drop)]
pub(crate) struct Route<P: Copy> {
    pub count: u64,
    pub held: VecDeque<P>,
    pub pending: VecDeque<P>,
}

/// The parcel is to be put, and behind it what is held.
fn release<P: Copy>(route: &mut Route<P>, parcel: P) -> Result<(), AllocError>
    requires { route.old.pending.items ≡ [] }
    ensures count { route.new.count ≡ route.old.count }
    ensures held { OnOk result (route.new.held.items ≡ []) }
    ensures pending { OnOk result (route.new.pending.items ≡ parcel ∷ route.old.held.items) }
    ensures err { OnErr result ((route.new.held.items ≡ route.old.held.items) × (route.new.pending.items ≡ [])) }
{
    route.held.reserve(1)?;
    route.held.push_front_reserved(parcel);
    mem::swap(&mut route.held, &mut route.pending);
    Ok(())
}

/// The parcel is to be put twice, and behind both what is held.
fn release_twice<P: Copy>(route: &mut Route<P>, parcel: P) -> Result<(), AllocError>
    requires { route.old.pending.items ≡ [] }
    ensures count { route.new.count ≡ route.old.count }
    ensures held { OnOk result (route.new.held.items ≡ []) }
    ensures pending { OnOk result (route.new.pending.items ≡ parcel ∷ parcel ∷ route.old.held.items) }
    ensures err { OnErr result ((route.new.held.items ≡ route.old.held.items) × (route.new.pending.items ≡ [])) }
{
    route.held.reserve(2)?;
    route.held.push_front_reserved(parcel);
    route.held.push_front_reserved(parcel);
    mem::swap(&mut route.held, &mut route.pending);
    Ok(())
}

/// The next parcel is handled as the plan says.
pub(crate) fn take_next<P: Copy>(
    plan: &FaultPlan,
    route: &mut Route<P>,
    parcel: P,
) -> Result<(), AllocError>
    requires { route.old.pending.items ≡ [] }
    ensures standing { OnOk result (standing_of route.new ≡ standing_after plan.now (standing_of route.old) parcel) }
    ensures pending { OnOk result (route.new.pending.items ≡ put_next plan.now (standing_of route.old) parcel) }
    ensures err { OnErr result ((standing_of route.new ≡ standing_of route.old) × (route.new.pending.items ≡ [])) }
{
    let count = route.count.checked_add(1).ok_or(AllocError)?;
    match plan.handling(count) {
        Handling::Lost => {}
        Handling::Doubled => release_twice(route, parcel)?,
        Handling::Held => route.held.push_back(parcel)?,
        Handling::Passed => release(route, parcel)?,
    }
    route.count = count;
    Ok(())
}
