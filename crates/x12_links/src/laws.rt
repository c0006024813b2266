//! Laws of fault plans.
ghost use Rattle.x12_links.specs.Laws.{PlanGoesOn, PlansAsShown};

/// A law, with nothing to run: a longer list taken gives a list that begins with the shorter one's.
pub fn longer_lists_go_on()
    ensures { PlanGoesOn }
{}

/// A law, with nothing to run: what four plans do with given parcels.
pub fn plans_do_as_shown()
    ensures { PlansAsShown }
{}
