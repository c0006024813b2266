//! Laws of what a loss of power leaves.
ghost use Rattle.x12_spool.specs.Power.{MarkedStand, PutStands, StoppedStands};

/// A law, with nothing to run: after a loss of power a file that was put stands whole under its name. Where its putting was stopped,
/// it stands whole, or what might have stood there before.
pub fn what_is_put_stands()
    ensures put { PutStands }
    ensures stopped { StoppedStands }
{}

/// A law, with nothing to run: where a loss of power may leave the mark of postings that are handed over, it leaves their drafts.
pub fn what_is_marked_stands()
    ensures { MarkedStand }
{}
