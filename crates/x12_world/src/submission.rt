//! What was submitted: of each submission its node and its number, in their order.

ghost use Rattle.std.specs.Prelude.{◌≡◌, ◌++◌, ◌<◌, vec_len, vec_capacity};
ghost use Rattle.x12_core.specs.Submission.{listed};

use x12_core::{Listed, Sends};

/// Lists what an event submitted, if it did.
pub(crate) fn list(submitted: &mut Vec<Listed>, sends: &Sends)
    requires room { vec_len submitted.old < vec_capacity submitted.old }
    ensures { submitted.new.items ≡ submitted.old.items ++ listed sends.now }
{
    if let Sends::Submitted(at, icn, _) = sends {
        let (node, icn) = (at.node, *icn);
        submitted.push_reserved(Listed { node, icn });
    }
}
