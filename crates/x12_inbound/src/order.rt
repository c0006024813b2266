//! The order in which interchanges and transaction sets are kept: by sender, then by number,
//! then by place.
ghost use Rattle.std.specs.Prelude.{◌≡◌};
ghost use Rattle.x12_acks.specs.Key.{key_view};
ghost use Rattle.x12_inbound.specs.Order.{interchange, interchange_order, set_order};

use std::cmp::Ordering;
use x12_acks::SetKey;
use x12_envelopes::Party;

/// Compares two interchanges, each by its sender and its number.
pub(crate) fn compare_interchanges(
    sender: &Party,
    icn: u32,
    other: &Party,
    other_icn: u32,
) -> Ordering
    ensures { result ≡
        interchange_order (interchange sender.now icn) (interchange other.now other_icn) }
{
    sender.cmp(other).then(icn.cmp(&other_icn))
}

/// Compares two transaction sets, by their interchanges and their places in them.
pub(crate) fn compare_sets(key: &SetKey, other: &SetKey) -> Ordering
    ensures { result ≡ set_order (key_view key.now) (key_view other.now) }
{
    compare_interchanges(&key.sender, key.icn, &other.sender, other.icn)
        .then(key.group.cmp(&other.group))
        .then(key.set.cmp(&other.set))
}
