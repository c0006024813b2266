//! Who has a mailbox, and at which node.

ghost use Rattle.std.specs.Prelude.{◌≡◌, ◌++◌, ◌∷◌, [], ◌<◌, ◌≤◌, not, map, vec_len, vec_capacity};
ghost use Rattle.x12_judge.specs.Agreement.{is_same_party};
ghost use Rattle.x12_hub.specs.Hub.{entries_of_others, mailbox_of};
ghost use Rattle.x12_hub.specs.Record.{mailbox_view};

use x12_envelopes::Party;

/// Whether an entry is another party's.
fn is_of_other(entry: &(Party, u16), party: &Party) -> bool
    ensures { result ≡ not (is_same_party entry.now.0 party.now) }
{
    entry.0.qualifier != party.qualifier || entry.0.id != party.id
}

/// Takes a party's entry out of the directory.
pub(crate) fn leave(directory: &mut Vec<(Party, u16)>, party: Party)
    ensures entries { map mailbox_view directory.new.items
        ≡ entries_of_others party (map mailbox_view directory.old.items) }
    ensures len { vec_len directory.new ≤ vec_len directory.old }
    ensures capacity { vec_capacity directory.new ≡ vec_capacity directory.old }
{
    directory.retain(
        |entry: &(Party, u16)| -> bool
            ensures { result ≡ not (is_same_party entry.now.0 party) }
        { is_of_other(entry, &party) },
    );
}

/// Writes a party's entry anew, where there is room for it.
pub(crate) fn replace(directory: &mut Vec<(Party, u16)>, party: Party, node: u16)
    requires room { vec_len directory.old < vec_capacity directory.old }
    ensures { map mailbox_view directory.new.items
        ≡ entries_of_others party (map mailbox_view directory.old.items)
        ++ record { party = party; node = node } ∷ [] }
{
    leave(directory, party);
    directory.push_reserved((party, node));
}

/// The node of a party's mailbox, if it has one.
pub(crate) fn node_of(directory: &[(Party, u16)], party: &Party) -> Option<u16>
    ensures { result ≡ mailbox_of (map mailbox_view directory.now) party.now }
{
    for entry in directory {
        if !is_of_other(entry, party) {
            return Some(entry.1);
        }
    }
    None
}
