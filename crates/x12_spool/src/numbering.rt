//! The numbers of mailboxes.

ghost use Rattle.std.specs.Prelude.{◌≤◌, IfSome};
ghost use Rattle.x12_spool.specs.Numbering.{IsAboveAll};

/// The greater of two numbers.
fn greater(a: u16, b: u16) -> u16
    ensures first { a ≤ result }
    ensures second { b ≤ result }
{
    if a > b { a } else { b }
}

/// The number of a new mailbox: above each that was given before. None: no number is left above them.
pub fn next_node(given: &[u16]) -> Option<u16>
    ensures new { IfSome result (λ node. IsAboveAll node given.now) }
{
    let mut greatest = 0_u16;
    for node in given {
        greatest = greater(greatest, *node);
    }
    greatest.checked_add(1)
}
