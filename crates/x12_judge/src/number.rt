//! The control numbers of a functional group's transaction sets that were seen.

ghost use Rattle.std.specs.Prelude.{◌≡◌, ℕ, ◌||◌, List, IfOk, OnOk, bytes_eq, false, true, map};
ghost use Rattle.std.specs.Ordering.{nat_cmp, is_lt};
ghost use Rattle.std.specs.Cmp.Lexicographic.{slice_cmp};
ghost use Rattle.x12_envelopes.specs.Shape.{bytes_of_set_no};
ghost use Rattle.x12_judge.specs.Number.{has_seen, key_of_number, AllDiffer, number_of_set};

use std::alloc::{AllocError, Global};
use std::collections::BTreeSet;
use x12_envelopes::{SetNo, SetView};

/// The control numbers that were seen.
#[derive(Drop)]
pub(crate) struct Numbers {
    seen: BTreeSet<[u8; 10]>,
    /// Whether all numbers differ, as those that rise do: then none has to be kept.
    differ: bool,
}

/// A control number's length, then its bytes from the last to the first, filled up with zero bytes:
/// numbers that rise by one differ in their last byte, so that two keys differ soon.
#[tactic(auto, unfolding(crate::specs::Number::key_of_number))]
fn key_of(number: &SetNo) -> [u8; 10]
    ensures { result ≡ key_of_number (bytes_of_set_no number.now) }
{
    let text = number.as_bytes();
    let mut key = [0; 10];
    key[0] = number.len;
    key[1..text.len() + 1].copy_from_slice(text);
    key[1..text.len() + 1].reverse();
    key
}

/// Whether bytes come before others in their order.
fn are_before(bytes: &[u8], others: &[u8]) -> bool
    ensures { result ≡ is_lt (slice_cmp nat_cmp bytes.now others.now) }
{
    bytes.cmp(others).is_lt()
}

/// Whether the control numbers of these sets rise by their bytes: then they all differ. Others may
/// differ too.
fn are_rising(sets: &[SetView<'_>]) -> bool
    ensures { result ≡ true → AllDiffer (map number_of_set sets.now) }
{
    let mut last: &[u8] = &[];
    for set in sets {
        let number = set.number.as_bytes();
        if !are_before(last, number) {
            return false;
        }
        last = number;
    }
    true
}

impl Numbers {
    /// No number yet, of those of these transaction sets.
    pub(crate) fn of(alloc: Global, sets: &[SetView<'_>]) -> Numbers
        ensures none { (n : List ℕ) → has_seen result n ≡ false }
        ensures differ { result.differ ≡ true → AllDiffer (map number_of_set sets.now) }
    {
        Numbers {
            seen: BTreeSet::new(alloc),
            differ: are_rising(sets),
        }
    }

    /// Sees a control number: whether it was seen before. Where all numbers differ it wasn't, and
    /// isn't kept.
    pub(crate) fn see(&mut self, number: &SetNo) -> Result<bool, AllocError>
        ensures repeated { self.old.differ ≡ false
            → IfOk result (λ r. r ≡ has_seen self.old (bytes_of_set_no number.now)) }
        ensures seen { self.old.differ ≡ false → OnOk result
            ((n : List ℕ) → has_seen self.new n
            ≡ (bytes_eq (bytes_of_set_no number.now) n || has_seen self.old n)) }
        ensures differs { self.old.differ ≡ true → IfOk result (λ r. r ≡ false) }
        ensures differ { self.new.differ ≡ self.old.differ }
    {
        if self.differ {
            return Ok(false);
        }
        let added = self.seen.insert(key_of(number))?;
        Ok(!added)
    }
}
