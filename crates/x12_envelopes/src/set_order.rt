//! Set control numbers (X12.6, ST02) compare as their bytes do: a law, as a function that does nothing.

ghost use Rattle.std.specs.Prelude.{◌≡◌, bytes_eq};
ghost use Rattle.std.specs.Ordering.{nat_cmp};
ghost use Rattle.std.specs.Cmp.Lexicographic.{slice_cmp};
ghost use Rattle.x12_envelopes.specs.Shape.{bytes_of_set_no};

use crate::shape::SetNo;

/// The law that two set control numbers are equal where they are spelled alike, and that their
/// order is that of their bytes.
pub fn set_numbers_compare_as_bytes()
    ensures equal { (x y : SetNo) → ⟦<SetNo as PartialEq>⟧.eq x y
        ≡ bytes_eq (bytes_of_set_no x) (bytes_of_set_no y) }
    ensures order { (x y : SetNo) → ⟦<SetNo as Ord>⟧.cmp x y
        ≡ slice_cmp nat_cmp (bytes_of_set_no x) (bytes_of_set_no y) }
{}
