//! Going over the interchanges of a transmission, one after another: the one loop of all questions.

ghost use Rattle.std.specs.Prelude.{◌≡◌, ◌∷◌, [], ◌&&◌, List, ℕ, Bool, true, IfOk, OnOk};
ghost use Rattle.x12_envelopes.specs.Writing.{texts};
ghost use Rattle.x12_inspect.specs.Inspecting.{outcome_by, EndsAs, WasAsked};

use crate::slice::Slice;
use crate::style::Look;
use crate::text::Text;
use std::alloc::{AllocError, Global};
use std::io::Write;
use x12_answering::{RunFault, write_last, write_piece};
use x12_envelopes::split_transmission;

/// What a run found.
#[derive(Clone, Copy, PartialEq, Eq)]
pub enum Outcome {
    /// Nothing is wrong.
    AllRight,
    /// Something is wrong.
    SomethingWrong,
    /// No interchange stands in the input.
    Nothing,
}

impl Outcome {
    /// The outcome where all is right, or something is wrong.
    pub fn of(all_right: bool) -> Outcome
        ensures { result ≡ outcome_by all_right }
    {
        if all_right {
            Outcome::AllRight
        } else {
            Outcome::SomethingWrong
        }
    }
}

/// What is asked of each interchange of a transmission, in order.
pub(crate) trait Inspector {
    /// From here on all is right of these interchanges, one after another.
    ghost all_right: { Self → List (List ℕ) → Bool };

    /// From one inspector to another it was asked of these interchanges, one after another.
    ghost asked: { Self → List (List ℕ) → Self → Type 0 };

    /// Adds what is said of an interchange, and answers whether that is right.
    fn inspect(
        &mut self,
        alloc: Global,
        out: &mut Text,
        slice: &Slice<'_>,
    ) -> Result<bool, AllocError>
        ensures right { IfOk result (λ right. (more : List (List ℕ)) →
            all_right self.old (slice.now.bytes.now ∷ more) ≡ (right && all_right self.new more)) }
        ensures asked { OnOk result ((more : List (List ℕ)) → (last : Self) →
            asked self.new more last → asked self.old (slice.now.bytes.now ∷ more) last) };

    // of no interchange all is right, and nothing was asked
    ghost of_none: { (inspector : Self) → all_right inspector [] ≡ true };

    ghost at_last: { (inspector : Self) → asked inspector [] inspector };
}

/// Inspects interchanges in turn, and writes what is said of them.
fn inspect_each<I: Inspector, W: Write>(
    alloc: Global,
    inspector: &mut I,
    look: Look,
    interchanges: &[&[u8]],
    out: &mut W,
) -> Result<Outcome, RunFault>
    ensures ends { IfOk result (λ outcome.
        outcome ≡ outcome_by (I.all_right inspector.old (texts interchanges.now))) }
    ensures asked { OnOk result (I.asked inspector.old (texts interchanges.now) inspector.new) }
{
    let mut all_right = true;
    let mut text = Text::new(alloc, look);
    for (index, bytes) in interchanges.iter().enumerate() {
        let slice = Slice {
            place: index + 1,
            bytes,
        };
        let right = inspector.inspect(alloc, &mut text, &slice)?;
        all_right &= right;
        write_piece(text.whole()?, out)?;
    }
    write_last(text.whole()?, out)?;
    Ok(Outcome::of(all_right))
}

/// Inspects each interchange of a transmission, in order, and writes what is said of it to `out`.
///
/// On an error, `RunFault::Write` or `RunFault::Memory`, what was said of the first interchanges may
/// have been written.
pub(crate) fn inspect_all<I: Inspector, W: Write>(
    alloc: Global,
    inspector: &mut I,
    look: Look,
    input: &[u8],
    out: &mut W,
) -> Result<Outcome, RunFault>
    ensures ends { IfOk result (λ outcome. EndsAs (I.all_right inspector.old) input.now outcome) }
    ensures asked { OnOk result (WasAsked (λ interchanges.
        I.asked inspector.old interchanges inspector.new) input.now) }
{
    let interchanges = split_transmission(alloc, input)?;
    let slices = interchanges.as_slice();
    if slices.is_empty() {
        return Ok(Outcome::Nothing);
    }
    inspect_each(alloc, inspector, look, slices, out)
}
