//! A plan: the evidence that the answers of an interchange bring, piece by piece, each to be used
//! once.
ghost use Rattle.std.specs.Prelude.{◌≡◌, ◌<◌, ◌^◌, ◌∷◌, [], length, map, IfOk, IfSome, IfNone};
ghost use Rattle.x12_outbound.specs.Settling.{target_view, targets_of};
ghost use Rattle.x12_outbound.specs.Piece.{piece_view};

use crate::evidence::{Evidence, Piece};
use crate::fate::Fate;
use std::alloc::{AllocError, Global};
use std::marker::Model;
use x12_acks::SetKey;

/// The evidence that the answers of an interchange bring to a ledger, and what each piece of it is
/// there. It has no `Drop`: its ledger settles by it, or it is taken apart, or it is abandoned.
#[must_use]
pub struct Settling {
    pieces: Vec<Piece>,
    used: usize,
    unclear: u64,
}

impl Model for Settling {
    ghost use Rattle.std.specs.Prelude.{drop, map};
    ghost use Rattle.x12_outbound.specs.Piece.{piece_view};
    ghost use Rattle.x12_outbound.specs.Plan.{Plan};

    ghost Value = { Plan };

    ghost view = { λ s. record {
      pieces = map piece_view (drop s.used s.pieces.items);
      unclear = s.unclear;
    } };
}

impl Settling {
    /// A plan of these pieces, with this number of unclear answers.
    pub(crate) fn new(pieces: Vec<Piece>, unclear: u64) -> Settling
        ensures { result ≡ record { pieces = map piece_view pieces.items; unclear = unclear } }
    {
        Settling {
            pieces,
            used: 0,
            unclear,
        }
    }

    /// How many answers were unclear. A plan has fewer pieces than there are numbers of 64 bits.
    pub(crate) fn unclear(&self) -> u64
        ensures answers { result ≡ self.now.unclear }
        ensures few { length self.now.pieces < 2 ^ 64 }
    {
        self.unclear
    }

    /// The pieces that are left.
    fn left(&self) -> &[Piece]
        ensures { map piece_view result.now ≡ self.now.pieces }
    {
        if self.used < self.pieces.len() {
            &self.pieces[self.used..]
        } else {
            &[]
        }
    }

    /// The sets that the plan settles, in order, each with the fate that it gets. The plan stays as
    /// it is.
    ///
    /// `Err` where memory is missing.
    #[tactic(auto, unfolding(crate::specs::Settling::targets_of))]
    pub fn targets(&self, alloc: Global) -> Result<Vec<(SetKey, Fate)>, AllocError>
        ensures { IfOk result (λ v. map target_view v.items ≡ targets_of self.now.pieces) }
    {
        let mut targets = Vec::new(alloc);
        for piece in self.left() {
            if let Some(target) = piece.target() {
                targets.push(target)?;
            }
        }
        Ok(targets)
    }

    /// The next piece of evidence, and the rest. `None` where none is left: the plan is spent.
    pub fn next(self) -> Option<(Evidence, Settling)>
        ensures next { IfSome result (λ x. self.pieces ≡ x.0 ∷ x.1.pieces) }
        ensures unclear { IfSome result (λ x. x.1.unclear ≡ self.unclear) }

        ensures spent { IfNone result (self.pieces ≡ []) }
    {
        let Settling {
            pieces,
            used,
            unclear,
        } = self;
        if used >= pieces.len() {
            return None;
        }
        let evidence = Evidence {
            piece: pieces[used],
        };
        let rest = Settling {
            pieces,
            used: used + 1,
            unclear,
        };
        Some((evidence, rest))
    }

    /// Spends a plan that isn't carried out. It takes neither a ledger nor counts, so by its
    /// signature it changes none of them; no clause could say more.
    pub fn abandon(self) {
        let Settling {
            pieces: _,
            used: _,
            unclear: _,
        } = self;
    }
}
