//! A trading partner agreement: which transaction sets a partner may send, and in which functional
//! groups.

ghost use Rattle.std.specs.Prelude.{◌≡◌, ℕ, List, [], ◌∷◌, ◌++◌, map, flat_map, bytes_eq, ◌&&◌};
ghost use Rattle.std.specs.Prelude.{IfOk, OnOk, if◌then◌else◌};
ghost use Rattle.std.specs.List.{list_any};
ghost use Rattle.x12_judge.specs.Agreement.{agreement_view, is_same_party, group_is_agreed};
ghost use Rattle.x12_judge.specs.Agreement.{set_is_agreed, sets_taken, partner_is_lenient};

use smallvec::SmallVec;
use std::alloc::{AllocError, Global};
use x12_envelopes::Party;

/// A trading partner agreement: the pairs of functional identifier code (GS01) and transaction set
/// identifier (ST01) that are taken from a partner, and whether leniently.
#[derive(Debug, Drop)]
pub struct Agreement {
    /// The partner, as ISA05 and ISA06 name it.
    pub partner: Party,
    /// Whether sets are accepted whose only errors are in elements, with these noted.
    pub lenient: bool,
    /// GS01 and ST01 of what is taken, as `PO` and `850`.
    pub pairs: Vec<([u8; 2], [u8; 3])>,
}

/// Identifiers of transaction sets. Those of one functional group are mostly few, and then need no
/// memory of their own.
pub(crate) type SetIds = SmallVec<[u8; 3], 4>;

impl Agreement {
    /// Whether some transaction set is taken in functional groups of this code.
    fn has_group(&self, functional: [u8; 2]) -> bool
        ensures { result ≡ list_any (λ pair. bytes_eq pair.0 functional) self.now.pairs.items }
    {
        self.pairs.iter().any(|pair| pair.0 == functional)
    }

    /// Whether some transaction set is taken from the partner in functional groups of this code.
    fn takes_group(&self, partner: &Party, functional: [u8; 2]) -> bool
        ensures { result
            ≡ (is_same_party self.now.partner partner.now
            && list_any (λ pair. bytes_eq pair.0 functional) self.now.pairs.items) }
    {
        self.partner == *partner && self.has_group(functional)
    }

    /// Adds the identifiers of the transaction sets that are taken in functional groups of this
    /// code.
    fn push_pairs(&self, functional: [u8; 2], sets: &mut SetIds) -> Result<(), AllocError>
        ensures { OnOk result
            (sets.new.items
            ≡ sets.old.items
            ++ flat_map (λ pair. if bytes_eq pair.0 functional then pair.1 ∷ [] else [])
            self.now.pairs.items) }
    {
        for (group, set) in &self.pairs {
            if *group == functional {
                sets.push(*set)?;
            }
        }
        Ok(())
    }

    /// Adds those that are taken from this partner.
    #[tactic(auto, unfolding(crate::specs::Agreement::sets_taken))]
    fn push_sets(
        &self,
        partner: &Party,
        functional: [u8; 2],
        sets: &mut SetIds,
    ) -> Result<(), AllocError>
        ensures { let taken = sets_taken partner.now functional (agreement_view self.now) in
            OnOk result (sets.new.items ≡ sets.old.items ++ taken) }
    {
        if self.partner == *partner {
            return self.push_pairs(functional, sets);
        }
        Ok(())
    }
}

/// Whether an agreement with the partner is lenient.
fn some_is_lenient(agreements: &[Agreement], partner: &Party) -> bool
    ensures { result
        ≡ list_any (λ a. is_same_party a.partner partner.now && a.lenient) agreements.now }
{
    agreements
        .iter()
        .any(|a| a.partner == *partner && a.lenient)
}

/// Whether sets of the partner are accepted whose only errors are in elements, with these noted.
pub(crate) fn is_lenient(agreements: &[Agreement], partner: &Party) -> bool
    ensures { result ≡ partner_is_lenient (map agreement_view agreements.now) partner.now }
{
    some_is_lenient(agreements, partner)
}

/// Whether an agreement takes some transaction set from the partner in functional groups of this
/// code.
fn some_takes_group(agreements: &[Agreement], partner: &Party, functional: [u8; 2]) -> bool
    ensures { result
        ≡ list_any (λ a. is_same_party a.partner partner.now
        && list_any (λ pair. bytes_eq pair.0 functional) a.pairs.items) agreements.now }
{
    agreements
        .iter()
        .any(|a| a.takes_group(partner, functional))
}

/// Whether some transaction set is taken from the partner in functional groups of this code.
pub(crate) fn is_group_agreed(
    agreements: &[Agreement],
    partner: &Party,
    functional: [u8; 2],
) -> bool
    ensures { result ≡ group_is_agreed (map agreement_view agreements.now) partner.now functional }
{
    some_takes_group(agreements, partner, functional)
}

/// The identifiers of the transaction sets that are taken from the partner in functional groups of
/// this code.
pub(crate) fn agreed_sets(
    alloc: Global,
    agreements: &[Agreement],
    partner: &Party,
    functional: [u8; 2],
) -> Result<SetIds, AllocError>
    ensures { IfOk result
        (λ sets. (set : List ℕ) → list_any (λ i. bytes_eq i set) sets.items
        ≡ set_is_agreed (map agreement_view agreements.now) partner.now functional set) }
{
    let mut sets = SetIds::new(alloc);
    for agreement in agreements {
        agreement.push_sets(partner, functional, &mut sets)?;
    }
    Ok(sets)
}
