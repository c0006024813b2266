//! Sets of a ledger are settled by all of a plan's evidence, or one by one; or they are laid back.

ghost use Rattle.std.specs.Prelude.{◌≡◌, false};
ghost use Rattle.x12_acks.specs.Key.{key_view};
ghost use Rattle.x12_outbound.specs.Ledger.{NoneIsOut, row_of, can_be_lifted};

use std::alloc::{AllocError, Global};
use x12_acks::{Answer, SetKey};
use x12_envelopes::Party;
use x12_outbound::{Counts, Evidence, Fate, Ledger};

/// Settles by these answers from this party, as they are planned: which sets get which fate, and the counts.
pub fn settle(
    alloc: Global,
    sender: &mut Ledger,
    from: &Party,
    answers: &[Answer],
) -> Result<(Vec<(SetKey, Fate)>, Counts), AllocError>
    requires { NoneIsOut sender.old.holds }
{
    let closed = sender.beside();
    let settling = sender.plan(from, answers, &closed)?;
    match settling.targets(alloc) {
        Ok(targets) => Ok((targets, sender.settle_all(settling))),
        Err(missing) => {
            settling.abandon();
            Err(missing)
        }
    }
}

/// Whether the set can be lifted; it is laid back.
pub fn can_lift(sender: &mut Ledger, key: &SetKey) -> bool
    ensures waits { result ≡ can_be_lifted (row_of sender.old.holds (key_view key.now)) }
    ensures unchanged { result ≡ false → sender.new ≡ sender.old }
{
    match sender.lift(key) {
        Some(set) => {
            sender.lay(set);
            true
        }
        None => false,
    }
}

/// Closes the set by the evidence. Where it can't, it counts the evidence, and lays the set back.
pub fn settle_set(sender: &mut Ledger, key: &SetKey, evidence: Evidence, counts: &mut Counts) {
    match sender.lift(key) {
        Some(set) => match set.settle(evidence) {
            Ok(closed) => sender.close(closed),
            Err((set, evidence)) => {
                sender.lay(set);
                evidence.shelve(counts);
            }
        },
        None => evidence.shelve(counts),
    }
}
