//! What holds of evidence and of its counts, over the definitions alone.
ghost use Rattle.x12_outbound.specs.Counts.{CountsAddUp};
ghost use Rattle.x12_outbound.specs.FirstEvidence.{EvidenceSettles};

use x12_acks::evidence_is_of_each;

/// Counting evidence in parts, and adding the counts up, is counting it all at once.
pub fn counts_add_up()
    ensures law { CountsAddUp }
{}

/// After evidence a pending transaction set has the fate of the first piece about it, and any other is
/// as it was. Of a set whose interchange is among submitted ones with rising numbers, what the answers
/// tell of that interchange alone is enough; so a ledger of the open ones settles as one of all.
pub fn the_first_evidence_settles()
    ensures law { EvidenceSettles }
{
    evidence_is_of_each();
}
