//! The sets that a station accepted are handed over, each once.

ghost use Rattle.std.specs.Prelude.{◌⊎◌, ◌∷◌, [], List, Option, OnOk, OnErr, map};
ghost use Rattle.x12_inbound.specs.Posting.{posting_view};
ghost use Rattle.x12_spool.specs.Deed.{Deed, AddsDeeds, Settles, Drafts, Syncs, Marks, Names};
ghost use Rattle.x12_spool.specs.Handing.{drafted_synced_marked_named, hands_over};
ghost use Rattle.x12_spool.specs.Offering.{AreFront};
ghost use Rattle.x12_spool.specs.Turn.{Does};

use crate::spool::SpoolFault;
use crate::turn::TurnFault;
use x12_inbound::Posting;

/// Where postings are handed over, and the mark of how many were.
///
/// Whoever looks there sees named postings alone. A draft survives a loss of power once `sync` answers
/// Ok behind it; the mark and a name once their own call does.
pub trait HandOver {
    /// What was done, the oldest first. Real files: nothing is said.
    ghost done: { Self → Option (List Deed) };

    /// Of what was drafted before, these are named, and the rest is dropped.
    fn settle(&mut self, handed: &[Posting]) -> Result<(), SpoolFault>
        ensures settled { OnOk result
            (AddsDeeds (done self.old) (done self.new) (Settles (map posting_view handed.now) ∷ [])) }
        ensures unsettled { OnErr result (AddsDeeds (done self.old) (done self.new) []) };

    /// Writes a posting where nobody looks yet.
    fn draft(&mut self, posting: &Posting) -> Result<(), SpoolFault>
        ensures drafted { OnOk result
            (AddsDeeds (done self.old) (done self.new) (Drafts (posting_view posting.now) ∷ [])) }
        ensures undrafted { OnErr result (AddsDeeds (done self.old) (done self.new) []) };

    /// Waits until the drafts' names are on the disk. They may be there also where this answers an error.
    fn sync(&mut self) -> Result<(), SpoolFault>
        ensures synced { OnOk result (AddsDeeds (done self.old) (done self.new) (Syncs ∷ [])) }
        ensures unsure { OnErr result (AddsDeeds (done self.old) (done self.new) []
            ⊎ AddsDeeds (done self.old) (done self.new) (Syncs ∷ [])) };

    /// Keeps that so many postings are handed over. It may be kept also where this answers an error.
    fn mark(&mut self, handed: u64) -> Result<(), SpoolFault>
        ensures marked { OnOk result (AddsDeeds (done self.old) (done self.new) (Marks handed ∷ [])) }
        ensures unsure { OnErr result (AddsDeeds (done self.old) (done self.new) []
            ⊎ AddsDeeds (done self.old) (done self.new) (Marks handed ∷ [])) };

    /// Gives a posting that was drafted its name.
    fn name(&mut self, posting: &Posting) -> Result<(), SpoolFault>
        ensures named { OnOk result
            (AddsDeeds (done self.old) (done self.new) (Names (posting_view posting.now) ∷ [])) }
        ensures unnamed { OnErr result (AddsDeeds (done self.old) (done self.new) []) };
}

/// Drafts these postings, in their order.
fn draft_each<F: HandOver>(folder: &mut F, postings: &[Posting]) -> Result<(), TurnFault>
    ensures drafted { OnOk result (AddsDeeds (F.done folder.old) (F.done folder.new)
        (map Drafts (map posting_view postings.now))) }
    ensures stopped { OnErr result (Does (F.done folder.old) (F.done folder.new)
        (AreFront (map Drafts (map posting_view postings.now)))) }
{
    for posting in postings {
        folder.draft(posting)?;
    }
    Ok(())
}

/// Names these postings, in their order.
fn name_each<F: HandOver>(folder: &mut F, postings: &[Posting]) -> Result<(), TurnFault>
    ensures named { OnOk result (AddsDeeds (F.done folder.old) (F.done folder.new)
        (map Names (map posting_view postings.now))) }
    ensures stopped { OnErr result (Does (F.done folder.old) (F.done folder.new)
        (AreFront (map Names (map posting_view postings.now)))) }
{
    for posting in postings {
        folder.name(posting)?;
    }
    Ok(())
}

/// Drafts postings, waits until the drafts are on the disk, keeps the mark that they are handed over,
/// and then names them. A mark without its drafts would lose them.
fn hand_new<F: HandOver>(folder: &mut F, postings: &[Posting], count: u64) -> Result<(), TurnFault>
    ensures handed { OnOk result (AddsDeeds (F.done folder.old) (F.done folder.new)
        (drafted_synced_marked_named (map posting_view postings.now) count)) }
    ensures stopped { OnErr result (Does (F.done folder.old) (F.done folder.new)
        (AreFront (drafted_synced_marked_named (map posting_view postings.now) count))) }
{
    draft_each(folder, postings)?;
    folder.sync()?;
    folder.mark(count)?;
    name_each(folder, postings)
}

/// Hands over new postings of a station, which are so many then: a posting is named only once it was
/// drafted, its draft is on the disk, and the mark has it. Of those that the mark has already, `marked` are the ones whose
/// drafts may still stand: they are named first. Where it stops, the next call does the rest.
pub fn hand_over<F: HandOver>(
    folder: &mut F,
    marked: &[Posting],
    new: &[Posting],
    count: u64,
) -> Result<(), TurnFault>
    ensures handed { OnOk result (AddsDeeds (F.done folder.old) (F.done folder.new)
        (hands_over (map posting_view marked.now) (map posting_view new.now) count)) }
    ensures stopped { OnErr result (Does (F.done folder.old) (F.done folder.new)
        (AreFront (hands_over (map posting_view marked.now) (map posting_view new.now) count))) }
{
    folder.settle(marked)?;
    if new.is_empty() {
        return Ok(());
    }
    hand_new(folder, new, count)
}
