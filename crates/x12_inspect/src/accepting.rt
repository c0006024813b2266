//! Whether an interchange is accepted with all that it holds.

ghost use Rattle.std.specs.Prelude.{◌≡◌, map};
ghost use Rattle.std.specs.List.{list_all};
ghost use Rattle.x12_judge.specs.Set.{set_is_accepted};
ghost use Rattle.x12_judge.specs.Verdict.{group_verdict_view, set_verdict_view, judgement_view};
ghost use Rattle.x12_inspect.specs.Accepting.{is_group_accepted, is_all_accepted};

use x12_judge::{GroupVerdict, Judgement, SetVerdict, Verdict};

/// Whether each set is accepted.
fn accepts_sets(sets: &[SetVerdict<'_>]) -> bool
    ensures { result ≡ list_all set_is_accepted (map set_verdict_view sets.now) }
{
    for set in sets {
        if !set.is_accepted() {
            return false;
        }
    }
    true
}

/// Whether a group isn't refused, and each of its sets is accepted.
fn accepts_group(group: &GroupVerdict<'_>) -> bool
    ensures { result ≡ is_group_accepted (group_verdict_view group.now) }
{
    group.refused.is_none() && accepts_sets(&group.sets)
}

/// Whether each group is accepted with all its sets.
fn accepts_groups(groups: &[GroupVerdict<'_>]) -> bool
    ensures { result ≡ list_all is_group_accepted (map group_verdict_view groups.now) }
{
    for group in groups {
        if !accepts_group(group) {
            return false;
        }
    }
    true
}

/// Whether an interchange is accepted with all that it holds: it isn't refused, none of its groups
/// is, and each set is accepted.
pub fn accepts_all(judgement: &Judgement<'_>) -> bool
    ensures { result ≡ is_all_accepted (judgement_view judgement.now) }
{
    match &judgement.verdict {
        Verdict::Refused(_) => false,
        Verdict::Judged(groups) => accepts_groups(groups),
    }
}
