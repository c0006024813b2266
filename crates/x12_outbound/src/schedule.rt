//! The schedule of sendings: an open interchange is sent again after 1, 2, 4 .. ticks, and from
//! then on after 64.
ghost use Rattle.std.specs.Prelude.{◌≡◌, ◌≤◌, ◌<◌};
ghost use Rattle.x12_outbound.specs.Schedule.{unsent_schedule, sent_at, wait_after};

use crate::evidence::counted;

/// How often an interchange was sent since its ledger was made, and when it is due again.
#[derive(Clone, Copy)]
pub(crate) struct Schedule {
    /// How often it was sent; stays at `u64::MAX`.
    pub sendings: u64,
    /// The tick from which it is due again.
    pub due: u64,
}

/// The longest wait between two sendings, in ticks.
const LONGEST_WAIT: u64 = 64;

impl Schedule {
    /// Not sent yet: due at once.
    pub(crate) fn unsent() -> Schedule
        ensures { result ≡ unsent_schedule }
    {
        Schedule {
            sendings: 0,
            due: 0,
        }
    }

    /// The schedule after one sending more, at this tick.
    #[tactic(auto, unfolding(crate::specs::Schedule::sent_at))]
    pub(crate) fn sent(self, now: u64) -> Schedule
        ensures { result ≡ sent_at now self }
    {
        let sendings = counted(self.sendings);
        Schedule {
            sendings,
            due: now.saturating_add(wait(sendings)),
        }
    }
}

/// How many ticks to wait after the sending that makes this number of sendings.
fn wait(sendings: u64) -> u64
    requires { 1 ≤ sendings }
    ensures { result ≡ wait_after sendings }
{
    if sendings > 6 {
        LONGEST_WAIT
    } else {
        1 << (sendings - 1)
    }
}
