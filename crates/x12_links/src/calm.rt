//! How long nothing has moved in a network.

use crate::course::Course;

/// How long a worker waits for a parcel: so many looks into its inboxes, each behind a rest of a twentieth
/// of a millisecond.
#[derive(Clone, Copy)]
pub struct Looks {
    /// At how many looks nothing has moved in the network, while nobody works but who is held up.
    pub calm: u64,
    /// At how many in a row nothing has moved until a worker that works counts as held up.
    pub held_up: u64,
}

/// What a worker that waits for a calm network has seen of it.
#[derive(Clone, Copy)]
pub(crate) struct Calm {
    /// For how many looks more it waits, and at how many in a row a worker that works isn't held up.
    left: u64,
    held_up: u64,
    /// What had moved at its last look, and at how many in a row nothing moved while others worked.
    moved: u64,
    still: u64,
}

impl Calm {
    /// A worker that begins to wait.
    pub fn new(course: &Course, looks: Looks) -> Calm {
        Calm {
            left: looks.calm,
            held_up: looks.held_up,
            moved: course.moved(),
            still: 0,
        }
    }

    /// One look more: whether the worker has waited enough, or nobody is left to wait for.
    pub fn is_enough(&mut self, course: &Course) -> bool {
        if self.left == 0 || course.has_ended() || course.is_settled() {
            return true;
        }
        let moved = course.moved();
        if moved != self.moved {
            self.moved = moved;
            self.still = 0;
        } else if course.is_busy() && self.still < self.held_up {
            self.still += 1;
        } else {
            self.left -= 1;
        }
        false
    }
}
