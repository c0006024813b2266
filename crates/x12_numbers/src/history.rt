//! The history of a control number book: the numbers that were used, call by call.
ghost use Rattle.std.specs.Prelude.{List};
ghost use Rattle.x12_numbers.specs.Book.{Numbers};
ghost use Rattle.x12_numbers.specs.History.{Step, IsHistory, interchanges_of, groups_of, Rises};

/// A law, with nothing to run: after any list of takes and raises, from a new book or from one at
/// given numbers, each interchange control number that was given or raised is above all before it
/// and at most 999999999, and so is each group control number.
///
/// A step of the list is what [`Book::take_interchange`](crate::Book::take_interchange),
/// [`Book::take_groups`](crate::Book::take_groups) and [`Book::raise`](crate::Book::raise) promise
/// under `uses`. A refused call is no step: it leaves the book as it was.
pub fn numbers_rise()
    ensures interchanges { (book : Numbers) (steps : List Step) → IsHistory book steps
        → Rises book.interchange (interchanges_of steps) }
    ensures groups { (book : Numbers) (steps : List Step) → IsHistory book steps
        → Rises book.group (groups_of steps) }
{}
