//! Going over the segments of an interchange: how deep each stands, its position in its set, and what
//! a trailer says beside what was counted.

ghost use Rattle.std.specs.Prelude.{◌≡◌, ◌<◌, ◌==◌, ◌∷◌, [], length, OnSome, IfSome, IsNone};
ghost use Rattle.std.specs.List.{slice_split};
ghost use Rattle.x12_envelopes.specs.Segment.{behind_line_ends};
ghost use Rattle.x12_segments.specs.Walk.{segments_to_show, segments_shown, bytes_to_show};

use crate::plain::{line_ends, without_line_ends};
use x12_envelopes::{Delims, Segment, cut_at, number_of};

/// What a trailer says, and what was found.
#[derive(Clone, Copy)]
pub struct Compared<'a> {
    /// The count that it says.
    pub count: &'a [u8],
    /// What was counted.
    pub counted: usize,
    /// The control number that it says.
    pub number: &'a [u8],
    /// The identifier of the header.
    pub header: &'static str,
    /// The control number that the header says.
    pub said: &'a [u8],
    /// Whether both agree.
    pub agrees: bool,
}

/// A segment where it stands.
#[derive(Clone, Copy)]
pub struct Placed<'a> {
    /// Its offset from the I of ISA.
    pub at: usize,
    /// Its bytes, without the terminator and the line ends in front.
    pub bytes: &'a [u8],
    /// How deep it stands: 0 the interchange, 1 a group, 2 a set, 3 what a set holds.
    pub depth: usize,
    /// Its position in its set, as AK3 counts it: ST is 1.
    pub position: Option<usize>,
    /// Of a trailer, what it says.
    pub compared: Option<Compared<'a>>,
}

/// The segments of an interchange that are still to come.
#[derive(Clone, Copy)]
pub struct Walk<'a> {
    delims: Delims,
    whole: usize,
    rest: &'a [u8],
    position: usize,
    sets: usize,
    groups: usize,
    icn: &'a [u8],
    group: &'a [u8],
    set: &'a [u8],
}

/// Whether two control numbers are the same: as numbers, where both are.
fn is_same(one: &[u8], other: &[u8]) -> bool {
    match number_of(one) {
        Some(number) => number_of(other) == Some(number),
        None => one == other,
    }
}

impl<'a> Walk<'a> {
    /// All segments of an interchange.
    pub fn new(delims: Delims, bytes: &'a [u8]) -> Walk<'a>
        ensures { segments_to_show result ≡ segments_shown delims.terminator bytes.now }
    {
        Walk {
            delims,
            whole: bytes.len(),
            rest: bytes,
            position: 0,
            sets: 0,
            groups: 0,
            icn: &[],
            group: &[],
            set: &[],
        }
    }

    /// What a trailer says of its part.
    fn compare(
        &self,
        read: &Segment<'a>,
        counted: usize,
        header: &'static str,
        said: &'a [u8],
    ) -> Option<Compared<'a>> {
        let count = read.element(1);
        let number = read.element(2);
        let numbers_agree = if header == "ST" {
            number == said
        } else {
            is_same(number, said)
        };
        let counts_agree = match number_of(count) {
            Some(count) => u64::from(count) == counted as u64,
            None => false,
        };
        Some(Compared {
            count,
            counted,
            number,
            header,
            said,
            agrees: numbers_agree && counts_agree,
        })
    }

    /// Begins a group.
    fn enter_group(&mut self, read: &Segment<'a>)
        ensures rest { self.new.rest.now ≡ self.old.rest.now }
        ensures delims { self.new.delims ≡ self.old.delims }
    {
        self.group = read.element(6);
        self.groups = self.groups.saturating_add(1);
        self.sets = 0;
        self.position = 0;
    }

    /// Begins a set.
    fn enter_set(&mut self, read: &Segment<'a>)
        ensures rest { self.new.rest.now ≡ self.old.rest.now }
        ensures delims { self.new.delims ≡ self.old.delims }
    {
        self.set = read.element(2);
        self.sets = self.sets.saturating_add(1);
        self.position = 1;
    }

    /// Counts a segment, and says how deep it stands, its position in its set, and what it says.
    fn count(&mut self, read: &Segment<'a>) -> (usize, Option<usize>, Option<Compared<'a>>)
        ensures rest { self.new.rest.now ≡ self.old.rest.now }
        ensures delims { self.new.delims ≡ self.old.delims }
    {
        let position = if self.position > 0 {
            self.position.saturating_add(1)
        } else {
            0
        };
        self.position = position;
        match read.identifier() {
            b"ISA" => {
                self.icn = read.element(13);
                (0, None, None)
            }
            b"GS" => {
                self.enter_group(read);
                (1, None, None)
            }
            b"ST" => {
                self.enter_set(read);
                (2, Some(1), None)
            }
            b"SE" => {
                self.position = 0;
                (
                    2,
                    Some(position),
                    self.compare(read, position, "ST", self.set),
                )
            }
            b"GE" => {
                self.position = 0;
                (1, None, self.compare(read, self.sets, "GS", self.group))
            }
            b"IEA" => {
                self.position = 0;
                (0, None, self.compare(read, self.groups, "ISA", self.icn))
            }
            _ if position == 0 => (1, None, None),
            _ => (3, Some(position), None),
        }
    }

    /// A segment where it stands, of which this many bytes and those behind were left.
    fn place(&mut self, left: usize, piece: &'a [u8]) -> Placed<'a>
        ensures bytes { result.bytes.now ≡ behind_line_ends piece.now }
        ensures rest { self.new.rest.now ≡ self.old.rest.now }
        ensures delims { self.new.delims ≡ self.old.delims }
    {
        let bytes = without_line_ends(piece);
        let at = self.whole.saturating_sub(left);
        let (depth, position, compared) = self.count(&Segment {
            bytes,
            delims: self.delims,
        });
        Placed {
            at: at.saturating_add(line_ends(piece)),
            bytes,
            depth,
            position,
            compared,
        }
    }

    /// What stands behind the last terminator, if it is more than line ends.
    fn last(&mut self) -> Option<Placed<'a>>
        requires { slice_split (λ b. b == self.old.delims.terminator) self.old.rest.now
            ≡ self.old.rest.now ∷ [] }
        ensures some { IfSome result (λ p. segments_to_show self.old ≡ p.bytes.now ∷ []) }
        ensures none { IsNone result → segments_to_show self.old ≡ [] }
        ensures some_left { OnSome result (0 < length self.old.rest.now) }
        ensures rest { self.new.rest.now ≡ [] }
        ensures delims { self.new.delims ≡ self.old.delims }
    {
        let piece = self.rest;
        self.rest = &[];
        if without_line_ends(piece).is_empty() {
            return None;
        }
        Some(self.place(piece.len(), piece))
    }

    /// The next segment; at last what stands behind the last terminator, if it is more than line ends.
    pub fn step(&mut self) -> Option<Placed<'a>>
        ensures some { IfSome result (λ p.
            segments_to_show self.old ≡ p.bytes.now ∷ segments_to_show self.new) }
        ensures none { IsNone result → segments_to_show self.old ≡ [] }
        ensures shorter { OnSome result
            (length (bytes_to_show self.new) < length (bytes_to_show self.old)) }
        ensures delims { self.new.delims ≡ self.old.delims }
    {
        let left = self.rest.len();
        match cut_at(self.delims.terminator, self.rest) {
            Some((piece, behind)) => {
                self.rest = behind;
                Some(self.place(left, piece))
            }
            None => self.last(),
        }
    }
}
