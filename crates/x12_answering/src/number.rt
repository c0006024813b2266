//! The control numbers that replies use in turn (X12.5, ISA13; X12.6, GS06).

ghost use Rattle.std.specs.Prelude.{◌≡◌, false};
ghost use Rattle.x12_answering.specs.Number.{numbers_are_exhausted, numbers_behind, AreNext};

/// The greatest control number: nine digits.
pub(crate) const GREATEST: u32 = 999_999_999;

/// The control numbers to be used next: 1 to 999999999, or 1000000000 where none is left.
#[derive(Clone, Copy, PartialEq, Eq)]
pub(crate) struct NextNumbers {
    /// Of an interchange (ISA13).
    pub(crate) icn: u32,
    /// Of a functional group (GS06).
    pub(crate) gcn: u32,
}

impl NextNumbers {
    /// Whether a number that a reply takes is missing.
    pub(crate) fn are_exhausted(&self, takes_group: bool) -> bool
        ensures { result ≡ numbers_are_exhausted self.now takes_group }
    {
        self.icn > GREATEST || (takes_group && self.gcn > GREATEST)
    }

    /// Uses up what a reply takes.
    pub(crate) fn use_up(&mut self, takes_group: bool)
        requires next { AreNext self.old }
        requires left { numbers_are_exhausted self.old takes_group ≡ false }
        ensures behind { self.new ≡ numbers_behind self.old takes_group }
        ensures next { AreNext self.new }
    {
        self.icn += 1;
        if takes_group {
            self.gcn += 1;
        }
    }
}
