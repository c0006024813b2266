//! The elements of a segment, taken one after the other, and those of GS (X12.6).

ghost use Rattle.std.specs.Prelude.{◌≡◌, ◌≤◌, ◌<◌, ◌+◌, ◌-◌, ◌==◌, ◌∷◌, [], ℕ, length, true};
ghost use Rattle.std.specs.Prelude.{IfSome, IsNone};
ghost use Rattle.std.specs.List.{slice_split, position_or_len};
ghost use Rattle.x12_envelopes.specs.Remaining.{elements_left, left_at, AreOfGs};
ghost use Rattle.x12_envelopes.specs.Segment.{element_of, count_of_elements};

use crate::segment::Segment;

/// How many bytes stand in front of the first separator; all, where there is none.
pub(crate) fn element_len(separator: u8, bytes: &[u8]) -> usize
    ensures count { result ≡ position_or_len (λ b. b == separator) bytes.now }
    ensures within { result ≤ length bytes.now }
{
    bytes.iter().take_while(|b| **b != separator).count()
}

/// Cuts bytes at their first separator: what stands before it, and what stands behind it; `None`
/// where there is none. Elements are short, so each byte is looked at in turn.
fn cut_element<'a>(separator: u8, bytes: &'a [u8]) -> Option<(&'a [u8], &'a [u8])>
    ensures none { IsNone result → slice_split (λ b. b == separator) bytes.now ≡ bytes.now ∷ [] }
    ensures some { IfSome result (λ c. slice_split (λ b. b == separator) bytes.now
        ≡ c.0.now ∷ slice_split (λ b. b == separator) c.1.now) }
{
    let end = element_len(separator, bytes);
    if end == bytes.len() {
        return None;
    }
    let (element, ended) = bytes.split_at(end);
    let (_, behind) = ended.split_at(1);
    Some((element, behind))
}

/// The elements of a segment that are still to come, the identifier first.
#[derive(Clone, Copy)]
pub(crate) struct Remaining<'a> {
    separator: u8,
    bytes: &'a [u8],
    ended: bool,
}

impl<'a> Remaining<'a> {
    /// Takes the next element; empty where there is none.
    fn take(&mut self) -> &'a [u8]
        ensures first { result.now ≡ left_at self.old 0 }
        ensures rest { (n : ℕ) → left_at self.new n ≡ left_at self.old (n + 1) }
        ensures fewer { length (elements_left self.new) ≡ length (elements_left self.old) - 1 }
    {
        if self.ended {
            return &[];
        }
        match cut_element(self.separator, self.bytes) {
            Some((element, behind)) => {
                self.bytes = behind;
                element
            }
            None => {
                self.ended = true;
                self.bytes
            }
        }
    }

    /// Whether an element that was taken isn't empty, and none is still to come.
    fn end_behind(&self, element: &[u8]) -> bool
        ensures over { result ≡ true → length (elements_left self.now) ≡ 0 }
        ensures some { result ≡ true → 0 < length element.now }
    {
        self.ended && !element.is_empty()
    }
}

/// The elements of GS, each as it stands; empty where one is missing.
#[derive(Clone, Copy)]
pub(crate) struct GroupHeader<'a> {
    /// GS01.
    pub(crate) functional: &'a [u8],
    /// GS02.
    pub(crate) sender: &'a [u8],
    /// GS03.
    pub(crate) receiver: &'a [u8],
    /// GS04.
    pub(crate) date: &'a [u8],
    /// GS05.
    pub(crate) time: &'a [u8],
    /// GS06.
    pub(crate) number: &'a [u8],
    /// GS07.
    pub(crate) agency: &'a [u8],
    /// GS08.
    pub(crate) version: &'a [u8],
}

impl<'a> Segment<'a> {
    /// The elements from the identifier on.
    fn remaining(&self) -> Remaining<'a>
        ensures each { (n : ℕ) → left_at result n ≡ element_of self.now.delims self.now.bytes.now n }
        ensures all { elements_left result
            ≡ slice_split (λ b. b == self.now.delims.element) self.now.bytes.now }
    {
        Remaining {
            separator: self.delims.element,
            bytes: self.bytes,
            ended: false,
        }
    }

    /// The first two elements, in one pass.
    pub(crate) fn first_two(&self) -> (&'a [u8], &'a [u8])
        ensures first { result.0.now ≡ element_of self.now.delims self.now.bytes.now 1 }
        ensures second { result.1.now ≡ element_of self.now.delims self.now.bytes.now 2 }
    {
        let mut elements = self.remaining();
        let _identifier = elements.take();
        let first = elements.take();
        let second = elements.take();
        (first, second)
    }

    /// The first eight elements, in one pass, and whether it shows that they are all: the last of
    /// them isn't empty, and nothing follows.
    pub(crate) fn group_header(&self) -> (GroupHeader<'a>, bool)
        ensures elements { AreOfGs self.now.delims self.now.bytes.now result.0 }
        ensures all { result.1 ≡ true → count_of_elements self.now.delims self.now.bytes.now ≡ 8 }
    {
        let mut elements = self.remaining();
        let _identifier = elements.take();
        let functional = elements.take();
        let sender = elements.take();
        let receiver = elements.take();
        let date = elements.take();
        let time = elements.take();
        let number = elements.take();
        let agency = elements.take();
        let version = elements.take();
        let header = GroupHeader {
            functional,
            sender,
            receiver,
            date,
            time,
            number,
            agency,
            version,
        };
        let are_all = elements.end_behind(version);
        (header, are_all)
    }
}
