//! The control number book of a station: the last interchange control number (X12.5, ISA13) and the
//! last group control number (X12.6, GS06) that it used.
ghost use Rattle.std.specs.Prelude.{◌≡◌, ◌+◌, ◌≤◌, ◌↔◌, [], ◌∷◌, not, IsTrue, IsErr, IsSome, IfOk};
ghost use Rattle.std.specs.Prelude.{IfSome, OnOk, OnErr};
ghost use Rattle.std.specs.List.{range_with_len};
ghost use Rattle.std.specs.Option.{SomeIff};
ghost use Rattle.x12_numbers.specs.Book.{new_book, is_rising, latest_number, are_new, is_exhausted};
ghost use Rattle.x12_numbers.specs.Book.{Uses};

use crate::refusal::{Exhausted, NotNew};
use std::marker::Model;

/// The greatest control number: nine digits, in ISA13 as in GS06.
pub const MAX_CONTROL_NUMBER: u32 = 999_999_999;

/// The last interchange and the last group control number that a station used; 0 stands for none.
///
/// Each number that a book gives, or is raised to, is above all before it and at most 999999999,
/// whatever the calls: see [`numbers_rise`](crate::numbers_rise). A refused call leaves the book as
/// it was.
#[derive(Clone, Copy, Debug, PartialEq, Eq)]
pub struct Book {
    interchange: u32,
    group: u32,
}

impl Model for Book {
    ghost use Rattle.std.specs.Prelude.{◌≤◌};
    ghost use Rattle.x12_numbers.specs.Book.{Numbers};
    ghost use Rattle.x12_numbers.specs.declared.book.TheConstants.{MAX_CONTROL_NUMBER};

    ghost Value = { Numbers };

    ghost view = { λ b. record { interchange = b.interchange; group = b.group } };

    ghost invariant = { λ b. (b.interchange ≤ MAX_CONTROL_NUMBER)
        × (b.group ≤ MAX_CONTROL_NUMBER) };

    ghost inverse = { λ n. record { interchange = n.interchange; group = n.group } };
}

impl Book {
    /// A book in which no number was used.
    pub fn new() -> Book
        ensures { result ≡ new_book }
    {
        Book {
            interchange: 0,
            group: 0,
        }
    }

    /// The book with these last numbers, of interchanges and of groups; 0 stands for none.
    ///
    /// None where one is above 999999999.
    pub fn at(icn: u32, gcn: u32) -> Option<Book>
        ensures valid { IsSome result ↔ ((icn ≤ MAX_CONTROL_NUMBER) × (gcn ≤ MAX_CONTROL_NUMBER)) }
        ensures book { IfSome result (λ b. b ≡ record { interchange = icn; group = gcn }) }
    {
        if icn > MAX_CONTROL_NUMBER || gcn > MAX_CONTROL_NUMBER {
            return None;
        }
        Some(Book {
            interchange: icn,
            group: gcn,
        })
    }

    /// The last interchange control number used, or 0.
    pub fn interchange(&self) -> u32
        ensures last { result ≡ self.now.interchange }
        ensures within { result ≤ MAX_CONTROL_NUMBER }
    {
        self.interchange
    }

    /// The last group control number used, or 0.
    pub fn group(&self) -> u32
        ensures last { result ≡ self.now.group }
        ensures within { result ≤ MAX_CONTROL_NUMBER }
    {
        self.group
    }

    /// Takes the next interchange control number.
    ///
    /// N1 ([`Exhausted`]) where the last one is 999999999.
    pub fn take_interchange(&mut self) -> Result<u32, Exhausted>
        ensures next { IfOk result (λ icn. icn ≡ self.old.interchange + 1) }
        ensures within { IfOk result (λ icn. icn ≤ MAX_CONTROL_NUMBER) }
        ensures uses { IfOk result (λ icn. Uses self.old self.new (icn ∷ []) []) }

        ensures exhausted { IsErr result ↔ IsTrue (is_exhausted self.old.interchange 1) }
        ensures err { OnErr result (self.new ≡ self.old) }
    {
        take_next(&mut self.interchange, 1)
    }

    /// Takes the next `count` group control numbers, at least one, and gives the first of them.
    ///
    /// N1 ([`Exhausted`]) where the last of them would be above 999999999.
    pub fn take_groups(&mut self, count: u32) -> Result<u32, Exhausted>
        requires { 1 ≤ count }
        ensures next { IfOk result (λ first. first ≡ self.old.group + 1) }
        ensures within { OnOk result (self.old.group + count ≤ MAX_CONTROL_NUMBER) }
        ensures book { OnOk result (self.new ≡ record self.old { group = self.old.group + count }) }
        // What it used are the `count` numbers from the first on.
        ensures uses { IfOk result (λ first.
            Uses self.old self.new [] (range_with_len first count)) }

        ensures exhausted { IsErr result ↔ IsTrue (is_exhausted self.old.group count) }
        ensures err { OnErr result (self.new ≡ self.old) }
    {
        take_next(&mut self.group, count)
    }

    /// Raises the book to the numbers of an interchange that was numbered elsewhere: its own, and
    /// those of its groups in their order. Where it has no group, the book's group number stays.
    ///
    /// N2 ([`NotNew`]) where they aren't new to the book: the interchange control number has to be
    /// above the last one, each group control number above the one before it, the first above the
    /// last one, and none above 999999999.
    pub fn raise(&mut self, icn: u32, groups: &[u32]) -> Result<(), NotNew>
        ensures uses { OnOk result (Uses self.old self.new (icn ∷ []) groups.now) }

        ensures not_new { IsErr result ↔ IsTrue (not (are_new self.old (icn ∷ []) groups.now)) }
        ensures err { OnErr result (self.new ≡ self.old) }
    {
        let interchange = last_risen(self.interchange, &[icn]).ok_or(NotNew)?;
        let group = last_risen(self.group, groups).ok_or(NotNew)?;
        *self = Book { interchange, group };
        Ok(())
    }
}

/// Takes the next `count` numbers above `last`, and gives the first of them; N1 where the last of
/// them would be above 999999999.
fn take_next(last: &mut u32, count: u32) -> Result<u32, Exhausted>
    requires { last.old ≤ MAX_CONTROL_NUMBER }
    ensures first { IfOk result (λ first. first ≡ last.old + 1) }
    ensures taken { OnOk result (last.new ≡ last.old + count) }
    ensures within { last.new ≤ MAX_CONTROL_NUMBER }

    ensures exhausted { IsErr result ↔ IsTrue (is_exhausted last.old count) }
    ensures err { OnErr result (last.new ≡ last.old) }
{
    if count > MAX_CONTROL_NUMBER - *last {
        return Err(Exhausted);
    }
    let first = *last + 1;
    *last += count;
    Ok(first)
}

/// The last of the numbers, or `last` where there is none; None where they don't rise above `last`.
fn last_risen(last: u32, numbers: &[u32]) -> Option<u32>
    requires { last ≤ MAX_CONTROL_NUMBER }
    ensures rising { SomeIff result (IsTrue (is_rising last numbers.now))
        (latest_number last numbers.now) }
    ensures within { IfSome result (λ n. n ≤ MAX_CONTROL_NUMBER) }
{
    let mut latest = last;
    for &number in numbers {
        if number <= latest || number > MAX_CONTROL_NUMBER {
            return None;
        }
        latest = number;
    }
    Some(latest)
}
