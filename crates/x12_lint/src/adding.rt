//! Rows that are added to a table: a later one stands in the place of an earlier one of the same.

use crate::element::Rule;
use crate::lines::{
    Numbers, first_line, first_word, is_segment, is_set, named, numbers_of, required,
};
use crate::table::{Counting, SegmentRow, SegmentRules, SetRows, Table};
use std::alloc::{AllocError, Global};
use thiserror::Error;

/// Why a text isn't taken into the table.
#[derive(Clone, Copy, Debug, PartialEq, Eq, Error)]
pub enum RowFault {
    /// A line isn't a row: its number, and what isn't as it has to be.
    #[error("line {0}: {1}")]
    Line(usize, &'static str),
    /// Memory was missing.
    #[error("memory ran out")]
    Memory,
}

impl From<AllocError> for RowFault {
    ghost from_gives = { λ _ _. Unit {0} };

    fn from(_: AllocError) -> RowFault {
        RowFault::Memory
    }
}

/// What a line isn't, or nothing.
type Why = Option<&'static str>;

/// What the first word of a row has to be.
const FIRST: &str = "a row begins with a set, as 850, or with a segment, as BEG";

/// What the second word of a row of a set has to be.
const SECOND: &str = "behind the set stands must, may or counts";

/// What stands behind that.
const SEGMENTS: &str = "segments are two or three capital letters and digits, as PO1";

/// What a row of a count has to be.
const COUNTS: &str = "behind counts stand two segments, as CTT PO1";

/// The index of the rules of a segment.
fn find_segment(segments: &[SegmentRules], name: &[u8]) -> Option<usize> {
    segments
        .iter()
        .position(|row| row.segment.as_slice() == name)
}

/// The index of the rows of a set.
fn find_set(sets: &[SetRows], set: &[u8]) -> Option<usize> {
    sets.iter().position(|rows| rows.set.as_slice() == set)
}

/// The index of a segment among those of a set.
fn find_row(rows: &[SegmentRow], name: &[u8]) -> Option<usize> {
    rows.iter().position(|row| row.segment.as_slice() == name)
}

/// The index of a count among those of a set.
fn find_count(counts: &[Counting], name: &[u8]) -> Option<usize> {
    counts
        .iter()
        .position(|count| count.segment.as_slice() == name)
}

/// The index of the rule of an element.
fn find_rule(rules: &[Rule], place: usize) -> Option<usize> {
    rules.iter().position(|rule| rule.place == place)
}

/// Puts a rule among those of its segment, in the place of an earlier one of the same element.
fn put_rule(rules: &mut Vec<Rule>, rule: Rule) -> Result<(), AllocError> {
    if let Some(index) = find_rule(rules, rule.place) {
        if let Some(old) = rules.get_mut(index) {
            *old = rule;
        }
        return Ok(());
    }
    Ok(rules.push(rule)?)
}

/// Puts a segment among those of a set, in the place of an earlier row of the same.
fn put_row(
    alloc: Global,
    rows: &mut Vec<SegmentRow>,
    name: &[u8],
    is_required: bool,
) -> Result<(), AllocError> {
    if let Some(index) = find_row(rows, name) {
        if let Some(old) = rows.get_mut(index) {
            old.is_required = is_required;
        }
        return Ok(());
    }
    let segment = Vec::from_slice(alloc, name)?;
    Ok(rows.push(SegmentRow {
        segment,
        is_required,
    })?)
}

/// Puts a count among those of a set, in the place of an earlier one by the same segment.
fn put_count(counts: &mut Vec<Counting>, count: Counting) -> Result<(), AllocError> {
    if let Some(index) = find_count(counts, &count.segment) {
        if let Some(old) = counts.get_mut(index) {
            *old = count;
        }
        return Ok(());
    }
    Ok(counts.push(count)?)
}

/// The rule of these numbers, with a name and codes.
fn rule_of(alloc: Global, numbers: &Numbers, words: &[u8]) -> Result<Rule, AllocError> {
    let (name, codes) = named(words);
    Ok(Rule {
        place: numbers.place,
        reference: numbers.reference,
        is_required: numbers.is_required,
        kind: numbers.kind,
        least: numbers.least,
        most: numbers.most,
        name: Vec::from_slice(alloc, name)?,
        codes: Vec::from_slice(alloc, codes)?,
    })
}

impl Table {
    /// A table without rows.
    pub fn new(alloc: Global) -> Table {
        Table {
            alloc,
            segments: Vec::new(alloc),
            sets: Vec::new(alloc),
        }
    }

    /// Adds a rule to those of a segment.
    fn add_rule(&mut self, name: &[u8], rule: Rule) -> Result<(), AllocError> {
        if let Some(index) = find_segment(&self.segments, name) {
            return match self.segments.get_mut(index) {
                Some(rows) => put_rule(&mut rows.rules, rule),
                None => Ok(()),
            };
        }
        let segment = Vec::from_slice(self.alloc, name)?;
        let mut rules = Vec::new(self.alloc);
        rules.push(rule)?;
        Ok(self.segments.push(SegmentRules { segment, rules })?)
    }

    /// The rows of a set, which may be made for it.
    fn rows_mut(&mut self, set: &[u8]) -> Result<usize, AllocError> {
        if let Some(index) = find_set(&self.sets, set) {
            return Ok(index);
        }
        let index = self.sets.len();
        self.sets.push(SetRows {
            set: Vec::from_slice(self.alloc, set)?,
            segments: Vec::new(self.alloc),
            counts: Vec::new(self.alloc),
        })?;
        Ok(index)
    }

    /// Adds segments that a set must have, or may have, each a word; or answers what isn't one.
    fn add_segments(
        &mut self,
        set: &[u8],
        is_required: bool,
        words: &[u8],
    ) -> Result<Why, AllocError> {
        let index = self.rows_mut(set)?;
        let Some(rows) = self.sets.get_mut(index) else {
            return Ok(None);
        };
        let (mut name, mut rest) = first_word(words);
        for _ in 0..words.len() {
            if !is_segment(name) {
                return Ok(Some(SEGMENTS));
            }
            put_row(self.alloc, &mut rows.segments, name, is_required)?;
            if rest.is_empty() {
                return Ok(None);
            }
            (name, rest) = first_word(rest);
        }
        Ok(Some(SEGMENTS))
    }

    /// Adds that a segment of a set counts others; or answers what isn't as it has to be.
    fn add_count(&mut self, set: &[u8], words: &[u8]) -> Result<Why, AllocError> {
        let (segment, behind) = first_word(words);
        let (counted, behind) = first_word(behind);
        if !is_segment(segment) || !is_segment(counted) || !behind.is_empty() {
            return Ok(Some(COUNTS));
        }
        let count = Counting {
            segment: Vec::from_slice(self.alloc, segment)?,
            counted: Vec::from_slice(self.alloc, counted)?,
        };
        let index = self.rows_mut(set)?;
        if let Some(rows) = self.sets.get_mut(index) {
            put_count(&mut rows.counts, count)?;
        }
        Ok(None)
    }

    /// Adds a row of a set; or answers what isn't as it has to be.
    fn add_of_set(&mut self, set: &[u8], words: &[u8]) -> Result<Why, AllocError> {
        let (word, behind) = first_word(words);
        if word == b"counts".as_slice() {
            return self.add_count(set, behind);
        }
        match required(word) {
            Some(is_required) => self.add_segments(set, is_required, behind),
            None => Ok(Some(SECOND)),
        }
    }

    /// Adds a row of an element; or answers what isn't as it has to be.
    fn add_element(&mut self, name: &[u8], words: &[u8]) -> Result<Why, AllocError> {
        match numbers_of(words) {
            Ok((numbers, behind)) => {
                let rule = rule_of(self.alloc, &numbers, behind)?;
                self.add_rule(name, rule)?;
                Ok(None)
            }
            Err(why) => Ok(Some(why)),
        }
    }

    /// Adds a row; or answers what isn't as it has to be.
    fn add_row(&mut self, line: &[u8]) -> Result<Why, AllocError> {
        let (first, words) = first_word(line);
        if is_set(first) {
            return self.add_of_set(first, words);
        }
        if is_segment(first) {
            return self.add_element(first, words);
        }
        Ok(Some(FIRST))
    }

    /// Adds the rows of a text, one a line. A line that begins with `#`, and an empty one, says nothing. A
    /// later row of an element, of a segment or of a count stands in the place of an earlier one.
    ///
    /// An error is the first line that isn't a row, or `RowFault::Memory`; the rows before it are added.
    pub fn add(&mut self, text: &[u8]) -> Result<(), RowFault> {
        let mut rest = text;
        for number in 1..usize::MAX {
            if rest.is_empty() {
                return Ok(());
            }
            let (line, behind) = first_line(rest);
            rest = behind;
            if line.is_empty() || line.starts_with(b"#") {
                continue;
            }
            if let Some(why) = self.add_row(line)? {
                return Err(RowFault::Line(number, why));
            }
        }
        Ok(())
    }
}
