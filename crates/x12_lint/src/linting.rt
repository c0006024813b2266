//! Going over a transaction set: which rows of the table it doesn't meet.

ghost use Rattle.std.specs.Prelude.{◌≡◌, [], ◌∷◌, ◌++◌, map, filter_map, flat_map, option_map};
ghost use Rattle.std.specs.Prelude.{IfOk, OnOk};
ghost use Rattle.std.specs.List.{cons_option, enumerate_from};
ghost use Rattle.x12_envelopes.specs.Writing.{texts};
ghost use Rattle.x12_lint.specs.Linting.{remark_view, is_envelope, is_another_number};
ghost use Rattle.x12_lint.specs.Linting.{is_this_number, remark_of_counting, placed_at};
ghost use Rattle.x12_lint.specs.Linting.{AreElements, wrong_element};
ghost use Rattle.x12_envelopes.specs.Byte.{number_of_digits};
ghost use Rattle.x12_lint.specs.Linting.{remark_of_element, remark_of_missing, remark_of_count};
ghost use Rattle.x12_lint.specs.Linting.{remarks_if_unknown, remarks_of_segment, remarks_by_rows};
ghost use Rattle.x12_lint.specs.Linting.{remarks_of_set, SetRemark};

use crate::element::{ElementKind, Flaw, Rule, flaw_of};
use crate::naming::{Place, count_named, first_named, read_of, some_has_name};
use crate::part::{cut_elements, element_at, segments_of};
use crate::remark::Remark;
use crate::table::{Counting, SegmentRow, SetRows, Table, has_row, rows_of_set, rules_of_segment};
use std::alloc::{AllocError, Global};
use x12_envelopes::{Delims, Segment, number_of};

/// Adds a remark, where there is one.
fn add<'r>(remarks: &mut Vec<Remark<'r>>, remark: Option<Remark<'r>>) -> Result<(), AllocError>
    ensures { OnOk result (map remark_view remarks.new.items ≡ map remark_view remarks.old.items
        ++ cons_option (option_map remark_view remark.entry) []) }
{
    if let Some(remark) = remark {
        remarks.push(remark)?;
    }
    Ok(())
}

/// Adds what is wrong with an element, where something is.
fn add_flaw<'r>(
    position: usize,
    segment: &'r [u8],
    rule: &'r Rule,
    flaw: Option<Flaw>,
    remarks: &mut Vec<Remark<'r>>,
) -> Result<(), AllocError>
    ensures { let wrong = option_map (wrong_element position segment.now rule.now) flaw in
        OnOk result (map remark_view remarks.new.items
        ≡ map remark_view remarks.old.items ++ cons_option wrong []) }
{
    let Some(flaw) = flaw else {
        return Ok(());
    };
    Ok(remarks.push(Remark::Element {
        position,
        segment,
        rule,
        flaw,
    })?)
}

/// Adds what is remarked of an element of a segment, which was cut into its elements.
#[tactic(auto, unfolding(crate::specs::Linting::remark_of_element))]
fn lint_element<'r>(
    position: usize,
    read: &Segment<'r>,
    elements: &[&'r [u8]],
    rule: &'r Rule,
    remarks: &mut Vec<Remark<'r>>,
) -> Result<(), AllocError>
    requires { AreElements read.now.delims read.now.bytes.now elements.now }
    ensures { let wrong = remark_of_element read.now.delims position read.now.bytes.now rule.now in
        OnOk result (map remark_view remarks.new.items
        ≡ map remark_view remarks.old.items ++ cons_option wrong []) }
{
    let flaw = flaw_of(
        rule,
        element_at(&read.delims, read.bytes, elements, rule.place),
    );
    add_flaw(position, read.bytes, rule, flaw, remarks)
}

/// Adds what is remarked of the elements of a segment.
fn lint_elements<'r>(
    position: usize,
    read: &Segment<'r>,
    elements: &[&'r [u8]],
    rules: &'r [Rule],
    remarks: &mut Vec<Remark<'r>>,
) -> Result<(), AllocError>
    requires { AreElements read.now.delims read.now.bytes.now elements.now }
    ensures { let flaws = remark_of_element read.now.delims position read.now.bytes.now in
        OnOk result (map remark_view remarks.new.items
        ≡ map remark_view remarks.old.items ++ filter_map flaws rules.now) }
{
    for rule in rules {
        lint_element(position, read, elements, rule, remarks)?;
    }
    Ok(())
}

/// Adds that a segment isn't in the rows of its set.
fn lint_name<'r>(
    rows: &SetRows,
    name: &[u8],
    position: usize,
    segment: &'r [u8],
    remarks: &mut Vec<Remark<'r>>,
) -> Result<(), AllocError>
    ensures { OnOk result (map remark_view remarks.new.items ≡ map remark_view remarks.old.items
        ++ remarks_if_unknown rows.now name.now position segment.now) }
{
    if has_row(&rows.segments, name) {
        return Ok(());
    }
    add(remarks, Some(Remark::UnknownSegment { position, segment }))
}

/// Whether an identifier is that of a set's header or trailer.
fn is_of_envelope(name: &[u8]) -> bool
    ensures { result ≡ is_envelope name.now }
{
    name == b"ST".as_slice() || name == b"SE".as_slice()
}

/// Adds what is remarked of the elements of a segment by these rules. They are cut into the list of
/// elements, which is lent for that.
fn lint_known<'r>(
    position: usize,
    read: &Segment<'r>,
    rules: &'r [Rule],
    elements: &mut Vec<&'r [u8]>,
    remarks: &mut Vec<Remark<'r>>,
) -> Result<(), AllocError>
    ensures { let flaws = remark_of_element read.now.delims position read.now.bytes.now in
        OnOk result (map remark_view remarks.new.items
        ≡ map remark_view remarks.old.items ++ filter_map flaws rules.now) }
{
    cut_elements(&read.delims, read.bytes, elements)?;
    lint_elements(position, read, elements, rules, remarks)
}

/// Adds what is remarked of a segment.
#[tactic(auto, unfolding(crate::specs::Linting::remarks_of_segment))]
fn lint_segment<'r>(
    table: &'r Table,
    rows: &SetRows,
    position: usize,
    read: &Segment<'r>,
    elements: &mut Vec<&'r [u8]>,
    remarks: &mut Vec<Remark<'r>>,
) -> Result<(), AllocError>
    ensures { OnOk result (map remark_view remarks.new.items ≡ map remark_view remarks.old.items
        ++ remarks_of_segment table.now rows.now read.now.delims (position, read.now.bytes.now)) }
{
    let name = read.identifier();
    if is_of_envelope(name) {
        return Ok(());
    }
    lint_name(rows, name, position, read.bytes, remarks)?;
    lint_known(
        position,
        read,
        rules_of_segment(table, name),
        elements,
        remarks,
    )
}

/// Adds what is remarked of each segment of a set.
fn lint_segments<'r>(
    alloc: Global,
    table: &'r Table,
    rows: &SetRows,
    delims: &Delims,
    parts: &[&'r [u8]],
    remarks: &mut Vec<Remark<'r>>,
) -> Result<(), AllocError>
    ensures { OnOk result (map remark_view remarks.new.items ≡ map remark_view remarks.old.items
        ++ flat_map (remarks_of_segment table.now rows.now delims.now)
        (enumerate_from 1 (texts parts.now))) }
{
    let mut elements = Vec::new(alloc);
    for (index, part) in parts.iter().enumerate() {
        lint_segment(
            table,
            rows,
            index + 1,
            &read_of(delims, part),
            &mut elements,
            remarks,
        )?;
    }
    Ok(())
}

/// That a segment which has to be there isn't.
#[tactic(auto, unfolding(crate::specs::Linting::remark_of_missing))]
fn missing_remark<'r>(
    delims: &Delims,
    parts: &[&'r [u8]],
    row: &'r SegmentRow,
) -> Option<Remark<'r>>
    ensures { option_map remark_view result
        ≡ remark_of_missing delims.now (texts parts.now) row.now }
{
    if !row.is_required || some_has_name(delims, &row.segment, parts) {
        return None;
    }
    Some(Remark::MissingSegment {
        position: parts.len(),
        identifier: &row.segment,
    })
}

/// Adds which segments a set lacks.
fn lint_missing<'r>(
    delims: &Delims,
    parts: &[&'r [u8]],
    rows: &'r [SegmentRow],
    remarks: &mut Vec<Remark<'r>>,
) -> Result<(), AllocError>
    ensures { let missing = remark_of_missing delims.now (texts parts.now) in
        OnOk result (map remark_view remarks.new.items
        ≡ map remark_view remarks.old.items ++ filter_map missing rows.now) }
{
    for row in rows {
        add(remarks, missing_remark(delims, parts, row))?;
    }
    Ok(())
}

/// Whether digits spell this number.
fn spells(text: &[u8], number: usize) -> bool
    ensures { result ≡ is_this_number (number_of_digits text.now) number }
{
    match number_of(text) {
        Some(said) => said as usize == number,
        None => false,
    }
}

/// Whether a text is a number, but another one than this.
fn says_another(text: &[u8], number: usize) -> bool
    ensures { result ≡ is_another_number text.now number }
{
    ElementKind::Integer.holds(text) && !spells(text, number)
}

/// That the segment which counts, where there is one, says another number than this.
fn wrong_count<'r>(
    delims: &Delims,
    place: Option<Place<'r>>,
    counted: &'r [u8],
    number: usize,
) -> Option<Remark<'r>>
    ensures { let placed = option_map (λ p. placed_at p.position p.segment.now) place.entry in
        option_map remark_view result
        ≡ remark_of_counting delims.now counted.now number placed }
{
    let Place { position, segment } = place?;
    if !says_another(read_of(delims, segment).element(1), number) {
        return None;
    }
    Some(Remark::Count {
        position,
        segment,
        counted,
        number,
    })
}

/// That a count isn't the number of the segments that it counts.
#[tactic(auto, unfolding(crate::specs::Linting::remark_of_count))]
fn count_remark<'r>(delims: &Delims, parts: &[&'r [u8]], count: &'r Counting) -> Option<Remark<'r>>
    ensures { option_map remark_view result
        ≡ remark_of_count delims.now (texts parts.now) count.now }
{
    let place = first_named(delims, &count.segment, parts);
    let number = count_named(delims, &count.counted, parts);
    wrong_count(delims, place, &count.counted, number)
}

/// Adds which counts of a set are wrong.
fn lint_counts<'r>(
    delims: &Delims,
    parts: &[&'r [u8]],
    counts: &'r [Counting],
    remarks: &mut Vec<Remark<'r>>,
) -> Result<(), AllocError>
    ensures { let wrong = remark_of_count delims.now (texts parts.now) in
        OnOk result (map remark_view remarks.new.items
        ≡ map remark_view remarks.old.items ++ filter_map wrong counts.now) }
{
    for count in counts {
        add(remarks, count_remark(delims, parts, count))?;
    }
    Ok(())
}

/// What is remarked of a set that has rows.
#[tactic(auto, unfolding(crate::specs::Linting::remarks_by_rows))]
fn lint_rows<'r>(
    alloc: Global,
    table: &'r Table,
    rows: &'r SetRows,
    delims: &Delims,
    parts: &[&'r [u8]],
) -> Result<Vec<Remark<'r>>, AllocError>
    ensures { IfOk result (λ remarks. map remark_view remarks.items
        ≡ remarks_by_rows table.now delims.now (texts parts.now) rows.now) }
{
    let mut remarks = Vec::new(alloc);
    lint_segments(alloc, table, rows, delims, parts, &mut remarks)?;
    lint_missing(delims, parts, &rows.segments, &mut remarks)?;
    lint_counts(delims, parts, &rows.counts, &mut remarks)?;
    Ok(remarks)
}

/// That the table has no rows for a set.
fn unknown_set<'r>(alloc: Global) -> Result<Vec<Remark<'r>>, AllocError>
    ensures { IfOk result (λ remarks. map remark_view remarks.items ≡ SetRemark.unknown_set ∷ []) }
{
    let mut remarks = Vec::new(alloc);
    add(&mut remarks, Some(Remark::UnknownSet))?;
    Ok(remarks)
}

/// What is remarked of a set with this identifier (ST01), of which these are the bytes from ST on: of
/// its segments in order, then what it lacks, then its counts.
#[tactic(auto, unfolding(crate::specs::Linting::remarks_of_set))]
pub fn lint_set<'r>(
    alloc: Global,
    table: &'r Table,
    delims: &Delims,
    identifier: &[u8],
    set: &'r [u8],
) -> Result<Vec<Remark<'r>>, AllocError>
    ensures { IfOk result (λ remarks. map remark_view remarks.items
        ≡ remarks_of_set table.now delims.now identifier.now set.now) }
{
    match rows_of_set(table, identifier) {
        Some(rows) => {
            let parts = segments_of(alloc, delims, set)?;
            lint_rows(alloc, table, rows, delims, &parts)
        }
        None => unknown_set(alloc),
    }
}
