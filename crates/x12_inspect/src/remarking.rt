//! What is remarked of the sets of an interchange beyond the judgement, in words, JSON and CSV. It
//! changes no verdict.

use crate::piece::{cells, icn, members, say};
use crate::said::{Said, said_of};
use crate::slice::Interchange;
use crate::style::{Form, Style};
use crate::text::Text;
use std::alloc::{AllocError, Global};
use x12_envelopes::{Delims, Header};
use x12_judge::{GroupVerdict, SetVerdict};
use x12_lint::{Remark, Table, lint_set};

/// The most remarks on a set that are told.
const TOLD: usize = 20;

/// The remarks on the sets of an interchange, as they are written.
#[derive(Drop)]
pub(crate) struct Remarks {
    /// The text.
    pub text: Text,
    /// How many they are.
    pub count: usize,
}

/// A set that is remarked on, where it stands.
#[derive(Clone, Copy)]
struct Remarked<'r, 'a> {
    /// The place of its interchange in the input, from 1, and the interchange's header.
    interchange: usize,
    header: Header,
    group: &'r GroupVerdict<'a>,
    /// Its place in its group, from 1.
    place: usize,
    set: &'r SetVerdict<'a>,
}

impl Remarked<'_, '_> {
    /// Adds the line above the remarks on the set, of which so many are told.
    fn say_head(&self, out: &mut Text, count: usize, told: usize) {
        let group = self.group;
        say!(out; "  group ", group.place, ", ", &group.functional, " ", group.number_text);
        say!(out; ", set ", self.place, ", ", &self.set.set, " ", self.set.number.as_bytes());
        say!(out; ": ", count, if count == 1 { " remark" } else { " remarks" });
        out.say(if told < count {
            ", the first of each kind:\n"
        } else {
            "\n"
        });
    }

    /// Adds a remark as an object.
    fn put_object(&self, out: &mut Text, said: &Said<'_>) {
        out.begin_item();
        members!(out; "group": self.group.place, "set": self.place, "type": &self.set.set);
        out.member("set_number", self.set.number.as_bytes());
        said.put_members(out, &self.header.delims);
        out.say("}");
    }

    /// Adds a remark as a line of CSV.
    fn put_row(&self, out: &mut Text, file: &str, said: &Said<'_>) {
        let header = &self.header;
        out.cell_text(file.as_bytes());
        cells!(out; self.interchange, icn(header.icn), &header.sender, &header.receiver);
        cells!(out; self.group.place, &self.group.functional, self.group.number_text);
        cells!(out; self.place, &self.set.set, self.set.number.as_bytes());
        said.put_cells(out, &header.delims);
    }

    /// Adds a remark in a form.
    fn add(&self, style: &Style<'_>, out: &mut Text, said: &Said<'_>) {
        match style.form {
            Form::Text => said.say_line(out, &self.header.delims),
            Form::Json => self.put_object(out, said),
            Form::Csv => self.put_row(out, style.file, said),
        }
    }

    /// Tells what is remarked of the set.
    fn tell(&self, style: &Style<'_>, out: &mut Text, count: usize, told: &[Said<'_>]) {
        if style.form == Form::Text && count > 0 {
            self.say_head(out, count, told.len());
        }
        for said in told {
            self.add(style, out, said);
        }
    }

    /// Adds what is remarked of the set.
    fn lint(
        &self,
        alloc: Global,
        table: &Table,
        style: &Style<'_>,
        remarks: &mut Remarks,
    ) -> Result<(), AllocError> {
        let delims = self.header.delims;
        let found = lint_set(alloc, table, &delims, &self.set.set, self.set.bytes)?;
        let told = told_of(alloc, &delims, &found)?;
        self.tell(style, &mut remarks.text, found.len(), &told);
        remarks.count = remarks.count.saturating_add(found.len());
        Ok(())
    }
}

/// Whether one of these is like a remark.
fn has_like(told: &[Said<'_>], said: &Said<'_>) -> bool {
    for one in told {
        if one.is_like(said) {
            return true;
        }
    }
    false
}

/// What is told of remarks: the first of each kind.
fn told_of<'r>(
    alloc: Global,
    delims: &Delims,
    found: &[Remark<'r>],
) -> Result<Vec<Said<'r>>, AllocError> {
    let mut told = Vec::new(alloc);
    for remark in found {
        let said = said_of(delims, *remark);
        if told.len() < TOLD && !has_like(&told, &said) {
            told.push(said)?;
        }
    }
    Ok(told)
}

/// What is remarked of the sets of an interchange, by a table.
pub(crate) fn remarks_on(
    alloc: Global,
    table: &Table,
    style: &Style<'_>,
    at: &Interchange<'_, '_>,
    groups: &[GroupVerdict<'_>],
) -> Result<Remarks, AllocError> {
    let mut remarks = Remarks {
        text: Text::new(alloc, style.look),
        count: 0,
    };
    for group in groups {
        for (index, set) in group.sets.iter().enumerate() {
            let place = index.saturating_add(1);
            let one = Remarked {
                interchange: at.place,
                header: *at.header,
                group,
                place,
                set,
            };
            one.lint(alloc, table, style, &mut remarks)?;
        }
    }
    Ok(remarks)
}
