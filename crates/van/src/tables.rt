//! The table of `van check --lint`: the rows that are built in, and those of a partner's file.

use crate::files;
use anyhow::Result;
use clap::ArgMatches;
use command_table::{Kind, Word};
use x12_inspect::{Form, Look, Style, shown};
use x12_lint::{Table, add_builtin};

/// The option that asks for remarks.
pub(crate) const LINT: Word = Word {
    kind: Kind::Flag,
    name: "lint",
    value: "",
    help: "Also remarks on segments and elements by a table of rows; a remark changes no verdict and no status",
};

/// The option that names a partner's rows.
pub(crate) const TABLE: Word = Word {
    kind: Kind::Value,
    name: "table",
    value: "FILE",
    help: "Adds the rows of this file to the table, one row a line (docs/van.md), and does what --lint does",
};

/// Whether remarks are asked for.
pub fn is_asked(found: &ArgMatches<'_>) -> bool {
    found.get_flag("lint") || found.get_str("table").is_some()
}

/// The rows that are built in.
pub fn builtin(rt: &HostRuntime) -> Result<Table> {
    let mut table = Table::new(rt.alloc());
    add_builtin(&mut table)?;
    Ok(table)
}

/// The bytes of a file of rows; none, where a sentence on standard error says why it can't be read.
fn read(rt: &HostRuntime, file: &str) -> Result<Option<Vec<u8>>> {
    let style = Style {
        form: Form::Text,
        look: Look::Plain,
        file,
        is_quiet: false,
    };
    files::read(rt, &style)
}

/// The table with the rows of a file; none, where a sentence on standard error says why they can't be
/// taken.
fn with_rows(rt: &HostRuntime, mut table: Table, file: &str) -> Result<Option<Table>> {
    let Some(text) = read(rt, file)? else {
        return Ok(None);
    };
    if let Err(fault) = table.add(&text) {
        let name = shown(rt.alloc(), file)?;
        eprintln!(rt; "van: {name}: {fault}")?;
        return Ok(None);
    }
    Ok(Some(table))
}

/// The table that is asked for; none, where its file can't be taken.
pub fn table(rt: &HostRuntime, found: &ArgMatches<'_>) -> Result<Option<Table>> {
    let table = builtin(rt)?;
    match found.get_str("table") {
        Some(file) => with_rows(rt, table, file),
        None => Ok(Some(table)),
    }
}
