//! The options that several commands have, and what their help says of the exit status.

use crate::form::Form;
use clap::ArgMatches;
use command_table::{Kind, Word};

/// What the exit statuses mean.
pub(crate) const STATUSES: &str = "\
Exit status:
  0  done
  1  refused, or something failed: a sentence on standard error says what, where
     and why
  2  the command line is wrong";

/// The folder of a node.
pub(crate) const DIR: Word = Word {
    kind: Kind::One,
    name: "dir",
    value: "DIR",
    help: "The folder of a station or a hub",
};

/// The option in place of the clock.
pub(crate) const NOW: Word = Word {
    kind: Kind::Value,
    name: "now",
    value: "CCYYMMDDHHMM",
    help: "What time it is, in place of the clock (UTC), as 202501020930",
};

/// The lines are objects.
pub(crate) const JSON: Word = Word {
    kind: Kind::Flag,
    name: "json",
    value: "",
    help: "Writes one JSON object a line",
};

/// The lines are those of a table.
pub(crate) const CSV: Word = Word {
    kind: Kind::Flag,
    name: "csv",
    value: "",
    help: "Writes CSV, after a line with the column names",
};

/// The value of a word that has to be there.
pub(crate) fn text<'a>(found: &ArgMatches<'a>, name: &str) -> &'a str {
    found.get_str(name).unwrap_or("")
}

/// How lines are to be written.
pub(crate) fn form_of(found: &ArgMatches<'_>) -> Form {
    if found.get_flag("csv") {
        Form::Csv
    } else if found.get_flag("json") {
        Form::Json
    } else {
        Form::Words
    }
}
