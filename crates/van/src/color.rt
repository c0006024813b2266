//! Whether words are coloured: on a terminal, unless the command line or the environment has it
//! otherwise.

use crate::clashes::Clash;
use clap::ArgMatches;
use command_table::{Kind, Word};
use std::env;
use std::io::IsTerminal;
use x12_inspect::Look;

/// The option that says when words are coloured.
pub(crate) const COLOR: Word = Word {
    kind: Kind::Choice {
        of: &["auto", "always", "never"],
        default: "auto",
    },
    name: "color",
    value: "WHEN",
    help: "Colours words: auto (on a terminal, where NO_COLOR is empty), always or never",
};

/// Whether colours are asked for wherever the words go.
pub fn is_always(found: &ArgMatches<'_>) -> bool {
    found.get_str("color") == Some("always")
}

/// That colours are asked for beside a form that has none.
pub fn clash(found: &ArgMatches<'_>, flag: &str, other: &'static str) -> Clash {
    Clash {
        both: found.get_flag(flag) && is_always(found),
        one: "--color always",
        other,
    }
}

/// Whether the environment asks for words without colours.
fn is_unwanted(rt: &HostRuntime) -> bool {
    match env::var(rt, "NO_COLOR") {
        Ok(value) => !value.is_empty(),
        Err(_) => false,
    }
}

/// How words are set out: on a terminal with carets, and in colours unless they are unwanted.
pub fn look(rt: &HostRuntime, found: &ArgMatches<'_>) -> Look {
    let when = found.get_str("color").unwrap_or("auto");
    if is_always(found) {
        return Look::Colors;
    }
    if !rt.stdout().is_terminal() {
        return Look::Plain;
    }
    if when == "never" || is_unwanted(rt) {
        Look::Carets
    } else {
        Look::Colors
    }
}
