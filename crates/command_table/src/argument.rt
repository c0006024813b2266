//! The argument that `clap` parses, of a word of a table.

use crate::table::{Kind, Word};
use clap::{Arg, ArgAction};
use std::alloc::Global;

/// A word that is known by its place.
fn place<'a>(alloc: Global, word: &Word) -> Arg<'a> {
    Arg::new(alloc, word.name)
        .value_name(word.value)
        .help(word.help)
}

/// An option with a value.
fn option<'a>(alloc: Global, word: &Word) -> Arg<'a> {
    Arg::new(alloc, word.name)
        .long(word.name)
        .value_name(word.value)
        .help(word.help)
        .action(ArgAction::Set)
}

/// An option without a value.
fn flag<'a>(alloc: Global, word: &Word) -> Arg<'a> {
    Arg::new(alloc, word.name)
        .long(word.name)
        .help(word.help)
        .action(ArgAction::SetTrue)
}

/// The argument of a word.
pub(crate) fn argument<'a>(alloc: Global, word: &Word) -> Arg<'a> {
    match word.kind {
        Kind::One => place(alloc, word).required(true).action(ArgAction::Set),
        Kind::Many => place(alloc, word).num_args(0..).action(ArgAction::Append),
        Kind::Value => option(alloc, word),
        Kind::Wanted => option(alloc, word).required(true).allow_hyphen_values(true),
        Kind::Default(value) => option(alloc, word)
            .allow_hyphen_values(true)
            .default_value(value),
        Kind::Choice { of, default } => option(alloc, word).value_parser(of).default_value(default),
        Kind::Values => option(alloc, word).num_args(1..).action(ArgAction::Append),
        Kind::Flag => flag(alloc, word),
    }
}
