//! The words of the command line: short options in full, and words that aren't UTF-8.

use std::alloc::{AllocError, Global};
use std::env::Env;
use std::str;

/// A short option of `check`, and the same in full.
struct Short(&'static str, &'static str);

/// The short options of `check`.
static SHORTS: [Short; 3] = [
    Short("-r", "--recursive"),
    Short("-q", "--quiet"),
    Short("-h", "--help"),
];

/// The most bytes that a word may have which isn't UTF-8.
const MOST: usize = 131_072;

/// A word in full.
fn in_full<'a>(word: &'a str) -> &'a str {
    for short in &SHORTS {
        if short.0 == word {
            return short.1;
        }
    }
    word
}

/// The words with the short options of `check` in full; behind `--` stands none.
pub fn with_long_options(alloc: Global, words: &[String]) -> Result<Vec<String>, AllocError> {
    let mut all = Vec::new(alloc);
    let mut are_options = false;
    for (index, word) in words.iter().enumerate() {
        let word = word.as_str();
        if index == 1 {
            are_options = word == "check";
        }
        if word == "--" {
            are_options = false;
        }
        let long = if are_options { in_full(word) } else { word };
        all.push(String::from_str(alloc, long)?)?;
    }
    Ok(all)
}

/// A text of bytes: those that aren't ASCII stand as U+FFFD, where they aren't UTF-8.
fn text_of(alloc: Global, bytes: &[u8]) -> Result<String, AllocError> {
    if let Ok(text) = str::from_utf8(bytes) {
        return String::from_str(alloc, text);
    }
    let mut text = String::new(alloc);
    for b in bytes {
        text.push(if b.is_ascii() {
            char::from(*b)
        } else {
            '\u{FFFD}'
        })?;
    }
    Ok(text)
}

/// The words of the process, of which one isn't UTF-8, as texts.
pub fn as_texts(rt: &HostRuntime) -> Result<Vec<String>, AllocError> {
    let mut words = Vec::new(rt.alloc());
    let mut room = vec![in rt.alloc(); 0_u8; MOST]?;
    for index in 0..usize::MAX {
        let Ok(length) = Env::arg(rt, index, &mut room) else {
            return Ok(words);
        };
        let bytes = room.get(..length).unwrap_or(&[]);
        words.push(text_of(rt.alloc(), bytes)?)?;
    }
    Ok(words)
}
