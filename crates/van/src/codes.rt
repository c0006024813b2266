//! `van explain --code`: what a code means, in any form in which it is written.

use anyhow::Result;
use std::alloc::{AllocError, Global};
use std::process::ExitCode;
use x12_inspect::shown;
use x12_words::{FAMILIES, Wording, find_wording, split_code, wordings};

/// A family by another name: the element in which a code may stand too.
struct Alias(&'static str, &'static str);

/// The other elements that hold codes of a family.
static ALIASES: [Alias; 10] = [
    Alias("TA105", "TA1"),
    Alias("AK305", "AK304"),
    Alias("AK503", "AK502"),
    Alias("AK504", "AK502"),
    Alias("AK505", "AK502"),
    Alias("AK506", "AK502"),
    Alias("AK906", "AK905"),
    Alias("AK907", "AK905"),
    Alias("AK908", "AK905"),
    Alias("AK909", "AK905"),
];

/// The family of this name.
fn family_of<'a>(name: &'a str) -> &'a str {
    for alias in &ALIASES {
        if alias.0 == name {
            return alias.1;
        }
    }
    name
}

/// A code without the zeros in front.
fn bare<'a>(code: &'a str) -> &'a str {
    let digits = code.trim_start_matches('0');
    if digits.is_empty() { "0" } else { digits }
}

/// The code of a family, which may lack zeros in front or have more.
fn find(family: &str, code: &str) -> Option<&'static Wording> {
    if let Some(found) = find_wording(family, code) {
        return Some(found);
    }
    if code.is_empty() || !code.bytes().all(|b| b.is_ascii_digit()) {
        return None;
    }
    for wording in wordings(family) {
        if bare(wording.code()) == bare(code) {
            return Some(wording);
        }
    }
    None
}

/// Writes a code of a family, what it says, and what to do.
fn print_wording(rt: &HostRuntime, family: &str, w: &Wording) -> Result<()> {
    let front = if w.code().starts_with(family) {
        ""
    } else {
        family
    };
    let slash = if front.is_empty() { "" } else { "/" };
    println!(rt;
        "{front}{slash}{}: {}\n  {}",
        w.code(),
        w.words(),
        w.action()
    )?;
    Ok(())
}

/// Writes each code of a family, and answers how many there are.
fn print_family(rt: &HostRuntime, family: &str) -> Result<usize> {
    for w in wordings(family) {
        print_wording(rt, family, w)?;
    }
    Ok(wordings(family).len())
}

/// Writes a code of each family that has it, and answers how many do.
fn print_each(rt: &HostRuntime, code: &str) -> Result<usize> {
    let mut count = 0usize;
    for family in FAMILIES {
        if let Some(w) = find(family, code) {
            print_wording(rt, family, w)?;
            count = count.saturating_add(1);
        }
    }
    Ok(count)
}

/// Lists the families on standard error.
fn list_families(rt: &HostRuntime, code: &str) -> Result<()> {
    let code = shown(rt.alloc(), code)?;
    eprint!(rt; "error: unknown code {code}; the families are")?;
    for family in FAMILIES {
        eprint!(rt; " {family}")?;
    }
    eprintln!(rt; "; write FAMILY, FAMILY/CODE or a code alone")?;
    Ok(())
}

/// A text in capital letters.
fn in_capitals(alloc: Global, text: &str) -> Result<String, AllocError> {
    let mut capitals = String::new(alloc);
    for c in text.chars() {
        capitals.push(c.to_ascii_uppercase())?;
    }
    Ok(capitals)
}

/// Writes what a text names, a code or a family, and answers how many codes it names.
fn print_code(rt: &HostRuntime, text: &str) -> Result<usize> {
    let family = family_of(text);
    if !wordings(family).is_empty() {
        return print_family(rt, family);
    }
    let (family, code) = split_code(text);
    if let Some(w) = find(family_of(family), code) {
        print_wording(rt, family_of(family), w)?;
        return Ok(1);
    }
    print_each(rt, text)
}

/// Explains a code or a family.
pub fn explain_code(rt: &HostRuntime, text: &str) -> Result<ExitCode> {
    let capitals = in_capitals(rt.alloc(), text)?;
    if print_code(rt, capitals.as_str())? == 0 {
        list_families(rt, text)?;
        return Ok(ExitCode::from(2));
    }
    Ok(ExitCode::SUCCESS)
}
