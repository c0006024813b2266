//! The files below folders.

use anyhow::Result;
use std::alloc::AllocError;
use std::fs;
use x12_inspect::shown;

/// Whether a path names a folder.
pub fn is_folder(rt: &HostRuntime, path: &str) -> bool {
    matches!(fs::metadata(rt, path), Ok(found) if found.is_dir())
}

/// The path of a name in a folder.
fn below(rt: &HostRuntime, folder: &str, name: &str) -> Result<String, AllocError> {
    let slash = if folder.ends_with('/') { "" } else { "/" };
    format!(in rt.alloc(); "{folder}{slash}{name}")
}

/// Adds what stands in a folder: a folder to the folders, another name to the files. Names with a dot in
/// front are left out. The answer is whether all of it can be listed.
fn list(
    rt: &HostRuntime,
    folder: &str,
    folders: &mut Vec<String>,
    files: &mut Vec<String>,
) -> Result<bool> {
    let mut all = true;
    for entry in fs::read_dir(rt, folder)? {
        let Ok(entry) = entry else {
            all = false;
            continue;
        };
        if entry.file_name().starts_with('.') {
            continue;
        }
        let path = below(rt, folder, entry.file_name())?;
        if is_folder(rt, path.as_str()) {
            folders.push(path)?;
        } else {
            files.push(path)?;
        }
    }
    Ok(all)
}

/// The same; standard error names a folder of which not all can be listed.
fn list_or_say(
    rt: &HostRuntime,
    folder: &str,
    folders: &mut Vec<String>,
    files: &mut Vec<String>,
) -> Result<bool> {
    let listed = list(rt, folder, folders, files);
    let name = shown(rt.alloc(), folder)?;
    match listed {
        Ok(true) => return Ok(true),
        Ok(false) => eprintln!(rt; "van: {name}: a name in it can't be read")?,
        Err(error) => eprintln!(rt; "van: {name}: it can't be listed: {error}")?,
    }
    Ok(false)
}

/// Adds the files in a folder, and in the folders in it, by name. The answer is whether all could be
/// listed, as standard error says where not.
pub fn add_below(rt: &HostRuntime, folder: &str, files: &mut Vec<String>) -> Result<bool> {
    let mut all = true;
    let mut found = Vec::new(rt.alloc());
    let mut folders = Vec::new(rt.alloc());
    folders.push(String::from_str(rt.alloc(), folder)?)?;
    for _ in 0..u64::MAX {
        let Some(next) = folders.pop() else {
            break;
        };
        all &= list_or_say(rt, next.as_str(), &mut folders, &mut found)?;
    }
    found.sort()?;
    for file in found {
        files.push(file)?;
    }
    Ok(all)
}
