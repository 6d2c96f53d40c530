//! Reading a file of cases.
use crate::case::{Action, Case};
use anyhow::{Context, Result, bail};
use std::alloc::{AllocError, Global};

/// The cases of a text.
///
/// # Errors
///
/// A line that is no case and no part of one, and want of memory.
pub(crate) fn cases_of(alloc: Global, text: &str) -> Result<Vec<Case>> {
    let mut cases = Vec::new(alloc);
    for line in text.lines() {
        if !line.is_empty() && !line.starts_with('#') {
            take_line(alloc, &mut cases, line).context(format_args!("at {line:?}"))?;
        }
    }
    Ok(cases)
}

// Takes a line that begins a case, or that is a part of the last one.
fn take_line(alloc: Global, cases: &mut Vec<Case>, line: &str) -> Result<()> {
    let (kind, rest) = line.split_once(' ').unwrap_or((line, ""));
    if let Some(action) = action_of(kind) {
        cases.push(empty_case(alloc, action, rest)?)?;
        return Ok(());
    }
    let Some(case) = cases.last_mut() else {
        bail!("no case");
    };
    take_part(alloc, case, kind, rest)
}

fn action_of(kind: &str) -> Option<Action> {
    if kind == "run" {
        Some(Action::Run)
    } else if kind == "units" {
        Some(Action::Units)
    } else if kind == "lines" {
        Some(Action::Lines)
    } else {
        None
    }
}

fn empty_case(alloc: Global, action: Action, name: &str) -> Result<Case, AllocError> {
    Ok(Case {
        name: String::from_str(alloc, name)?,
        action,
        words: Vec::new(alloc),
        files: Vec::new(alloc),
    })
}

// Takes a word or a file of a case.
fn take_part(alloc: Global, case: &mut Case, kind: &str, rest: &str) -> Result<()> {
    if kind == "word" {
        case.words.push(String::from_str(alloc, rest)?)?;
        return Ok(());
    }
    let (path, contents) = rest.split_once(' ').unwrap_or((rest, ""));
    let bytes = if kind == "text" {
        contents.as_bytes().to_vec(alloc)?
    } else if kind == "hex" {
        hex::decode(alloc, contents)?
    } else {
        bail!("no part of a case");
    };
    case.files.push((String::from_str(alloc, path)?, bytes))?;
    Ok(())
}
