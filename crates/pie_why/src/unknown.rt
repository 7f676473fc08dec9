//! A task of which the store has no record.

use crate::text::put;
use pie_base::{OutOfMemory, Text};
use pie_value::Task;
use std::alloc::Global;
use strsim::levenshtein;

// The most bytes of a name that is held against others.
const MOST_BYTES: usize = 64;

// The most letters in which a name may differ from the one that was meant.
const MOST_EDITS: usize = 2;

/// That the store has no record of the task that is printed so: a line, and a hint behind it, by these functions of the store and these tasks.
pub(crate) fn unknown(
    alloc: Global,
    funcs: &[(Text, [u8; 32])],
    tasks: &[Task],
    name: &str,
) -> Result<String, OutOfMemory> {
    let mut out = String::new(alloc);
    put(&mut out, "the last build has no task that is printed so\n")?;
    let func = front_of(name);
    let count = count_of(tasks, func);
    if count > 0 {
        let hint = format!(in alloc;
            "hint: it has {count} of the function {func}: pie-inspect tasks {func}\n"
        )?;
        put(&mut out, hint.as_str())?;
        return Ok(out);
    }
    put_near(alloc, &mut out, funcs, func)?;
    Ok(out)
}

// What stands before the first bracket.
fn front_of(name: &str) -> &str {
    match name.split_once('(') {
        Some((front, _)) => front,
        None => name,
    }
}

// How many tasks are of a function.
fn count_of(tasks: &[Task], func: &str) -> usize {
    let mut count: usize = 0;
    for task in tasks {
        if task.func.as_str() == func {
            count = count.saturating_add(1);
        }
    }
    count
}

// The name of a function that was perhaps meant.
fn put_near(
    alloc: Global,
    out: &mut String,
    funcs: &[(Text, [u8; 32])],
    func: &str,
) -> Result<(), OutOfMemory> {
    if let Some(other) = nearest(alloc, funcs, func)? {
        put(out, "hint: was the function ")?;
        put(out, other)?;
        put(out, " meant?\n")?;
    }
    Ok(())
}

// The first function whose name differs least, if it differs in at most two letters.
fn nearest<'a>(
    alloc: Global,
    funcs: &'a [(Text, [u8; 32])],
    func: &str,
) -> Result<Option<&'a str>, OutOfMemory> {
    let mut found = None;
    let mut least = MOST_EDITS + 1;
    for (name, _) in funcs {
        let edits = edits_between(alloc, func, name.as_str())?;
        if edits < least {
            least = edits;
            found = Some(name.as_str());
        }
    }
    Ok(found)
}

// In how many letters two names differ, more than the most where one is long.
fn edits_between(alloc: Global, one: &str, other: &str) -> Result<usize, OutOfMemory> {
    if one.len() > MOST_BYTES || other.len() > MOST_BYTES {
        return Ok(MOST_EDITS + 1);
    }
    let edits = levenshtein(alloc, one, other)?;
    Ok(edits)
}
