//! Policy files.
use crate::transcript::{Printer, Words};
use policy::Policy;
use std::alloc::{AllocError, Global};

/// The record of the policy file that was read last, and that of another.
#[derive(Drop)]
pub struct Files {
    pub policy: Option<Policy>,
    pub other: Option<Policy>,
}

/// The text with the first `old` replaced; none where it has no such text.
fn changed(
    alloc: Global,
    text: &str,
    old: &[u8],
    new: &[u8],
) -> Result<Option<String>, AllocError> {
    let new = str::from_utf8(new).unwrap_or("");
    match text.split_once(str::from_utf8(old).unwrap_or("")) {
        Some((front, back)) => Ok(Some(format!(in alloc; "{front}{new}{back}")?)),
        None => Ok(None),
    }
}

/// The text of a name, in which pairs of an expression's parts say what is replaced by what; none where one can't be.
fn text_of(printer: Printer<'_>, words: Words<'_>) -> Result<Option<String>, AllocError> {
    let (alloc, mut words) = (printer.alloc(), words);
    let mut text = String::from_str(alloc, printer.names.text(words.next()))?;
    let mut rest = words.rest;
    for _ in 0..words.rest.len() {
        if rest.is_empty() {
            break;
        }
        let (mut old, mut new) = (Vec::new(alloc), Vec::new(alloc));
        rest = printer.names.append(rest, &mut old)?;
        rest = printer.names.append(rest, &mut new)?;
        match changed(alloc, &text, &old, &new)? {
            Some(changed) => text = changed,
            None => return Ok(None),
        }
    }
    Ok(Some(text))
}

/// Tells how many entries each array has, and the numbers of the counter.
fn tell(printer: Printer<'_>, policy: &Policy) {
    printer.number("algorithms", policy.algorithms.len() as u64);
    printer.number("extensions", policy.extensions.len() as u64);
    printer.number("policies", policy.policies.len() as u64);
    printer.number("accounts", policy.accounts.len() as u64);
    printer.number("groups", policy.groups.len() as u64);
    printer.number("accuracy", u64::from(policy.counter.accuracy_us));
    printer.number("age", policy.counter.max_age_us);
    printer.tell(&policy.counter.ordering);
}

/// Reads a policy file, tells what it has or its first fault, and keeps its record.
pub fn read(
    printer: Printer<'_>,
    kept: &mut Option<Policy>,
    words: Words<'_>,
) -> Result<(), AllocError> {
    let Some(text) = text_of(printer, words)? else {
        printer.line("  no such text");
        return Ok(());
    };
    match Policy::from_text(printer.alloc(), &text) {
        Ok(policy) => {
            tell(printer, &policy);
            *kept = Some(policy);
        }
        Err(fault) => printer.tell(&fault),
    }
    Ok(())
}
