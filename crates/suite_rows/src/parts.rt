// Runs in parts: a machine that is given steps again and again goes on from where it stopped.
use crate::spelled::{bytes_of, push_lines, push_number};
use cov_base::Memory;
use items::{Items, Text as Path};
use js_machine::{Machine, MachineFault, prelude};
use js_meaning::{End, Program, ProgramFile};
use js_parser::parse;
use js_scopes::{Checked, check};
use js_text::{Limits, Text};
use std::alloc::{AllocError, Global};

/// Runs a text by so many steps, then by so many more, and so on, as `N,N,.. TEXT` says. For each part all that was
/// printed so far, and how the run ends with all the steps that were given. False where the text has no run, or where
/// the numbers are none or too many.
pub(crate) fn run_parts(alloc: Global, rest: &str, page: &mut String) -> Result<bool, Memory> {
    let Some((counts, text)) = rest.split_once(' ') else {
        return Ok(false);
    };
    let Some(mut machine) = machine_of(alloc, bytes_of(alloc, text)?)? else {
        return Ok(false);
    };
    for count in counts.split(',') {
        if !run_part(alloc, count, &mut machine, page)? {
            return Ok(false);
        }
    }
    Ok(true)
}

/// A machine before the text of some bytes, if they are one that has a machine.
fn machine_of(alloc: Global, bytes: Vec<u8>) -> Result<Option<Machine>, Memory> {
    let Ok(text) = Text::from_bytes(alloc, bytes, Limits::source()) else {
        return Ok(None);
    };
    machine_before(alloc, &text)
}

/// A machine before a text, if it is read and keeps the early rules.
fn machine_before(alloc: Global, text: &Text) -> Result<Option<Machine>, Memory> {
    let Ok(file) = parse(alloc, text, Limits::source()) else {
        return Ok(None);
    };
    match check(alloc, file) {
        Ok(checked) => machine_of_tree(alloc, checked),
        Err(_) => Ok(None),
    }
}

/// A machine before a program that is this one file.
fn machine_of_tree(alloc: Global, tree: Checked) -> Result<Option<Machine>, Memory> {
    let mut files = Items::new(alloc);
    files.push(ProgramFile {
        path: Path::from_str(alloc, "a.js")?,
        tree,
        counted: false,
    })?;
    let program = Program {
        files,
        prelude: prelude(alloc)?,
    };
    match Machine::new(alloc, &program, "a.js") {
        Ok(machine) => Ok(Some(machine)),
        Err(MachineFault::NoEntry) => Ok(None),
        Err(MachineFault::Memory) => Err(AllocError),
    }
}

fn run_part(
    alloc: Global,
    count: &str,
    machine: &mut Machine,
    page: &mut String,
) -> Result<bool, Memory> {
    let Ok(steps) = count.parse::<u64>() else {
        return Ok(false);
    };
    if machine.given().checked_add(steps).is_none() {
        return Ok(false);
    }
    let end = machine.run(steps)?;
    push_lines(page, ">", machine.output())?;
    page.push_str("= ")?;
    page.push_str(word_of(&end))?;
    page.push_str(" after ")?;
    push_number(alloc, machine.given(), page)?;
    page.push_str("\n")?;
    Ok(true)
}

fn word_of(end: &End) -> &'static str {
    match end {
        End::Done => "done",
        End::Threw(_) => "threw",
        End::Range(_) => "out of range",
        End::Going => "going",
    }
}
