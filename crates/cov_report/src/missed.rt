ghost use Rattle.std.specs.Prelude.{◌≡◌, ◌++◌, IfOk, OnOk};
ghost use Rattle.cov_report.specs.Table as spec;

use crate::piece::{push_number, push_text};
use items::Memory;
use std::alloc::Global;

// The lines whose count is 0.
pub(crate) fn uncovered(alloc: Global, lines: &[(u32, u64)]) -> Result<Vec<u32>, Memory>
    ensures { IfOk result (λ numbers. numbers.items ≡ spec.uncovered lines.now) }
{
    let mut numbers = Vec::new(alloc);
    for (line, count) in lines {
        if *count == 0 {
            numbers.push(*line)?;
        }
    }
    Ok(numbers)
}

// Writes lines, runs of consecutive ones as one, after a space, where there are any.
pub(crate) fn push_lines(alloc: Global, out: &mut Vec<u8>, lines: &[u32]) -> Result<(), Memory>
    ensures { OnOk result (out.new.items ≡ out.old.items ++ spec.lines_text lines.now) }
{
    let [first, rest @ ..] = lines else {
        return Ok(());
    };
    push_text(out, " ")?;
    push_runs(alloc, out, *first, rest)
}

// Writes a run that starts at a line, and the runs after it.
fn push_runs(alloc: Global, out: &mut Vec<u8>, first: u32, rest: &[u32]) -> Result<(), Memory>
    ensures { OnOk result (out.new.items ≡ out.old.items ++ spec.runs_text first first rest.now) }
{
    let mut start = first;
    let mut end = first;
    for line in rest {
        if *line as u64 == end as u64 + 1 {
            end = *line;
        } else {
            push_run(alloc, out, start, end)?;
            push_text(out, ",")?;
            start = *line;
            end = *line;
        }
    }
    push_run(alloc, out, start, end)
}

// Writes a run from a line to a line.
fn push_run(alloc: Global, out: &mut Vec<u8>, start: u32, end: u32) -> Result<(), Memory>
    ensures { OnOk result (out.new.items ≡ out.old.items ++ spec.run_text start end) }
{
    push_number(alloc, out, start as u64)?;
    if start == end {
        return Ok(());
    }
    push_text(out, "-")?;
    push_number(alloc, out, end as u64)
}
