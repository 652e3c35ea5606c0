ghost use Rattle.std.specs.Prelude.{◌≡◌, ◌++◌, length, OnOk};
ghost use Rattle.std.specs.Str.{chars};
ghost use Rattle.cov_summary.specs.Sums.{AreExact};
ghost use Rattle.cov_summary.specs.Totals.{IsExact};
ghost use Rattle.cov_report.specs.Table as spec;

use crate::percent::percent_of;
use crate::piece::{push_printed, push_text};
use cov_summary::{Sums, Totals, hundredths};
use items::Memory;
use std::alloc::Global;

// Writes so many of a byte.
pub(crate) fn push_many(out: &mut Vec<u8>, byte: u8, count: usize) -> Result<(), Memory>
    ensures { OnOk result (out.new.items ≡ out.old.items ++ spec.many byte count) }
{
    for step in 0..count {
        let _ = step;
        out.push(byte)?;
    }
    Ok(())
}

// How many characters a text has.
pub(crate) fn characters(text: &str) -> usize
    ensures { result ≡ length (chars text.now) }
{
    text.chars().count()
}

// Writes a name and spaces up to this width.
pub(crate) fn push_filled(out: &mut Vec<u8>, width: usize, name: &str) -> Result<(), Memory>
    ensures { OnOk result (out.new.items ≡ out.old.items ++ spec.filled width name.now) }
{
    push_printed(out, name)?;
    push_many(out, b' ', width.saturating_sub(characters(name)))
}

// Writes the percentages of statements, branches, functions and lines.
pub(crate) fn push_cells(alloc: Global, out: &mut Vec<u8>, sums: Sums) -> Result<(), Memory>
    requires { AreExact sums }
    ensures { OnOk result (out.new.items ≡ out.old.items ++ spec.cells sums) }
{
    push_percent(alloc, out, 7, sums.statements)?;
    push_text(out, " | ")?;
    push_percent(alloc, out, 8, sums.branches)?;
    push_text(out, " | ")?;
    push_percent(alloc, out, 7, sums.functions)?;
    push_text(out, " | ")?;
    push_percent(alloc, out, 7, sums.lines)
}

// Writes a percentage at the right of so many places.
#[tactic(auto, unfolding(crate::specs::Table::percent_cell))]
fn push_percent(
    alloc: Global,
    out: &mut Vec<u8>,
    places: usize,
    totals: Totals,
) -> Result<(), Memory>
    requires { IsExact totals }
    ensures { OnOk result (out.new.items ≡ out.old.items ++ spec.percent_cell places totals) }
{
    let text = percent_of(alloc, hundredths(totals.covered, totals.total))?;
    push_many(out, b' ', places.saturating_sub(text.len()))?;
    push_text(out, text.as_str())
}
