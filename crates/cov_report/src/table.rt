ghost use Rattle.std.specs.Prelude.{◌≡◌, ◌++◌, ◌+◌, ◌<◌, [], codes, map, IfOk, OnOk};
ghost use Rattle.cov_summary.specs.Sums.{AreExact, summary_of};
ghost use Rattle.cov_base.specs.Sink.{after_more, TakesPrefix};
ghost use Rattle.cov_report.specs.Fault.{HasReportCause};
ghost use Rattle.cov_report.specs.Table as spec;

use crate::cell::{characters, push_cells, push_filled, push_many};
use crate::fault::ReportFault;
use crate::missed::{push_lines, uncovered};
use crate::piece::push_text;
use crate::put::{Report, files_of, put_report};
use cov_base::{Sink, SureSink};
use cov_object::{CoverageMap, FileCoverage};
use cov_summary::{Sums, file_sums, lines, summary};
use items::Memory;
use std::alloc::{AllocError, Global};

/// A coverage map as a table: the percentages of all files together and of each, and the lines of
/// each that didn't run. Want of memory is the only error.
pub fn text(alloc: Global, map: &CoverageMap) -> Result<Vec<u8>, Memory>
    ensures { IfOk result (λ text. text.items ≡ spec.table_text map.now) }
{
    let mut sink = SureSink::new(alloc)?;
    match text_to(alloc, map, &mut sink) {
        Ok(()) => Ok(sink.into_taken()),
        Err(_) => Err(AllocError),
    }
}

/// The same, written to a sink in pieces. After a fault the sink has taken a prefix.
pub fn text_to<S: Sink>(alloc: Global, map: &CoverageMap, sink: &mut S) -> Result<(), ReportFault>
    ensures all { OnOk result (S.taken sink.new ≡ after_more (S.taken sink.old) (spec.table_text map.now)) }
    ensures prefix { TakesPrefix (S.taken sink.old) (S.taken sink.new) (spec.table_text map.now) }
    ensures cause { HasReportCause (S.faults sink.old) (S.faults sink.new) result }
{
    let width = width_of(map);
    let start = start_of(alloc, width, map)?;
    let files = files_of(alloc, map)?;
    let end = rule_of(alloc, width)?;
    put_report(alloc, sink, &Rows { width }, &start, files.as_slice(), &end)
}

// What stands before the files.
fn start_of(alloc: Global, width: usize, map: &CoverageMap) -> Result<Vec<u8>, Memory>
    ensures { IfOk result (λ start. start.items ≡ spec.rule width ++ (spec.header width ++ (spec.rule width
        ++ spec.row width (codes "All files") (summary_of map.now).total []))) }
{
    let summary = summary(alloc, map)?;
    let mut out = Vec::new(alloc);
    push_rule(&mut out, width)?;
    push_header(&mut out, width)?;
    push_rule(&mut out, width)?;
    push_total(alloc, &mut out, width, summary.total)?;
    Ok(out)
}

// The rule alone.
fn rule_of(alloc: Global, width: usize) -> Result<Vec<u8>, Memory>
    ensures { IfOk result (λ rule. rule.items ≡ spec.rule width) }
{
    let mut out = Vec::new(alloc);
    push_rule(&mut out, width)?;
    Ok(out)
}

// A row for each file.
#[derive(Drop)]
struct Rows {
    width: usize,
}

impl Report for Rows {
    ghost use Rattle.cov_report.specs.Table as spec;

    ghost text = { λ rows file. spec.file_row rows.width file };

    fn push(&self, alloc: Global, out: &mut Vec<u8>, file: &FileCoverage) -> Result<(), Memory> {
        push_file(alloc, out, self.width, file)
    }
}

// How many characters the first column has room for.
fn width_of(map: &CoverageMap) -> usize
    ensures { result ≡ spec.width_of map.now }
{
    let mut width = 9;
    for file in map.files() {
        width = width.max(characters(file.path.as_str()));
    }
    width
}

fn push_rule(out: &mut Vec<u8>, width: usize) -> Result<(), Memory>
    ensures { OnOk result (out.new.items ≡ out.old.items ++ spec.rule width) }
{
    push_many(out, b'-', width)?;
    push_text(
        out,
        "-|---------|----------|---------|---------|-------------------\n",
    )
}

fn push_header(out: &mut Vec<u8>, width: usize) -> Result<(), Memory>
    ensures { OnOk result (out.new.items ≡ out.old.items ++ spec.header width) }
{
    push_filled(out, width, "File")?;
    push_text(
        out,
        " | % Stmts | % Branch | % Funcs | % Lines | Uncovered Line #s\n",
    )
}

// Writes the row of all files together.
fn push_total(alloc: Global, out: &mut Vec<u8>, width: usize, sums: Sums) -> Result<(), Memory>
    requires { AreExact sums }
    ensures { OnOk result (out.new.items ≡ out.old.items ++ spec.row width (codes "All files") sums []) }
{
    push_filled(out, width, "All files")?;
    push_text(out, " | ")?;
    push_cells(alloc, out, sums)?;
    push_text(out, " |\n")
}

// Writes the row of one file.
fn push_file(
    alloc: Global,
    out: &mut Vec<u8>,
    width: usize,
    file: &FileCoverage,
) -> Result<(), Memory>
    ensures { OnOk result (out.new.items ≡ out.old.items ++ spec.file_row width file.now) }
{
    let counted = lines(alloc, file)?;
    let missed = uncovered(alloc, &counted)?;
    push_filled(out, width, file.path.as_str())?;
    push_text(out, " | ")?;
    push_cells(alloc, out, file_sums(alloc, file)?)?;
    push_text(out, " |")?;
    push_lines(alloc, out, &missed)?;
    push_text(out, "\n")
}
