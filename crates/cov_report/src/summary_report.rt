ghost use Rattle.std.specs.Prelude.{◌≡◌, ◌++◌, codes, IfOk, OnOk};
ghost use Rattle.cov_summary.specs.Sums.{AreExact, file_sums, summary_of};
ghost use Rattle.cov_summary.specs.Totals.{IsExact};
ghost use Rattle.cov_base.specs.Sink.{after_more, TakesPrefix};
ghost use Rattle.cov_report.specs.Fault.{HasReportCause};
ghost use Rattle.cov_report.specs.JsonSummary as spec;

use crate::fault::ReportFault;
use crate::percent::percent_of;
use crate::piece::{push_number, push_quoted, push_text};
use crate::put::{Report, files_of, put_report};
use cov_base::{Sink, SureSink};
use cov_object::{CoverageMap, FileCoverage};
use cov_summary::{Sums, Totals, file_sums, hundredths, summary};
use items::Memory;
use std::alloc::{AllocError, Global};

/// The totals of a coverage map in JSON, on one line: of all files together, and of each. Want of
/// memory is the only error.
pub fn json_summary(alloc: Global, map: &CoverageMap) -> Result<Vec<u8>, Memory>
    ensures { IfOk result (λ text. text.items ≡ spec.json_summary_text map.now) }
{
    let mut sink = SureSink::new(alloc)?;
    match json_summary_to(alloc, map, &mut sink) {
        Ok(()) => Ok(sink.into_taken()),
        Err(_) => Err(AllocError),
    }
}

/// The same, written to a sink in pieces. After a fault the sink has taken a prefix.
pub fn json_summary_to<S: Sink>(
    alloc: Global,
    map: &CoverageMap,
    sink: &mut S,
) -> Result<(), ReportFault>
    ensures all { OnOk result (S.taken sink.new ≡ after_more (S.taken sink.old) (spec.json_summary_text map.now)) }
    ensures prefix { TakesPrefix (S.taken sink.old) (S.taken sink.new) (spec.json_summary_text map.now) }
    ensures cause { HasReportCause (S.faults sink.old) (S.faults sink.new) result }
{
    let start = start_of(alloc, map)?;
    let files = files_of(alloc, map)?;
    put_report(alloc, sink, &Members, &start, files.as_slice(), b"}\n")
}

// What stands before the files: the totals of all together.
fn start_of(alloc: Global, map: &CoverageMap) -> Result<Vec<u8>, Memory>
    ensures { IfOk result (λ start. start.items ≡ codes "{\"total\":" ++ spec.sums_text (summary_of map.now).total) }
{
    let summary = summary(alloc, map)?;
    let mut out = Vec::new(alloc);
    push_text(&mut out, "{\"total\":")?;
    push_sums(alloc, &mut out, summary.total)?;
    Ok(out)
}

// A member for each file.
#[derive(Drop)]
struct Members;

impl Report for Members {
    ghost use Rattle.cov_summary.specs.Sums.{file_sums};
    ghost use Rattle.cov_report.specs.JsonSummary as spec;

    ghost text = { λ _ file. spec.file_text (file_sums file) };

    fn push(&self, alloc: Global, out: &mut Vec<u8>, file: &FileCoverage) -> Result<(), Memory> {
        push_file(alloc, out, file)
    }
}

// Writes a file's totals after another's.
#[tactic(auto, unfolding(crate::specs::JsonSummary::file_text))]
fn push_file(alloc: Global, out: &mut Vec<u8>, file: &FileCoverage) -> Result<(), Memory>
    ensures { OnOk result (out.new.items ≡ out.old.items ++ spec.file_text (file_sums file.now)) }
{
    let sums = file_sums(alloc, file)?;
    push_text(out, ",")?;
    push_quoted(alloc, out, shown(file.path.as_str()))?;
    push_text(out, ":")?;
    push_sums(alloc, out, sums)
}

// The key of a file: `total` is that of all files.
fn shown(path: &str) -> &str
    ensures { result.now ≡ spec.shown path.now }
{
    if path == "total" { "./total" } else { path }
}

// Writes the totals of lines, statements, functions and branches.
fn push_sums(alloc: Global, out: &mut Vec<u8>, sums: Sums) -> Result<(), Memory>
    requires { AreExact sums }
    ensures { OnOk result (out.new.items ≡ out.old.items ++ spec.sums_text sums) }
{
    push_totals_member(alloc, out, "{\"lines\":", sums.lines)?;
    push_totals_member(alloc, out, ",\"statements\":", sums.statements)?;
    push_totals_member(alloc, out, ",\"functions\":", sums.functions)?;
    push_totals_member(alloc, out, ",\"branches\":", sums.branches)?;
    push_text(out, "}")
}

// Writes totals after what begins their member.
fn push_totals_member(
    alloc: Global,
    out: &mut Vec<u8>,
    start: &str,
    totals: Totals,
) -> Result<(), Memory>
    requires { IsExact totals }
    ensures { OnOk result (out.new.items ≡ out.old.items ++ spec.totals_member start.now totals) }
{
    push_text(out, start)?;
    push_totals(alloc, out, totals)
}

// Writes how many there are, how many ran, and the percentage of these.
fn push_totals(alloc: Global, out: &mut Vec<u8>, totals: Totals) -> Result<(), Memory>
    requires { IsExact totals }
    ensures { OnOk result (out.new.items ≡ out.old.items ++ spec.totals_text totals) }
{
    let part = percent_of(alloc, hundredths(totals.covered, totals.total))?;
    push_number_member(alloc, out, "{\"total\":", totals.total)?;
    push_number_member(alloc, out, ",\"covered\":", totals.covered)?;
    push_text(out, ",\"skipped\":0,\"pct\":")?;
    push_text(out, part.as_str())?;
    push_text(out, "}")
}

// Writes a number after what begins its member.
fn push_number_member(
    alloc: Global,
    out: &mut Vec<u8>,
    start: &str,
    number: u64,
) -> Result<(), Memory>
    ensures { OnOk result (out.new.items ≡ out.old.items ++ spec.number_member start.now number) }
{
    push_text(out, start)?;
    push_number(alloc, out, number)
}
