ghost use Rattle.std.specs.Prelude.{◌≡◌, ◌++◌, codes, IfOk, OnOk};
ghost use Rattle.std.specs.List.{flat_map};
ghost use Rattle.cov_base.specs.Sink.{after_more, TakesPrefix};
ghost use Rattle.cov_report.specs.Fault.{HasReportCause};
ghost use Rattle.cov_report.specs.Piece.{line, printed};
ghost use Rattle.cov_report.specs.Lcov as spec;

use crate::fault::ReportFault;
use crate::piece::{push_number, push_printed, push_text, start_line};
use crate::put::{Report, files_of, put_report};
use cov_base::{Sink, SureSink};
use cov_object::{BranchCoverage, CoverageMap, FileCoverage, FunctionCoverage, PathCoverage};
use cov_summary::{Totals, file_sums, lines};
use items::Memory;
use std::alloc::{AllocError, Global};

/// A coverage map as an LCOV tracefile. A place that is missing is told as line 0. Want of memory
/// is the only error.
pub fn lcov(alloc: Global, map: &CoverageMap) -> Result<Vec<u8>, Memory>
    ensures { IfOk result (λ text. text.items ≡ spec.lcov_text map.now) }
{
    let mut sink = SureSink::new(alloc)?;
    match lcov_to(alloc, map, &mut sink) {
        Ok(()) => Ok(sink.into_taken()),
        Err(_) => Err(AllocError),
    }
}

/// The same, written to a sink in pieces. After a fault the sink has taken a prefix.
pub fn lcov_to<S: Sink>(alloc: Global, map: &CoverageMap, sink: &mut S) -> Result<(), ReportFault>
    ensures all { OnOk result (S.taken sink.new ≡ after_more (S.taken sink.old) (spec.lcov_text map.now)) }
    ensures prefix { TakesPrefix (S.taken sink.old) (S.taken sink.new) (spec.lcov_text map.now) }
    ensures cause { HasReportCause (S.faults sink.old) (S.faults sink.new) result }
{
    let files = files_of(alloc, map)?;
    put_report(alloc, sink, &Records, b"", files.as_slice(), b"")
}

// A record for each file.
#[derive(Drop)]
struct Records;

impl Report for Records {
    ghost use Rattle.cov_report.specs.Lcov as spec;

    ghost text = { λ _ file. spec.file_text file };

    fn push(&self, alloc: Global, out: &mut Vec<u8>, file: &FileCoverage) -> Result<(), Memory> {
        push_file(alloc, out, file)
    }
}

// Writes one file.
fn push_file(alloc: Global, out: &mut Vec<u8>, file: &FileCoverage) -> Result<(), Memory>
    ensures { OnOk result (out.new.items ≡ out.old.items ++ spec.file_text file.now) }
{
    let sums = file_sums(alloc, file)?;
    push_text(out, "TN:\n")?;
    push_path(out, file.path.as_str())?;
    push_functions(alloc, out, file, sums.functions)?;
    push_lines(alloc, out, file, sums.lines)?;
    push_branches(alloc, out, file, sums.branches)?;
    push_text(out, "end_of_record\n")
}

// Writes which file it is.
fn push_path(out: &mut Vec<u8>, path: &str) -> Result<(), Memory>
    ensures { OnOk result (out.new.items ≡ out.old.items ++ line (codes "SF:" ++ printed path.now)) }
{
    push_text(out, "SF:")?;
    push_printed(out, path)?;
    push_text(out, "\n")
}

// Writes the functions, how many there are and how many ran, and how often each did.
fn push_functions(
    alloc: Global,
    out: &mut Vec<u8>,
    file: &FileCoverage,
    totals: Totals,
) -> Result<(), Memory>
    ensures { OnOk result (out.new.items ≡ out.old.items ++ spec.function_lines file.now totals) }
{
    push_declarations(alloc, out, file.functions.as_slice())?;
    push_total(alloc, out, "FNF:", totals.total)?;
    push_total(alloc, out, "FNH:", totals.covered)?;
    push_entries(alloc, out, file.functions.as_slice())
}

fn push_declarations(
    alloc: Global,
    out: &mut Vec<u8>,
    functions: &[(u64, FunctionCoverage)],
) -> Result<(), Memory>
    ensures { OnOk result (out.new.items ≡ out.old.items ++ flat_map spec.function_line functions.now) }
{
    for function in functions {
        push_declaration(alloc, out, function)?;
    }
    Ok(())
}

fn push_declaration(
    alloc: Global,
    out: &mut Vec<u8>,
    function: &(u64, FunctionCoverage),
) -> Result<(), Memory>
    ensures { OnOk result (out.new.items ≡ out.old.items ++ spec.function_line function.now) }
{
    push_text(out, "FN:")?;
    push_number(alloc, out, start_line(function.1.declaration))?;
    push_text(out, ",")?;
    push_printed(out, function.1.name.as_str())?;
    push_text(out, "\n")
}

fn push_entries(
    alloc: Global,
    out: &mut Vec<u8>,
    functions: &[(u64, FunctionCoverage)],
) -> Result<(), Memory>
    ensures { OnOk result (out.new.items ≡ out.old.items ++ flat_map spec.function_count_line functions.now) }
{
    for function in functions {
        push_entry(alloc, out, function)?;
    }
    Ok(())
}

fn push_entry(
    alloc: Global,
    out: &mut Vec<u8>,
    function: &(u64, FunctionCoverage),
) -> Result<(), Memory>
    ensures { OnOk result (out.new.items ≡ out.old.items ++ spec.function_count_line function.now) }
{
    push_text(out, "FNDA:")?;
    push_number(alloc, out, function.1.count.get())?;
    push_text(out, ",")?;
    push_printed(out, function.1.name.as_str())?;
    push_text(out, "\n")
}

// Writes a keyword and a number.
fn push_total(alloc: Global, out: &mut Vec<u8>, word: &str, number: u64) -> Result<(), Memory>
    ensures { OnOk result (out.new.items ≡ out.old.items ++ spec.number_line word.now number) }
{
    push_text(out, word)?;
    push_number(alloc, out, number)?;
    push_text(out, "\n")
}

// Writes the lines, each with its count, how many there are and how many ran.
fn push_lines(
    alloc: Global,
    out: &mut Vec<u8>,
    file: &FileCoverage,
    totals: Totals,
) -> Result<(), Memory>
    ensures { OnOk result (out.new.items ≡ out.old.items ++ spec.source_lines file.now totals) }
{
    let counted = lines(alloc, file)?;
    push_counted(alloc, out, &counted)?;
    push_total(alloc, out, "LF:", totals.total)?;
    push_total(alloc, out, "LH:", totals.covered)
}

fn push_counted(alloc: Global, out: &mut Vec<u8>, lines: &[(u32, u64)]) -> Result<(), Memory>
    ensures { OnOk result (out.new.items ≡ out.old.items ++ flat_map spec.source_line lines.now) }
{
    for line in lines {
        push_line(alloc, out, *line)?;
    }
    Ok(())
}

fn push_line(alloc: Global, out: &mut Vec<u8>, line: (u32, u64)) -> Result<(), Memory>
    ensures { OnOk result (out.new.items ≡ out.old.items ++ spec.source_line line) }
{
    push_text(out, "DA:")?;
    push_number(alloc, out, line.0 as u64)?;
    push_text(out, ",")?;
    push_number(alloc, out, line.1)?;
    push_text(out, "\n")
}

// Writes the paths of the branches, how many there are and how many ran.
fn push_branches(
    alloc: Global,
    out: &mut Vec<u8>,
    file: &FileCoverage,
    totals: Totals,
) -> Result<(), Memory>
    ensures { OnOk result (out.new.items ≡ out.old.items ++ spec.all_branch_lines file.now totals) }
{
    let branches = file.branches.as_slice();
    for branch in branches {
        push_branch(alloc, out, branch)?;
    }
    push_total(alloc, out, "BRF:", totals.total)?;
    push_total(alloc, out, "BRH:", totals.covered)
}

fn push_branch(
    alloc: Global,
    out: &mut Vec<u8>,
    branch: &(u64, BranchCoverage),
) -> Result<(), Memory>
    ensures { OnOk result (out.new.items ≡ out.old.items ++ spec.branch_lines branch.now) }
{
    let start = start_line(branch.1.location());
    let paths = branch.1.paths();
    for (number, path) in paths.iter().enumerate() {
        push_path_count(alloc, out, start, branch.0, number, path)?;
    }
    Ok(())
}

fn push_path_count(
    alloc: Global,
    out: &mut Vec<u8>,
    start: u64,
    branch: u64,
    number: usize,
    path: &PathCoverage,
) -> Result<(), Memory>
    ensures { OnOk result (out.new.items ≡ out.old.items ++ spec.path_line start branch (number, path.now)) }
{
    push_text(out, "BRDA:")?;
    push_number(alloc, out, start)?;
    push_next(alloc, out, branch)?;
    push_next(alloc, out, number as u64)?;
    push_next(alloc, out, path.count.get())?;
    push_text(out, "\n")
}

// Writes one more number.
#[tactic(auto, unfolding(crate::specs::Lcov::next))]
fn push_next(alloc: Global, out: &mut Vec<u8>, number: u64) -> Result<(), Memory>
    ensures { OnOk result (out.new.items ≡ out.old.items ++ spec.next number) }
{
    push_text(out, ",")?;
    push_number(alloc, out, number)
}
