ghost use Rattle.std.specs.Prelude.{◌≡◌, IfOk, map};
ghost use Rattle.cov_summary.specs.Totals.{with_counts};
ghost use Rattle.cov_summary.specs.Sums as spec;

use crate::line_counts::lines;
use crate::totals::Totals;
use cov_object::{BranchCoverage, FileCoverage, FunctionCoverage, PathCoverage, StatementCoverage};
use items::{Items, Memory, Text};
use std::alloc::Global;

/// The totals of a file, or of many.
#[derive(Clone, Copy, Debug)]
pub struct Sums {
    /// Of the lines on which a statement starts.
    pub lines: Totals,
    /// Of the statements.
    pub statements: Totals,
    /// Of the functions.
    pub functions: Totals,
    /// Of the paths of all branches.
    pub branches: Totals,
}

/// The totals of one file.
#[derive(Debug, Drop)]
pub struct FileSums {
    /// The file's path.
    pub path: Text,
    /// Its totals.
    pub sums: Sums,
}

/// The totals of a coverage map.
#[derive(Debug, Drop)]
pub struct Summary {
    /// Of all files together.
    pub total: Sums,
    /// Of each file, in the byte order of the paths.
    pub files: Items<FileSums>,
}

impl Sums {
    // The totals of no file.
    pub(crate) fn none() -> Sums
        ensures { result ≡ spec.no_sums }
    {
        Sums {
            lines: Totals::none(),
            statements: Totals::none(),
            functions: Totals::none(),
            branches: Totals::none(),
        }
    }
}

/// The totals of one file. Want of memory is the only error.
pub fn file_sums(alloc: Global, file: &FileCoverage) -> Result<Sums, Memory>
    ensures value { IfOk result (λ sums. sums ≡ spec.sums_of file.now) }
    ensures exact { IfOk result (λ sums. spec.AreExact sums) }
{
    with_file(alloc, Sums::none(), file)
}

// Totals with those of one more file.
pub(crate) fn with_file(alloc: Global, sums: Sums, file: &FileCoverage) -> Result<Sums, Memory>
    ensures { IfOk result (λ after. after ≡ spec.with_file sums file.now) }
{
    let counted = lines(alloc, file)?;
    Ok(Sums {
        lines: with_lines(sums.lines, &counted),
        statements: with_statements(sums.statements, file.statements.as_slice()),
        functions: with_functions(sums.functions, file.functions.as_slice()),
        branches: with_branches(sums.branches, file.branches.as_slice()),
    })
}

fn with_lines(totals: Totals, lines: &[(u32, u64)]) -> Totals
    ensures { result ≡ with_counts totals (map (λ line. line.1) lines.now) }
{
    let mut so_far = totals;
    for (_, count) in lines {
        so_far = so_far.with_count(*count);
    }
    so_far
}

fn with_statements(totals: Totals, statements: &[(u64, StatementCoverage)]) -> Totals
    ensures { result ≡ with_counts totals (map (λ statement. statement.1.count) statements.now) }
{
    let mut so_far = totals;
    for (_, statement) in statements {
        so_far = so_far.with_count(statement.count.get());
    }
    so_far
}

fn with_functions(totals: Totals, functions: &[(u64, FunctionCoverage)]) -> Totals
    ensures { result ≡ with_counts totals (map (λ function. function.1.count) functions.now) }
{
    let mut so_far = totals;
    for (_, function) in functions {
        so_far = so_far.with_count(function.count.get());
    }
    so_far
}

fn with_branches(totals: Totals, branches: &[(u64, BranchCoverage)]) -> Totals
    ensures { result ≡ spec.with_branches totals branches.now }
{
    let mut so_far = totals;
    for (_, branch) in branches {
        so_far = with_paths(so_far, branch.paths());
    }
    so_far
}

fn with_paths(totals: Totals, paths: &[PathCoverage]) -> Totals
    ensures { result ≡ with_counts totals (map (λ path. path.count) paths.now) }
{
    let mut so_far = totals;
    for path in paths {
        so_far = so_far.with_count(path.count.get());
    }
    so_far
}
