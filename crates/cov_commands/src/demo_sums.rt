// What `demo` says of the coverage that its run left.
ghost use Rattle.std.specs.Prelude.{◌≡◌, IfOk, string_bytes};
ghost use Rattle.cov_summary.specs.Sums.{AreExact};
ghost use Rattle.cov_summary.specs.Totals.{IsExact};
ghost use Rattle.cov_commands.specs.Demo as spec;

use cov_object::CoverageMap;
use cov_report::percent_of;
use cov_summary::{Sums, Totals, hundredths, summary};
use items::Memory;
use std::alloc::Global;

/// The sums of a coverage, a line each.
pub(crate) fn demo_summary(alloc: Global, coverage: &CoverageMap) -> Result<String, Memory>
    ensures { IfOk result (λ lines. string_bytes lines ≡ spec.demo_summary coverage.now) }
{
    let summary = summary(alloc, coverage)?;
    sum_lines(alloc, summary.total)
}

/// The lines of these sums.
fn sum_lines(alloc: Global, sums: Sums) -> Result<String, Memory>
    requires { AreExact sums }
    ensures { IfOk result (λ lines. string_bytes lines ≡ spec.sum_lines sums) }
{
    let statements = sum_line(alloc, "statements", sums.statements)?;
    let branches = sum_line(alloc, "branches", sums.branches)?;
    let functions = sum_line(alloc, "functions", sums.functions)?;
    let lines = sum_line(alloc, "lines", sums.lines)?;
    format!(in alloc; "{statements}{branches}{functions}{lines}")
}

/// The line of the totals of something.
fn sum_line(alloc: Global, name: &str, totals: Totals) -> Result<String, Memory>
    requires { IsExact totals }
    ensures { IfOk result (λ line. string_bytes line ≡ spec.sum_line name.now totals) }
{
    let Totals { total, covered } = totals;
    let percent = percent_of(alloc, hundredths(covered, total))?;
    format!(in alloc; "{name} {covered}/{total} {percent}\n")
}
