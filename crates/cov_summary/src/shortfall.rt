ghost use Rattle.std.specs.Prelude.{◌≡◌, ◌<◌, ◌≤◌, ◌^◌, IfOk, OnOk, ◌++◌};
ghost use Rattle.cov_summary.specs.Sums.{AreExact};
ghost use Rattle.cov_summary.specs.Totals.{IsExact};
ghost use Rattle.cov_summary.specs.Shortfall as spec;

use crate::sums::Summary;
use crate::totals::Totals;
use items::Memory;
use std::alloc::Global;

/// What is counted.
#[derive(Clone, Copy, Debug)]
pub enum Metric {
    /// Lines on which a statement starts.
    Lines,
    /// Statements.
    Statements,
    /// Paths of branches.
    Branches,
    /// Functions.
    Functions,
}

/// The least percentages, where they are asked for.
#[derive(Clone, Copy, Debug)]
pub struct Thresholds {
    /// Of lines.
    pub lines: Option<u8>,
    /// Of statements.
    pub statements: Option<u8>,
    /// Of paths of branches.
    pub branches: Option<u8>,
    /// Of functions.
    pub functions: Option<u8>,
}

/// A percentage that is below its threshold.
#[derive(Clone, Copy, Debug)]
pub struct Shortfall {
    /// What is counted.
    pub what: Metric,
    /// The percentage in hundredths, cut to whole.
    pub hundredths: u64,
    /// The percentage that was asked for.
    pub threshold: u8,
}

/// How many hundredths of a percent ran, cut to whole: 10000 where there is nothing.
pub fn hundredths(covered: u64, total: u64) -> u64
    requires part { covered ≤ total }
    requires exact { total < 2 ^ 53 }
    ensures { result ≡ spec.hundredths covered total }
{
    if total == 0 {
        10_000
    } else {
        (10_000 * (covered as u128) / (total as u128)) as u64
    }
}

/// The percentages of all files together that are below their thresholds, in the order lines,
/// statements, branches, functions. Want of memory is the only error.
pub fn shortfalls(
    alloc: Global,
    summary: &Summary,
    thresholds: Thresholds,
) -> Result<Vec<Shortfall>, Memory>
    requires { AreExact summary.now.total }
    ensures { IfOk result (λ shortfalls. shortfalls.items ≡ spec.shortfalls_of summary.now.total thresholds) }
{
    let mut out = Vec::new(alloc);
    let total = summary.total;
    push_shortfall(&mut out, Metric::Lines, total.lines, thresholds.lines)?;
    push_shortfall(
        &mut out,
        Metric::Statements,
        total.statements,
        thresholds.statements,
    )?;
    push_shortfall(
        &mut out,
        Metric::Branches,
        total.branches,
        thresholds.branches,
    )?;
    push_shortfall(
        &mut out,
        Metric::Functions,
        total.functions,
        thresholds.functions,
    )?;
    Ok(out)
}

// Puts a shortfall at the end, where there is one.
fn push_shortfall(
    out: &mut Vec<Shortfall>,
    what: Metric,
    totals: Totals,
    threshold: Option<u8>,
) -> Result<(), Memory>
    requires { IsExact totals }
    ensures { OnOk result (out.new.items ≡ out.old.items ++ spec.shortfall what totals threshold) }
{
    if let Some(threshold) = threshold {
        let hundredths = hundredths(totals.covered, totals.total);
        if hundredths < 100 * (threshold as u64) {
            out.push(Shortfall {
                what,
                hundredths,
                threshold,
            })?;
        }
    }
    Ok(())
}
