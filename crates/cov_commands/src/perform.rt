ghost use Rattle.std.specs.Prelude.{◌≡◌, ◌⊎◌, Err, IfOk, OnOk};
ghost use Rattle.cov_base.specs.Causes.{HasCause, Rose};
ghost use Rattle.cov_base.specs.Sink.{after_more, TakesPrefix};
ghost use Rattle.cov_base.specs.Store.{PutsAt};
ghost use Rattle.cov_base.specs.declared.failed.Failed.TheVariants.{Device};
ghost use Rattle.cov_summary.specs.Sums.{summary_of};
ghost use Rattle.cov_summary.specs.Shortfall.{shortfalls_of};
ghost use Rattle.cov_report.specs.Fault.{HasReportCause};
ghost use Rattle.cov_commands.specs.Coverage as spec;
ghost use Rattle.cov_commands.specs.private.Performed.{ComesOut, CountsPuts, StoredBy};

use cov_base::{Failed, Sink, Store};
use cov_object::CoverageMap;
use cov_report::{ReportFault, json, json_summary_to, json_to, lcov_to, text_to};
use cov_summary::{Shortfall, Thresholds, shortfalls, summary};
use cov_words::{CoverageTask, Reporter};
use items::Memory;
use std::alloc::Global;

/// Writes the report that a reporter makes of a map.
fn report_to<O: Sink>(
    alloc: Global,
    reporter: Reporter,
    map: &CoverageMap,
    out: &mut O,
) -> Result<(), ReportFault>
    ensures all { OnOk result (O.taken out.new ≡ after_more (O.taken out.old) (spec.report_text reporter map.now)) }
    ensures prefix { TakesPrefix (O.taken out.old) (O.taken out.new) (spec.report_text reporter map.now) }
    ensures cause { HasReportCause (O.faults out.old) (O.faults out.new) result }
{
    match reporter {
        Reporter::Text => text_to(alloc, map, out),
        Reporter::Json => json_to(alloc, map, out),
        Reporter::JsonSummary => json_summary_to(alloc, map, out),
        Reporter::Lcov => lcov_to(alloc, map, out),
    }
}

/// Writes the report, or passes on why not.
fn report<O: Sink>(
    alloc: Global,
    reporter: Reporter,
    map: &CoverageMap,
    out: &mut O,
) -> Result<(), Failed>
    ensures all { OnOk result (O.taken out.new ≡ after_more (O.taken out.old) (spec.report_text reporter map.now)) }
    ensures prefix { TakesPrefix (O.taken out.old) (O.taken out.new) (spec.report_text reporter map.now) }
    ensures cause { HasCause (O.faults out.old) (O.faults out.new) result }
{
    match report_to(alloc, reporter, map, out) {
        Ok(()) => Ok(()),
        Err(ReportFault::Sink(failed)) => Err(failed),
        Err(ReportFault::Memory) => Err(Failed::Memory),
    }
}

/// What of a map is below its threshold.
fn below(alloc: Global, thresholds: Thresholds, map: &CoverageMap) -> Result<Vec<Shortfall>, Memory>
    ensures { IfOk result (λ below. below.items ≡ shortfalls_of (summary_of map.now).total thresholds) }
{
    let summary = summary(alloc, map)?;
    shortfalls(alloc, &summary, thresholds)
}

/// Puts the JSON of a map at a path.
pub(crate) fn put<S: Store>(
    alloc: Global,
    store: &mut S,
    path: &str,
    map: &CoverageMap,
) -> Result<(), Failed>
    ensures value { PutsAt path.now (spec.json_line map.now) (S.held store.old) (S.held store.new) result }
    ensures cause { HasCause (S.put_faults store.old) (S.put_faults store.new) result }
    ensures reads { S.read_faults store.new ≡ S.read_faults store.old }
{
    let text = json(alloc, map)?;
    store.put(path, text.as_slice())
}

/// Does a task on the sums of coverage files, and gives the percentages that are below their
/// thresholds, which only `check` has.
pub(crate) fn perform<S: Store, O: Sink>(
    alloc: Global,
    task: &CoverageTask,
    sums: &CoverageMap,
    store: &mut S,
    out: &mut O,
) -> Result<Vec<Shortfall>, Failed>
    ensures done { IfOk result (λ below. ComesOut task.now sums.now below.items (O.taken out.old) (O.taken out.new)) }
    ensures prefix { TakesPrefix (O.taken out.old) (O.taken out.new) (spec.verdict_on task.now sums.now).output }
    ensures rose { result ≡ Err Device → (Rose (O.faults out.old) (O.faults out.new)) ⊎ (Rose (S.put_faults store.old) (S.put_faults store.new)) }
    ensures stores { StoredBy task.now sums.now result (S.held store.old) (S.held store.new) }
    ensures puts { CountsPuts task.now (S.put_faults store.old) (S.put_faults store.new) }
    ensures reads { S.read_faults store.new ≡ S.read_faults store.old }
{
    match task {
        CoverageTask::Merge { out: path } => {
            put(alloc, store, path.as_str(), sums)?;
            Ok(Vec::new(alloc))
        }
        CoverageTask::Report { reporter } => {
            report(alloc, *reporter, sums, out)?;
            Ok(Vec::new(alloc))
        }
        CoverageTask::Check { thresholds } => Ok(below(alloc, *thresholds, sums)?),
    }
}
