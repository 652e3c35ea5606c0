ghost use Rattle.std.specs.Prelude.{◌≡◌, ◌++◌, ℕ, List, map, OnOk, IfOk};
ghost use Rattle.std.specs.List.{flat_map};
ghost use Rattle.cov_base.specs.Sink.{after_more, TakesPrefix};
ghost use Rattle.cov_base.specs.Pieces.{Moves, held_of};
ghost use Rattle.cov_object.specs.declared.file.FileCoverage.{FileCoverage};
ghost use Rattle.cov_object.specs.Files.{AreInOrder};
ghost use Rattle.cov_report.specs.Fault.{HasReportCause};

use crate::fault::ReportFault;
use cov_base::{Memory, Pieces, Sink};
use cov_object::{CoverageMap, FileCoverage};
use std::alloc::Global;

// What a report has of each file.
pub(crate) trait Report {
    // its text for a file
    ghost text: { Self → FileCoverage → List ℕ };

    // Writes it at the end of `out`.
    fn push(&self, alloc: Global, out: &mut Vec<u8>, file: &FileCoverage) -> Result<(), Memory>
        ensures { OnOk result (out.new.items ≡ out.old.items ++ text self.now file.now) };
}

// The files of a map, lent.
pub(crate) fn files_of(alloc: Global, coverage: &CoverageMap) -> Result<Vec<&FileCoverage>, Memory>
    ensures files { IfOk result (λ files. map (λ file. file.now) files.items ≡ coverage.now) }
    ensures order { AreInOrder coverage.now }
{
    coverage.files().collect(alloc)
}

// Puts what stands before the files, each file, and what stands after them.
pub(crate) fn put_report<R: Report, S: Sink>(
    alloc: Global,
    sink: &mut S,
    report: &R,
    head: &[u8],
    files: &[&FileCoverage],
    tail: &[u8],
) -> Result<(), ReportFault>
    ensures all { OnOk result (S.taken sink.new
        ≡ after_more (S.taken sink.old) (head.now ++ (flat_map (R.text report.now) (map (λ file. file.now) files.now) ++ tail.now))) }
    ensures prefix { TakesPrefix (S.taken sink.old) (S.taken sink.new)
        (head.now ++ (flat_map (R.text report.now) (map (λ file. file.now) files.now) ++ tail.now)) }
    ensures cause { HasReportCause (S.faults sink.old) (S.faults sink.new) result }
{
    let mut pieces = Pieces::new(alloc)?;
    put_text(&mut pieces, sink, head)?;
    put_files(alloc, &mut pieces, sink, report, files)?;
    put_text(&mut pieces, sink, tail)?;
    finish(pieces, sink)
}

// Puts a text that is made already.
pub(crate) fn put_whole<S: Sink>(
    alloc: Global,
    sink: &mut S,
    text: &[u8],
) -> Result<(), ReportFault>
    ensures all { OnOk result (S.taken sink.new ≡ after_more (S.taken sink.old) text.now) }
    ensures prefix { TakesPrefix (S.taken sink.old) (S.taken sink.new) text.now }
    ensures cause { HasReportCause (S.faults sink.old) (S.faults sink.new) result }
{
    let mut pieces = Pieces::new(alloc)?;
    put_text(&mut pieces, sink, text)?;
    finish(pieces, sink)
}

// Puts a text.
fn put_text<S: Sink>(pieces: &mut Pieces, sink: &mut S, text: &[u8]) -> Result<(), ReportFault>
    ensures moved { OnOk result (Moves (held_of pieces.old ++ text.now) (held_of pieces.new) (S.taken sink.old) (S.taken sink.new)) }
    ensures prefix { TakesPrefix (S.taken sink.old) (S.taken sink.new) (held_of pieces.old ++ text.now) }
    ensures cause { HasReportCause (S.faults sink.old) (S.faults sink.new) result }
{
    Ok(pieces.put(sink, text)?)
}

// Puts the last piece.
fn finish<S: Sink>(pieces: Pieces, sink: &mut S) -> Result<(), ReportFault>
    ensures all { OnOk result (S.taken sink.new ≡ after_more (S.taken sink.old) (held_of pieces)) }
    ensures prefix { TakesPrefix (S.taken sink.old) (S.taken sink.new) (held_of pieces) }
    ensures cause { HasReportCause (S.faults sink.old) (S.faults sink.new) result }
{
    Ok(pieces.finish(sink)?)
}

// Puts each file.
fn put_files<R: Report, S: Sink>(
    alloc: Global,
    pieces: &mut Pieces,
    sink: &mut S,
    report: &R,
    files: &[&FileCoverage],
) -> Result<(), ReportFault>
    ensures moved { OnOk result (Moves (held_of pieces.old ++ flat_map (R.text report.now) (map (λ file. file.now) files.now)) (held_of pieces.new)
        (S.taken sink.old) (S.taken sink.new)) }
    ensures prefix { TakesPrefix (S.taken sink.old) (S.taken sink.new)
        (held_of pieces.old ++ flat_map (R.text report.now) (map (λ file. file.now) files.now)) }
    ensures cause { HasReportCause (S.faults sink.old) (S.faults sink.new) result }
{
    for file in files {
        put_file(alloc, pieces, sink, report, file)?;
    }
    Ok(())
}

// Puts a file.
fn put_file<R: Report, S: Sink>(
    alloc: Global,
    pieces: &mut Pieces,
    sink: &mut S,
    report: &R,
    file: &FileCoverage,
) -> Result<(), ReportFault>
    ensures moved { OnOk result (Moves (held_of pieces.old ++ R.text report.now file.now) (held_of pieces.new) (S.taken sink.old) (S.taken sink.new)) }
    ensures prefix { TakesPrefix (S.taken sink.old) (S.taken sink.new) (held_of pieces.old ++ R.text report.now file.now) }
    ensures cause { HasReportCause (S.faults sink.old) (S.faults sink.new) result }
{
    let mut text = Vec::new(alloc);
    report.push(alloc, &mut text, file)?;
    put_text(pieces, sink, text.as_slice())
}
