ghost use Rattle.std.specs.Prelude.{◌≡◌, ◌++◌, ◌∷◌, [], false, map, IfOk, OnOk};
ghost use Rattle.cov_base.specs.Sink.{after_more, TakesPrefix};
ghost use Rattle.cov_object.specs.Files.{AreInOrder};
ghost use Rattle.cov_object.specs.Json.{file_member, json_text};
ghost use Rattle.cov_report.specs.Fault.{HasReportCause};

use crate::fault::ReportFault;
use crate::put::{Report, files_of, put_report, put_whole};
use cov_base::Sink;
use cov_object::{CoverageMap, FileCoverage, push_member, write_json};
use items::Memory;
use std::alloc::Global;

/// The JSON of a coverage map, and LF. Want of memory is the only error.
pub fn json(alloc: Global, map: &CoverageMap) -> Result<Vec<u8>, Memory>
    ensures { IfOk result (λ text. text.items ≡ json_text map.now ++ 0x0A ∷ []) }
{
    let mut text = write_json(alloc, map)?;
    text.push(b'\n')?;
    Ok(text)
}

/// The same, written to a sink in pieces. After a fault the sink has taken a prefix.
pub fn json_to<S: Sink>(alloc: Global, map: &CoverageMap, sink: &mut S) -> Result<(), ReportFault>
    ensures all { OnOk result (S.taken sink.new ≡ after_more (S.taken sink.old) (json_text map.now ++ 0x0A ∷ [])) }
    ensures prefix { TakesPrefix (S.taken sink.old) (S.taken sink.new) (json_text map.now ++ 0x0A ∷ []) }
    ensures cause { HasReportCause (S.faults sink.old) (S.faults sink.new) result }
{
    let files = files_of(alloc, map)?;
    put_files(alloc, sink, files.as_slice())
}

// Puts the JSON of files, and LF.
fn put_files<S: Sink>(
    alloc: Global,
    sink: &mut S,
    files: &[&FileCoverage],
) -> Result<(), ReportFault>
    requires { AreInOrder (map (λ file. file.now) files.now) }
    ensures all { OnOk result (S.taken sink.new
        ≡ after_more (S.taken sink.old) (json_text (map (λ file. file.now) files.now) ++ 0x0A ∷ [])) }
    ensures prefix { TakesPrefix (S.taken sink.old) (S.taken sink.new) (json_text (map (λ file. file.now) files.now) ++ 0x0A ∷ []) }
    ensures cause { HasReportCause (S.faults sink.old) (S.faults sink.new) result }
{
    match files {
        [] => put_whole(alloc, sink, b"{}\n"),
        [first, others @ ..] => put_members(alloc, sink, first, others),
    }
}

// Puts the JSON of files, of which there is one at least, and LF.
fn put_members<S: Sink>(
    alloc: Global,
    sink: &mut S,
    first: &FileCoverage,
    others: &[&FileCoverage],
) -> Result<(), ReportFault>
    requires { AreInOrder (first.now ∷ map (λ file. file.now) others.now) }
    ensures all { OnOk result (S.taken sink.new
        ≡ after_more (S.taken sink.old) (json_text (first.now ∷ map (λ file. file.now) others.now) ++ 0x0A ∷ [])) }
    ensures prefix { TakesPrefix (S.taken sink.old) (S.taken sink.new)
        (json_text (first.now ∷ map (λ file. file.now) others.now) ++ 0x0A ∷ []) }
    ensures cause { HasReportCause (S.faults sink.old) (S.faults sink.new) result }
{
    let start = start_of(alloc, first)?;
    put_report(alloc, sink, &LaterMembers, &start, others, b"}\n")
}

// What stands before the other files: the first.
fn start_of(alloc: Global, first: &FileCoverage) -> Result<Vec<u8>, Memory>
    ensures { IfOk result (λ start. start.items ≡ 123 ∷ file_member false first.now) }
{
    let mut out = Vec::from_slice(alloc, b"{")?;
    push_member(alloc, &mut out, false, first)?;
    Ok(out)
}

// A member for each file, after another.
#[derive(Drop)]
struct LaterMembers;

impl Report for LaterMembers {
    ghost use Rattle.std.specs.Prelude.{true};
    ghost use Rattle.cov_object.specs.Json.{file_member};

    ghost text = { λ _ file. file_member true file };

    fn push(&self, alloc: Global, out: &mut Vec<u8>, file: &FileCoverage) -> Result<(), Memory> {
        push_member(alloc, out, true, file)
    }
}
