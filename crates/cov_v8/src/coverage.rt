ghost use Rattle.std.specs.Prelude.{◌≡◌, ◌≢◌, ◌<◌, ◌^◌, ◌++◌, map, ℕ, List, [], ◌∷◌, length, Ok, Err, IfOk, IfErr, OnOk};
ghost use Rattle.std.specs.List.{All};
ghost use Rattle.std.specs.Str.{chars};
ghost use Rattle.cov_v8.specs.declared.fault.V8Fault.TheVariants.{Memory as OutOfMemory};
ghost use Rattle.cov_v8.specs.Form.{IsRange, IsFunction, AreFunctions};
ghost use Rattle.cov_v8.specs.private.Table.{table as table_of, IsTable};
ghost use Rattle.cov_v8.specs.declared.v8.V8Range.{V8Range as a_range};
ghost use Rattle.cov_v8.specs.private.Steps.{Ascend};
ghost use Rattle.cov_v8.specs.private.Inside.{IsLine, IsInside, AreInside};
ghost use Rattle.cov_v8.specs.Coverage as spec;

use crate::fault::{V8Fault, bad_member};
use crate::lines::lines;
use crate::ranges::{all_ranges, are_within};
use crate::steps::steps;
use crate::table::{end, part, table};
use crate::v8::{V8Function, V8Range};
use crate::walk::Walk;
use cov_hash::hash_of;
use cov_object::{
    BranchCoverage, Count, FileCoverage, FunctionCoverage, Numbered, PathCoverage,
    StatementCoverage,
};
use items::{Items, Memory, Text};
use js_tree::Pos;
use std::alloc::Global;

// Puts the statement of a line at the end.
fn push_statement(
    all: &mut Vec<StatementCoverage>,
    table: &[Pos],
    line: (u64, u64),
    count: u64,
) -> Result<(), Memory>
    requires known { IsTable table.now }
    requires within { IsLine (length table.now) line }
    requires counted { count < 2 ^ 53 }
    ensures { OnOk result ((cs : List ℕ) (ranges : List a_range) → table.now ≡ table_of cs → count ≡ spec.count_at ranges line.0
        → all.new.items ≡ all.old.items ++ spec.statement cs ranges line ∷ []) }
{
    all.push(StatementCoverage {
        location: part(table, line.0 as usize, line.1 as usize),
        count: Count::new(count),
    })?;
    Ok(())
}

// The statements of some lines, in the order in which they stand.
fn statements(
    alloc: Global,
    table: &[Pos],
    ranges: &[V8Range],
    lines: &[(u64, u64)],
) -> Result<Vec<StatementCoverage>, Memory>
    requires known { IsTable table.now }
    requires within { All (IsLine (length table.now)) lines.now }
    requires ordered { Ascend 0 lines.now }
    requires counted { All IsRange ranges.now }
    ensures { IfOk result (λ all. (cs : List ℕ) → table.now ≡ table_of cs → all.items ≡ map (spec.statement cs ranges.now) lines.now) }
{
    let steps = steps(alloc, ranges)?;
    let mut walk = Walk::new(&steps);
    let mut all = Vec::new(alloc);
    for line in lines {
        let count = walk.count_at(line.0);
        push_statement(&mut all, table, *line, count)?;
    }
    Ok(all)
}

// Puts a function at the end, where it has a name.
fn push_function(
    alloc: Global,
    all: &mut Vec<FunctionCoverage>,
    table: &[Pos],
    function: &V8Function,
) -> Result<(), Memory>
    requires known { IsTable table.now }
    requires formed { IsFunction function.now }
    requires within { All (IsInside (length table.now)) function.now.ranges }
    ensures { OnOk result ((cs : List ℕ) → table.now ≡ table_of cs
        → all.new.items ≡ all.old.items ++ spec.function_with cs function.now.name function.now.ranges) }
{
    if function.name.as_str().is_empty() {
        return Ok(());
    }
    let ranges = function.ranges.as_slice();
    let first = &ranges[0];
    let location = part(table, first.start as usize, first.end as usize);
    all.push(FunctionCoverage {
        name: Text::from_str(alloc, function.name.as_str())?,
        declaration: location,
        location,
        count: Count::new(first.count),
    })?;
    Ok(())
}

// The functions that have a name.
fn named(
    alloc: Global,
    table: &[Pos],
    functions: &[V8Function],
) -> Result<Vec<FunctionCoverage>, Memory>
    requires known { IsTable table.now }
    requires formed { AreFunctions functions.now }
    requires within { AreInside (length table.now) functions.now }
    ensures { IfOk result (λ all. (cs : List ℕ) → table.now ≡ table_of cs → all.items ≡ spec.functions cs functions.now) }
{
    let mut all = Vec::new(alloc);
    for function in functions {
        push_function(alloc, &mut all, table, function)?;
    }
    Ok(all)
}

// The branch that a further range is.
fn branch(alloc: Global, table: &[Pos], range: &V8Range) -> Result<BranchCoverage, Memory>
    requires known { IsTable table.now }
    requires formed { IsRange range.now }
    requires within { IsInside (length table.now) range.now }
    ensures { IfOk result (λ branch. (cs : List ℕ) → table.now ≡ table_of cs → branch ≡ spec.branch cs range.now) }
{
    let (start, end) = (range.start as usize, range.end as usize);
    let mut paths = Vec::new(alloc);
    paths.push(PathCoverage {
        location: part(table, start, end),
        count: Count::new(range.count),
    })?;
    let paths = Items::from_vec(paths);
    BranchCoverage::new(alloc, "branch", part(table, start, end), paths)
}

// Puts the branches that some ranges are at the end.
fn push_parts(
    alloc: Global,
    all: &mut Vec<BranchCoverage>,
    table: &[Pos],
    ranges: &[V8Range],
) -> Result<(), Memory>
    requires known { IsTable table.now }
    requires formed { All IsRange ranges.now }
    requires within { All (IsInside (length table.now)) ranges.now }
    ensures { OnOk result ((cs : List ℕ) → table.now ≡ table_of cs → all.new.items ≡ all.old.items ++ map (spec.branch cs) ranges.now) }
{
    for range in ranges {
        all.push(branch(alloc, table, range)?)?;
    }
    Ok(())
}

// The ranges after the first of a function whose parts are counted.
fn further(function: &V8Function) -> &[V8Range]
    requires formed { IsFunction function.now }
    ensures parts { result.now ≡ spec.parts function.now }
    ensures formed { All IsRange result.now }
    ensures within { (n : ℕ) → All (IsInside n) function.now.ranges → All (IsInside n) result.now }
{
    if function.is_block {
        &function.ranges.as_slice()[1..]
    } else {
        &[]
    }
}

// Puts the branches of a function at the end.
fn push_branches(
    alloc: Global,
    all: &mut Vec<BranchCoverage>,
    table: &[Pos],
    function: &V8Function,
) -> Result<(), Memory>
    requires known { IsTable table.now }
    requires formed { IsFunction function.now }
    requires within { All (IsInside (length table.now)) function.now.ranges }
    ensures { OnOk result ((cs : List ℕ) → table.now ≡ table_of cs
        → all.new.items ≡ all.old.items ++ map (spec.branch cs) (spec.parts function.now)) }
{
    push_parts(alloc, all, table, further(function))
}

// The branches of some functions.
fn branches(
    alloc: Global,
    table: &[Pos],
    functions: &[V8Function],
) -> Result<Vec<BranchCoverage>, Memory>
    requires known { IsTable table.now }
    requires formed { AreFunctions functions.now }
    requires within { AreInside (length table.now) functions.now }
    ensures { IfOk result (λ all. (cs : List ℕ) → table.now ≡ table_of cs → all.items ≡ spec.branches cs functions.now) }
{
    let mut all = Vec::new(alloc);
    for function in functions {
        push_branches(alloc, &mut all, table, function)?;
    }
    Ok(all)
}

// The coverage of a source within which all ranges are.
fn file(
    alloc: Global,
    path: &str,
    text: &str,
    functions: &[V8Function],
    table: &[Pos],
    ranges: &[V8Range],
) -> Result<FileCoverage, Memory>
    requires known { table.now ≡ table_of (chars text.now) }
    requires formed { AreFunctions functions.now }
    requires all { ranges.now ≡ spec.all_ranges functions.now }
    requires counted { All IsRange ranges.now }
    requires within { All (IsInside (length table.now)) ranges.now }
    ensures { IfOk result (λ file. file ≡ spec.file_of path.now text.now functions.now) }
{
    let lines = lines(alloc, text, end(table))?;
    let statements = statements(alloc, table, ranges, &lines)?;
    let functions_named = named(alloc, table, functions)?;
    let branches = branches(alloc, table, functions)?;
    Ok(FileCoverage {
        path: Text::from_str(alloc, path)?,
        hash: Some(Text::from_string(hash_of(alloc, text.as_bytes())?)),
        input_source_map: None,
        statements: Numbered::from_vec(alloc, statements)?,
        functions: Numbered::from_vec(alloc, functions_named)?,
        branches: Numbered::from_vec(alloc, branches)?,
    })
}

/// The coverage of a source, by what V8 counted in its functions. `BadMember` is of `ranges`, and comes
/// exactly where an offset is past the source's text.
pub fn to_coverage(
    alloc: Global,
    path: &str,
    text: &js_text::Text,
    functions: &[V8Function],
) -> Result<FileCoverage, V8Fault>
    requires { AreFunctions functions.now }
    ensures ok { IfOk result (λ file. spec.coverage_of path.now text.now functions.now ≡ Ok file) }
    ensures err { IfErr result (λ fault. fault ≢ OutOfMemory → spec.coverage_of path.now text.now functions.now ≡ Err fault) }
{
    let table = table(alloc, text.as_str())?;
    let ranges = all_ranges(alloc, functions)?;
    if !are_within(end(&table), &ranges) {
        return Err(bad_member(alloc, "ranges"));
    }
    Ok(file(alloc, path, text.as_str(), functions, &table, &ranges)?)
}
