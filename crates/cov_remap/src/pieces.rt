ghost use Rattle.std.specs.Prelude.{◌≡◌, ◌++◌, [], ◌∷◌, None, option_map, IfOk, OnOk};
ghost use Rattle.cov_remap.specs.Sent.{Sending, sent};
ghost use Rattle.cov_remap.specs.Remapped as spec;

use crate::path::source_path;
use crate::sent::{send_branch, send_function, send_statement};
use cov_object::{
    BranchCoverage, Count, FileCoverage, FunctionCoverage, Location, Numbered, StatementCoverage,
};
use items::{Memory, Text};
use source_map::SourceMap;
use std::alloc::Global;

// What is sent to sources: statements, functions or branches.
trait Sends: Drop {
    // what of it counts for remapping
    ghost sending: { Sending Self };

    // Those of a file, each beside its number.
    fn entries(file: &FileCoverage) -> &[(u64, Self)]
        ensures { result.now ≡ sending.kind.entries file.now };

    // Where the map sends it.
    fn send(&self, alloc: Global, map: &SourceMap) -> Result<Option<(u32, Self)>, Memory>
        ensures { IfOk result (λ found. found ≡ sending.send map.now self.now) };

    // A file that has it and no other entry.
    fn alone(self, alloc: Global, path: Text) -> Result<FileCoverage, Memory>
        ensures { IfOk result (λ file. file ≡ sending.alone path self) };
}

// One thing, numbered 0.
fn numbered<T: Drop>(alloc: Global, entry: T) -> Result<Numbered<T>, Memory>
    ensures { IfOk result (λ things. things ≡ (0, entry) ∷ []) }
{
    let mut list = Vec::with_capacity(alloc, 1)?;
    list.push(entry)?;
    Numbered::from_vec(alloc, list)
}

// One statement, numbered 0.
fn statements_of(
    alloc: Global,
    location: Location,
    count: Count,
) -> Result<Numbered<StatementCoverage>, Memory>
    ensures { IfOk result (λ things. things ≡ (0, record { location = location; count = count }) ∷ []) }
{
    let mut list = Vec::with_capacity(alloc, 1)?;
    list.push(StatementCoverage { location, count })?;
    Numbered::from_vec(alloc, list)
}

impl Sends for StatementCoverage {
    ghost use Rattle.cov_remap.specs.Sent.{sending_statements};

    ghost sending = { sending_statements };

    fn entries(file: &FileCoverage) -> &[(u64, StatementCoverage)] {
        file.statements.as_slice()
    }

    fn send(
        &self,
        _alloc: Global,
        map: &SourceMap,
    ) -> Result<Option<(u32, StatementCoverage)>, Memory> {
        Ok(send_statement(map, self))
    }

    fn alone(self, alloc: Global, path: Text) -> Result<FileCoverage, Memory> {
        let StatementCoverage { location, count } = self;
        let statements = statements_of(alloc, location, count)?;
        Ok(FileCoverage {
            path,
            hash: None,
            input_source_map: None,
            statements,
            functions: Numbered::new(alloc),
            branches: Numbered::new(alloc),
        })
    }
}

impl Sends for FunctionCoverage {
    ghost use Rattle.cov_remap.specs.Sent.{sending_functions};

    ghost sending = { sending_functions };

    fn entries(file: &FileCoverage) -> &[(u64, FunctionCoverage)] {
        file.functions.as_slice()
    }

    fn send(
        &self,
        alloc: Global,
        map: &SourceMap,
    ) -> Result<Option<(u32, FunctionCoverage)>, Memory> {
        send_function(alloc, map, self)
    }

    fn alone(self, alloc: Global, path: Text) -> Result<FileCoverage, Memory> {
        Ok(FileCoverage {
            path,
            hash: None,
            input_source_map: None,
            statements: Numbered::new(alloc),
            functions: numbered(alloc, self)?,
            branches: Numbered::new(alloc),
        })
    }
}

impl Sends for BranchCoverage {
    ghost use Rattle.cov_remap.specs.Sent.{sending_branches};

    ghost sending = { sending_branches };

    fn entries(file: &FileCoverage) -> &[(u64, BranchCoverage)] {
        file.branches.as_slice()
    }

    fn send(
        &self,
        alloc: Global,
        map: &SourceMap,
    ) -> Result<Option<(u32, BranchCoverage)>, Memory> {
        send_branch(alloc, map, self)
    }

    fn alone(self, alloc: Global, path: Text) -> Result<FileCoverage, Memory> {
        Ok(FileCoverage {
            path,
            hash: None,
            input_source_map: None,
            statements: Numbered::new(alloc),
            functions: Numbered::new(alloc),
            branches: numbered(alloc, self)?,
        })
    }
}

// The file that an entry is in its source, where the map sends it somewhere.
fn piece_of<T: Sends>(
    alloc: Global,
    path: &str,
    map: &SourceMap,
    entry: &T,
) -> Result<Option<FileCoverage>, Memory>
    ensures { IfOk result (λ piece. piece ≡ option_map (λ to. T.sending.alone to.0 to.1) (sent T.sending path.now map.now entry.now)) }
{
    match entry.send(alloc, map)? {
        None => Ok(None),
        Some((number, entry)) => match map.source(number) {
            None => Ok(None),
            Some(text) => {
                let path = source_path(alloc, path, text)?;
                Ok(Some(entry.alone(alloc, path)?))
            }
        },
    }
}

// Puts the pieces of a kind of a file's entries last. After want of memory `pieces` is of no use.
fn push_pieces<T: Sends>(
    alloc: Global,
    file: &FileCoverage,
    map: &SourceMap,
    pieces: &mut Vec<FileCoverage>,
) -> Result<(), Memory>
    ensures { OnOk result (pieces.new.items ≡ pieces.old.items ++ spec.pieces_of T.sending file.now map.now) }
{
    let mut rest = T::entries(file);
    'entries: while let Some((first, after)) = rest.split_first() {
        if let Some(piece) = piece_of(alloc, file.path.as_str(), map, &first.1)? {
            pieces.push(piece)?;
        }
        rest = after;
    }
    Ok(())
}

// Puts the pieces of a file last.
pub(crate) fn push_all(
    alloc: Global,
    file: &FileCoverage,
    map: &SourceMap,
    pieces: &mut Vec<FileCoverage>,
) -> Result<(), Memory>
    ensures { OnOk result (pieces.new.items ≡ pieces.old.items ++ spec.pieces file.now map.now) }
{
    push_pieces::<StatementCoverage>(alloc, file, map, pieces)?;
    push_pieces::<FunctionCoverage>(alloc, file, map, pieces)?;
    push_pieces::<BranchCoverage>(alloc, file, map, pieces)
}
