ghost use Rattle.std.specs.Prelude.{◌≡◌, ◌≢◌, ◌++◌, map as each, Ok, Err, IfOk, IfErr, OnOk};
ghost use Rattle.cov_remap.specs.declared.fault.RemapFault.TheVariants.{Memory as OutOfMemory};
ghost use Rattle.cov_remap.specs.Remapped as spec;
ghost use Rattle.cov_remap.specs.Answer.{Answers};
ghost use Rattle.cov_remap.specs.private.Piece.{now, onto};

use crate::fault::RemapFault;
use crate::pieces::push_all;
use cov_merge::{MergeFault, merge_files};
use cov_object::{CoverageMap, FileCoverage};
use items::{Memory, Text};
use source_map::{MapFault, SourceMap, read};
use std::alloc::Global;

// A file of the map, or one that has a piece of a file.
#[derive(Drop)]
pub(crate) enum Piece<'a> {
    Whole(&'a FileCoverage),
    Part(FileCoverage),
}

// Puts the parts of a file last.
fn push_parts<'a>(
    alloc: Global,
    file: &FileCoverage,
    map: &SourceMap,
    pieces: &mut Vec<Piece<'a>>,
) -> Result<(), Memory>
    ensures { OnOk result (each now pieces.new.items ≡ each now pieces.old.items ++ spec.pieces file.now map.now) }
{
    let mut parts = Vec::new(alloc);
    push_all(alloc, file, map, &mut parts)?;
    'parts: for part in parts {
        pieces.push(Piece::Part(part))?;
    }
    Ok(())
}

// That the map of a file isn't one.
fn bad_map(alloc: Global, path: &str, fault: MapFault) -> RemapFault
    ensures bad { result ≢ OutOfMemory → result ≡ RemapFault.BadMap path.now fault }
    ensures memory { fault ≡ MapFault.Memory → result ≡ OutOfMemory }
{
    match fault {
        MapFault::Memory => RemapFault::Memory,
        other => match Text::from_str(alloc, path) {
            Ok(path) => RemapFault::BadMap { path, fault: other },
            Err(_) => RemapFault::Memory,
        },
    }
}

// Puts a file last, or what it is sent to.
fn push_file<'a>(
    alloc: Global,
    file: &'a FileCoverage,
    pieces: &mut Vec<Piece<'a>>,
) -> Result<(), RemapFault>
    ensures ok { OnOk result (onto (each now pieces.old.items) (spec.spread file.now) ≡ Ok (each now pieces.new.items)) }
    ensures err { IfErr result (λ fault. fault ≢ OutOfMemory → spec.spread file.now ≡ Err fault) }
{
    match &file.input_source_map {
        None => {
            pieces.push(Piece::Whole(file))?;
            Ok(())
        }
        Some(text) => match read(alloc, text.as_str().as_bytes(), u64::MAX) {
            Ok(map) => Ok(push_parts(alloc, file, &map, pieces)?),
            Err(fault) => Err(bad_map(alloc, file.path.as_str(), fault)),
        },
    }
}

// What the files are sent to, one file after another.
fn pieces_of<'a>(alloc: Global, files: &[&'a FileCoverage]) -> Result<Vec<Piece<'a>>, RemapFault>
    ensures ok { IfOk result (λ pieces. spec.spread_all (each (λ file. file.now) files.now) ≡ Ok (each now pieces.items)) }
    ensures err { IfErr result (λ fault. fault ≢ OutOfMemory → spec.spread_all (each (λ file. file.now) files.now) ≡ Err fault) }
{
    let mut pieces = Vec::new(alloc);
    for file in files {
        match push_file(alloc, file, &mut pieces) {
            Ok(()) => {}
            Err(fault) => return Err(fault),
        }
    }
    Ok(pieces)
}

// The file that a piece is.
fn file_of<'a>(piece: &'a Piece<'_>) -> &'a FileCoverage
    ensures { result.now ≡ now piece.now }
{
    match piece {
        Piece::Whole(file) => file,
        Piece::Part(file) => file,
    }
}

// The pieces, merged.
fn merge_pieces(alloc: Global, pieces: &[Piece<'_>]) -> Result<CoverageMap, RemapFault>
    ensures { Answers result (spec.merged_all (each now pieces.now)) }
{
    let mut files = Vec::new(alloc);
    for piece in pieces {
        files.push(file_of(piece))?;
    }
    match merge_files(alloc, &files) {
        Ok(map) => Ok(map),
        Err(MergeFault::CountTooLarge { key, sum }) => Err(RemapFault::CountTooLarge { key, sum }),
        Err(MergeFault::Memory) => Err(RemapFault::Memory),
    }
}

// The files of a map.
fn files_of(alloc: Global, map: &CoverageMap) -> Result<Vec<&FileCoverage>, Memory>
    ensures { IfOk result (λ files. each (λ file. file.now) files.items ≡ map.now) }
{
    let mut files = Vec::new(alloc);
    for file in map.files() {
        files.push(file)?;
    }
    Ok(files)
}

/// A coverage map in which the entries of files that have a source map stand where it sends them, and
/// what stands under one key is summed.
///
/// # Errors
/// `BadMap` where a file's source map isn't one, the first by path; `CountTooLarge`; want of memory.
pub fn remap(alloc: Global, map: &CoverageMap) -> Result<CoverageMap, RemapFault>
    ensures { Answers result (spec.remapped map.now) }
{
    let files = files_of(alloc, map)?;
    match pieces_of(alloc, &files) {
        Ok(pieces) => merge_pieces(alloc, &pieces),
        Err(fault) => Err(fault),
    }
}
