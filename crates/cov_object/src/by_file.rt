// The files of a text, one after another.
ghost use Rattle.std.specs.Prelude.{◌≡◌, ◌≢◌, ◌+◌, ◌<◌, ◌≤◌, ◌∷◌, length, IsTrue, Some, None, Ok, Err, option_map, option_and_then, IfOk, IfErr, OnOk};
ghost use Rattle.json.specs.Token.{begin_object};
ghost use Rattle.json.specs.Json.{value as tokens_value, members, parse_map};
ghost use Rattle.serde_json.specs.Data.{no_members, depth};
ghost use Rattle.serde_json.specs.Find.{as_object};
ghost use Rattle.serde_json.specs.Read.{of_json, of_members, converted, read as read_text};
ghost use Rattle.serde_json.specs.View.{view};
ghost use Rattle.cov_object.specs.SourceMapText.{most_depth};
ghost use Rattle.cov_object.specs.declared.fault.CoverageFault.TheVariants.{Memory as OutOfMemory, BadJson as bad_json};
ghost use Rattle.cov_object.specs.declared.json_value.Unread.TheVariants.{NoJson};
ghost use Rattle.cov_object.specs.Read as spec;
ghost use Rattle.cov_object.specs.private.ByFile.{begins_object, answers, answered, all_or_first, AreUnderTheirKeys};
ghost use Rattle.cov_object.specs.private.ByMember.{file_told};

use crate::by_member::next_file;
use crate::fault::{CoverageFault, bad_member};
use crate::file::FileCoverage;
use crate::json_text::text_value;
use crate::json_value::Unread;
use crate::map::CoverageMap;
use crate::parts::{FileParts, parts_in};
use crate::read::read_file;
use items::Memory;
use json::{Reader, Scratch, Token};
use serde_json::Value;
use std::alloc::{AllocError, Global};
use std::collections::BTreeMap;

// The files that a text tells, or its first fault.
pub(crate) fn files_in(alloc: Global, text: &str) -> Result<CoverageMap, CoverageFault>
    ensures ok { IfOk result (λ map. spec.value_or_fault (read_text text.now) ≡ Ok map) }
    ensures err { IfErr result (λ fault. fault ≢ OutOfMemory → spec.value_or_fault (read_text text.now) ≡ Err fault) }
{
    match answers_in(alloc, text)? {
        Some(answers) => all_files(alloc, answers),
        None => Err(no_object(alloc, text)),
    }
}

// What each member of a text's object tells, under its key; none where the text begins with no
// brace.
fn answers_in(
    alloc: Global,
    text: &str,
) -> Result<Option<BTreeMap<String, Result<FileCoverage, CoverageFault>>>, CoverageFault>
    ensures ok { IfOk result (λ found. option_map (λ found. answered found.entries) found
        ≡ option_map answers (option_and_then as_object (read_text text.now))) }
    ensures err { IfErr result (λ fault. fault ≢ OutOfMemory → (fault ≡ bad_json) × (read_text text.now ≡ None)) }
{
    let mut scratch = Scratch::new(alloc);
    let mut reader = Reader::new(text, &mut scratch)?;
    if !takes_brace(&mut reader) {
        return Ok(None);
    }
    let found = match next_answers(alloc, &mut reader) {
        Ok(found) => found,
        Err(Unread::NoJson) => return Err(CoverageFault::BadJson),
        Err(Unread::Memory) => return Err(CoverageFault::Memory),
    };
    match reader.next() {
        None => Ok(Some(found)),
        Some(_) => Err(CoverageFault::BadJson),
    }
}

// Takes a token, and tells whether it is the brace that opens an object.
fn takes_brace(reader: &mut Reader<'_>) -> bool
    ensures brace { result ≡ begins_object reader.old }
    ensures taken { IsTrue result → reader.old ≡ begin_object ∷ reader.new }
{
    matches!(reader.next(), Some(Token::BeginObject))
}

// What the members up to the closing brace tell; of equal keys the last one counts.
fn next_answers(
    alloc: Global,
    reader: &mut Reader<'_>,
) -> Result<BTreeMap<String, Result<FileCoverage, CoverageFault>>, Unread>
    ensures ok { IfOk result (λ found. parse_map answers
        (converted (λ ms. of_members ms no_members) (members (tokens_value (most_depth + 1)) (length reader.old) reader.old))
        ≡ Some (answered found.entries, reader.new)) }
    ensures err { result ≡ Err NoJson
        → converted (λ ms. of_members ms no_members) (members (tokens_value (most_depth + 1)) (length reader.old) reader.old) ≡ None }
{
    let mut found = BTreeMap::new(alloc);
    'members: while let Some(name) = reader.next_key()? {
        let key = String::from_str(alloc, name)?;
        let answer = next_answer(alloc, reader, key.as_str())?;
        drop(found.insert(key, answer)?);
    }
    Ok(found)
}

// What the value tells that comes next, under its key.
fn next_answer(
    alloc: Global,
    reader: &mut Reader<'_>,
    key: &str,
) -> Result<Result<FileCoverage, CoverageFault>, Unread>
    ensures ok { IfOk result (λ answer. parse_map (λ value. spec.file_of key.now value) (converted of_json (tokens_value (most_depth + 1) reader.old))
        ≡ Some (answer, reader.new)) }
    ensures shorter { OnOk result (length reader.new < length reader.old) }
    ensures err { result ≡ Err NoJson → converted of_json (tokens_value (most_depth + 1) reader.old) ≡ None }
{
    let parts = next_file(alloc, reader, key)?;
    Ok(answer_of_parts(alloc, key, parts)?)
}

// What a file's value tells: the file, or why it is none.
pub(crate) fn answer_of(
    alloc: Global,
    key: &str,
    value: &Value,
) -> Result<Result<FileCoverage, CoverageFault>, Memory>
    requires { depth (view value.now) ≤ most_depth + 1 }
    ensures { IfOk result (λ answer. answer ≡ spec.file_of key.now (view value.now)) }
{
    let parts = parts_in(alloc, key, value)?;
    answer_of_parts(alloc, key, parts)
}

// What was kept of a file tells: the file, or why it is none.
fn answer_of_parts(
    alloc: Global,
    key: &str,
    parts: FileParts,
) -> Result<Result<FileCoverage, CoverageFault>, Memory>
    ensures { IfOk result (λ answer. answer ≡ file_told key.now parts) }
{
    match read_file(alloc, key, parts) {
        Ok(file) => Ok(Ok(file)),
        Err(CoverageFault::Memory) => Err(AllocError),
        Err(fault) => Ok(Err(fault)),
    }
}

// All files, or the first fault.
pub(crate) fn all_files(
    alloc: Global,
    answers: BTreeMap<String, Result<FileCoverage, CoverageFault>>,
) -> Result<CoverageMap, CoverageFault>
    requires { AreUnderTheirKeys (answered answers.entries) }
    ensures ok { IfOk result (λ map. all_or_first (answered answers.entries) ≡ Ok map) }
    ensures err { IfErr result (λ fault. fault ≢ OutOfMemory → all_or_first (answered answers.entries) ≡ Err fault) }
{
    let mut map = CoverageMap::new(alloc);
    'files: for (_, answer) in answers {
        drop(map.insert(answer?)?);
    }
    Ok(map)
}

// Why a text that is no object tells no files.
fn no_object(alloc: Global, text: &str) -> CoverageFault
    requires { option_and_then as_object (read_text text.now) ≡ None }
    ensures { result ≢ OutOfMemory → spec.value_or_fault (read_text text.now) ≡ Err result }
{
    match text_value(alloc, text) {
        Ok(Some(_)) => bad_member(alloc, "", "file"),
        Ok(None) => CoverageFault::BadJson,
        Err(AllocError) => CoverageFault::Memory,
    }
}
