ghost use Rattle.std.specs.Prelude.{◌≡◌, ◌++◌, string_bytes, IfOk};
ghost use Rattle.std.specs.List.{flat_map};
ghost use Rattle.cov_commands.specs.Line.{line, refused_line, form_text, rule_text, kind_text, metric_text, shortfall_line, what_text, message_of, what_of_map as map_what, BadInput, Broken, Going, LeftOut, OutOfMemory, NotUtf8, TooLong, Uncaught};

use cov_inputs::What;
use cov_report::percent_of;
use cov_summary::{Metric, Shortfall};
use items::{Memory, Text};
use js_parser::Unsupported;
use js_scopes::{ScopeFault, ScopeFaultKind};
use js_tree::Pos;
use js_value::Kind;
use source_map::MapFault;
use std::alloc::Global;

/// Why the program gives no answer, or how the program that it ran ended.
#[derive(Clone, Copy, Debug)]
pub enum Complaint<'a> {
    /// The words of the command line have no reading.
    Usage,
    /// The file at this path isn't of the language: the token here, or what is none, is out of place.
    Syntax {
        path: &'a str,
        place: Pos,
    },
    /// The file at this path has a form that the language leaves out: the token here begins it.
    Unsupported {
        path: &'a str,
        place: Pos,
        form: Unsupported,
    },
    /// The file at this path has too many levels: the tokens before this place begin too many.
    TooDeep {
        path: &'a str,
        place: Pos,
    },
    /// The file at this path breaks an early rule.
    Broken {
        path: &'a str,
        fault: ScopeFault,
    },
    /// The file at this path isn't UTF-8: the fault begins at this byte, counted from 0.
    NotUtf8 {
        path: &'a str,
        at: usize,
    },
    /// The file at this path couldn't be read.
    ReadFailed {
        path: &'a str,
    },
    /// The answer couldn't be written.
    WriteFailed,
    /// There wasn't memory enough.
    OutOfMemory,
    /// The file at this path has more bytes than the program takes.
    TooLong {
        path: &'a str,
    },
    /// There are more files than the program takes.
    TooManyFiles,
    /// There is no file at this path.
    NoFile {
        path: &'a str,
    },
    /// An exception wasn't caught: these bytes are shown of it.
    Uncaught {
        shown: &'a [u8],
    },
    /// The program left the profile, by this.
    Range {
        kind: Kind,
    },
    /// The program would go on after so many steps.
    Going {
        turns: u64,
    },
    /// The file at this path is no coverage file, or a source map in it is none: what is wrong with it.
    BadInput {
        path: &'a str,
        what: &'a What,
    },
    /// The file at this path, beside a source, is no source map: what is wrong with it.
    BadMap {
        path: &'a str,
        fault: &'a MapFault,
    },
    /// A sum of counts reaches 2^53: it is this.
    CountTooLarge {
        sum: u64,
    },
    /// These percentages are below their thresholds.
    Below {
        shortfalls: &'a [Shortfall],
    },
}

/// The lines that the program says on standard error, each ended by LF, or want of memory. Only what is
/// below thresholds has more than one.
pub fn line(alloc: Global, complaint: &Complaint<'_>) -> Result<Vec<u8>, Memory>
    ensures { IfOk result (λ bytes. bytes.items ≡ line (message_of complaint.now)) }
{
    match complaint {
        Complaint::Usage => Vec::from_slice(alloc, "Usage: see cov --help\n".as_bytes()),
        Complaint::Syntax { path, place } => refused_line(alloc, path, *place, "syntax"),
        Complaint::Unsupported { path, place, form } => {
            unsupported_line(alloc, path, *place, *form)
        }
        Complaint::TooDeep { path, place } => refused_line(alloc, path, *place, "too deep"),
        Complaint::Broken { path, fault } => broken_line(alloc, path, *fault),
        Complaint::NotUtf8 { path, at } => not_utf8_line(alloc, path, *at),
        Complaint::ReadFailed { path } => {
            Ok(format!(in alloc; "Read failed: {path}\n")?.into_bytes())
        }
        Complaint::WriteFailed => Vec::from_slice(alloc, "Write failed\n".as_bytes()),
        Complaint::OutOfMemory => Vec::from_slice(alloc, out_of_memory().as_bytes()),
        Complaint::TooLong { path } => too_long_line(alloc, path),
        Complaint::TooManyFiles => Vec::from_slice(alloc, "Limit: files 1024\n".as_bytes()),
        Complaint::NoFile { path } => Ok(format!(in alloc; "No file: {path}\n")?.into_bytes()),
        Complaint::Uncaught { shown } => uncaught_line(alloc, shown),
        Complaint::Range { kind } => {
            let kind = kind_text(*kind);
            Ok(format!(in alloc; "Range refusal: {kind}\n")?.into_bytes())
        }
        Complaint::Going { turns } => going_line(alloc, *turns),
        Complaint::BadInput { path, what } => bad_input_line(alloc, path, what),
        Complaint::BadMap { path, fault } => {
            let what = what_of_map(alloc, fault)?;
            bad_input_line(alloc, path, &what)
        }
        Complaint::CountTooLarge { sum } => {
            Ok(format!(in alloc; "Limit: count {sum}\n")?.into_bytes())
        }
        Complaint::Below { shortfalls } => shortfall_lines(alloc, shortfalls),
    }
}

/// The line of a refusal at a place of the file at a path.
fn refused_line(alloc: Global, path: &str, place: Pos, why: &str) -> Result<Vec<u8>, Memory>
    ensures { IfOk result (λ bytes. bytes.items ≡ refused_line path.now place why.now) }
{
    let Pos { line, column } = place;
    Ok(format!(in alloc; "Refused: {path}:{line}:{column}: {why}\n")?.into_bytes())
}

/// The line of a file at a path with a form that the language leaves out.
fn unsupported_line(
    alloc: Global,
    path: &str,
    place: Pos,
    form: Unsupported,
) -> Result<Vec<u8>, Memory>
    ensures { IfOk result (λ bytes. bytes.items ≡ line (LeftOut path.now place form)) }
{
    let why = named(alloc, "unsupported ", form_text(form))?;
    refused_line(alloc, path, place, why.as_str())
}

/// The words for a form that the language leaves out.
fn form_text(form: Unsupported) -> &'static str
    ensures { result.now ≡ form_text form }
{
    match form {
        Unsupported::ClassForm => "class",
        Unsupported::Super => "super",
        Unsupported::Import => "import",
        Unsupported::Export => "export",
        Unsupported::NewTarget => "new.target",
        Unsupported::Spread => "spread",
        Unsupported::OptionalChain => "optional chain",
        Unsupported::LogicalAssignment => "logical assignment",
        Unsupported::Async => "async",
        Unsupported::Generator => "generator",
        Unsupported::Accessor => "accessor",
        Unsupported::BigIntLiteral => "bigint",
        Unsupported::ThisOutside => "this",
        Unsupported::Elision => "elision",
        Unsupported::Proto => "__proto__",
        Unsupported::TaggedTemplate => "tagged template",
        Unsupported::ParenthesizedTarget => "parenthesised target",
        Unsupported::BindingPattern => "pattern",
    }
}

/// The line of a file at a path that breaks an early rule.
fn broken_line(alloc: Global, path: &str, fault: ScopeFault) -> Result<Vec<u8>, Memory>
    ensures { IfOk result (λ bytes. bytes.items ≡ line (Broken path.now fault)) }
{
    refused_line(alloc, path, fault.at, rule_text(fault.kind))
}

/// The words for an early rule that is broken; want of memory is none.
fn rule_text(kind: ScopeFaultKind) -> &'static str
    ensures { result.now ≡ rule_text kind }
{
    match kind {
        ScopeFaultKind::Duplicate => "duplicate",
        ScopeFaultKind::Label => "label",
        ScopeFaultKind::BreakOutside => "break outside",
        ScopeFaultKind::ContinueOutside => "continue outside",
        ScopeFaultKind::BadTarget => "bad target",
        ScopeFaultKind::Reserved => "reserved",
        ScopeFaultKind::Memory => "",
    }
}

/// The line of a file at a path that isn't UTF-8 from this byte on.
fn not_utf8_line(alloc: Global, path: &str, at: usize) -> Result<Vec<u8>, Memory>
    ensures { IfOk result (λ bytes. bytes.items ≡ line (NotUtf8 path.now at)) }
{
    Ok(format!(in alloc; "Refused: {path}: not UTF-8 at byte {at}\n")?.into_bytes())
}

/// The line of a file at a path that has too many bytes.
fn too_long_line(alloc: Global, path: &str) -> Result<Vec<u8>, Memory>
    ensures { IfOk result (λ bytes. bytes.items ≡ line (TooLong path.now)) }
{
    Ok(format!(in alloc; "Limit: {path} bytes\n")?.into_bytes())
}

/// The line of a program that would go on after so many steps.
fn going_line(alloc: Global, turns: u64) -> Result<Vec<u8>, Memory>
    ensures { IfOk result (λ bytes. bytes.items ≡ line (Going turns)) }
{
    Ok(format!(in alloc; "Still going after {turns} steps\n")?.into_bytes())
}

/// The line of an exception of which these bytes are shown.
fn uncaught_line(alloc: Global, shown: &[u8]) -> Result<Vec<u8>, Memory>
    ensures { IfOk result (λ bytes. bytes.items ≡ line (Uncaught shown.now)) }
{
    let mut bytes = Vec::from_slice(alloc, "Uncaught ".as_bytes())?;
    bytes.extend_from_slice(shown)?;
    bytes.push(b'\n')?;
    Ok(bytes)
}

/// What is wrong with a source map.
fn what_of_map(alloc: Global, fault: &MapFault) -> Result<What, Memory>
    ensures { IfOk result (λ what. what ≡ map_what fault.now) }
{
    match fault {
        MapFault::BadMember { name } => Ok(What::Member {
            name: Text::from_str(alloc, name.as_str())?,
        }),
        MapFault::BadMappings { at } => Ok(What::Mappings { at: *at }),
        MapFault::BadJson | MapFault::TooLong | MapFault::Memory => Ok(What::NotJson),
    }
}

/// The line of a file at a path that is no coverage file.
#[tactic(auto, using(crate::proofs::LineLemmas::bad_input))]
fn bad_input_line(alloc: Global, path: &str, what: &What) -> Result<Vec<u8>, Memory>
    ensures { IfOk result (λ bytes. bytes.items ≡ line (BadInput path.now what.now)) }
{
    let wrong = what_text(alloc, what)?;
    let wrong = wrong.as_str();
    Ok(format!(in alloc; "Bad input: {path}: {wrong}\n")?.into_bytes())
}

/// What is wrong with a coverage file, or with a source map in it.
fn what_text(alloc: Global, what: &What) -> Result<String, Memory>
    ensures { IfOk result (λ text. string_bytes text ≡ what_text what.now) }
{
    match what {
        What::NotJson => String::from_str(alloc, "not JSON"),
        What::Member { name } => named(alloc, "member ", name.as_str()),
        What::Count { name } => named(alloc, "count ", name.as_str()),
        What::Mappings { at } => format!(in alloc; "mappings at {at}"),
    }
}

/// A word and a name.
fn named(alloc: Global, word: &str, name: &str) -> Result<String, Memory>
    ensures { IfOk result (λ text. string_bytes text ≡ word.now ++ name.now) }
{
    format!(in alloc; "{word}{name}")
}

/// A line for each of these percentages.
fn shortfall_lines(alloc: Global, shortfalls: &[Shortfall]) -> Result<Vec<u8>, Memory>
    ensures { IfOk result (λ bytes. bytes.items ≡ flat_map shortfall_line shortfalls.now) }
{
    let mut lines = Vec::new(alloc);
    for shortfall in shortfalls {
        let line = shortfall_line(alloc, shortfall)?;
        lines.extend_from_slice(line.as_slice())?;
    }
    Ok(lines)
}

/// The line of a percentage that is below its threshold.
fn shortfall_line(alloc: Global, shortfall: &Shortfall) -> Result<Vec<u8>, Memory>
    ensures { IfOk result (λ bytes. bytes.items ≡ shortfall_line shortfall.now) }
{
    let metric = metric_text(shortfall.what);
    let percent = percent_of(alloc, shortfall.hundredths)?;
    let percent = percent.as_str();
    let threshold = shortfall.threshold;
    Ok(format!(in alloc;
        "ERROR: Coverage for {metric} ({percent}%) does not meet global threshold ({threshold}%)\n"
    )?.into_bytes())
}

/// The word for what is counted.
fn metric_text(metric: Metric) -> &'static str
    ensures { result.now ≡ metric_text metric }
{
    match metric {
        Metric::Lines => "lines",
        Metric::Statements => "statements",
        Metric::Branches => "branches",
        Metric::Functions => "functions",
    }
}

/// The word for what a program leaves the profile by.
fn kind_text(kind: Kind) -> &'static str
    ensures { result.now ≡ kind_text kind }
{
    match kind {
        Kind::Number => "Number",
        Kind::Sparse => "Sparse",
        Kind::Convert => "Convert",
        Kind::Text => "Text",
    }
}

/// The line of `Complaint::OutOfMemory`. It takes no memory.
pub fn out_of_memory() -> &'static str
    ensures { result.now ≡ line OutOfMemory }
{
    "Out of memory\n"
}
