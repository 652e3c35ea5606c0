ghost use Rattle.std.specs.Prelude.{◌≡◌, false, map, string_bytes, option_and_then, Some, IfOk};
ghost use Rattle.clap.specs.Words.{app_of, found_of, rows_of, subcommand_rows_of};
ghost use Rattle.cov_words.specs.Words as spec;

use crate::arguments::{
    count_in, exclude_in, file_in, files_in, out_in, reporter_in, seed_in, thresholds_in, turns_in,
};
use crate::forms::{check, demo, exec, instrument, maps, merge, report, run, v8};
use crate::sources::sources_in;
use crate::{Command, CoverageTask, SourceTask};
use clap::ArgMatches;
use clap::error::ErrorKind;
use items::{Memory, Text};
use std::alloc::{AllocError, Global};

/// The command that the words after the program's name give, `None` where they have no reading.
/// Want of memory is the only error.
pub fn command_of(alloc: Global, words: &[String]) -> Result<Option<Command>, Memory>
    ensures { IfOk result (λ found. found ≡ spec.command_of (map string_bytes words.now)) }
{
    if is_help(words) {
        Ok(Some(Command::Help))
    } else {
        asked_by(alloc, words)
    }
}

/// Whether the words are `--help` alone.
fn is_help(words: &[String]) -> bool
    ensures { result ≡ spec.is_help (map string_bytes words.now) }
{
    match words {
        [word] => word.as_str() == "--help",
        _ => false,
    }
}

/// The command that the words give by the forms, `None` where they have no reading.
fn asked_by(alloc: Global, words: &[String]) -> Result<Option<Command>, Memory>
    ensures { IfOk result (λ found. found ≡ option_and_then spec.request_in (spec.found_in (map string_bytes words.now))) }
{
    match matches_of(alloc, words)? {
        Some(matches) => request_in(alloc, &matches),
        None => Ok(None),
    }
}

/// What clap finds in the words, `None` where something is wrong with them.
fn matches_of<'a>(alloc: Global, words: &'a [String]) -> Result<Option<ArgMatches<'a>>, Memory>
    ensures { IfOk result (λ found. option_and_then subcommand_rows_of found ≡ spec.found_in (map string_bytes words.entry.now)) }
{
    match cov(alloc)?.try_get_matches_from(words) {
        Ok(matches) => Ok(Some(matches)),
        Err(error) => match error.kind() {
            ErrorKind::OutOfMemory => Err(AllocError),
            _ => Ok(None),
        },
    }
}

/// The forms of the words.
fn cov<'a>(alloc: Global) -> Result<clap::Command<'a>, Memory>
    ensures { IfOk result (λ form. app_of form ≡ spec.cov_form) }
{
    with_coverage_forms(alloc, source_forms(alloc)?)?
        .subcommand(demo(alloc)?)?
        .subcommand(v8(alloc)?)
}

/// The form of all words, with the commands on sources.
fn source_forms<'a>(alloc: Global) -> Result<clap::Command<'a>, Memory>
    ensures { IfOk result (λ form. app_of form ≡ spec.source_forms) }
{
    let bare = clap::Command::new(alloc, "cov")
        .no_binary_name(true)
        .disable_help_flag(true)
        .disable_help_subcommand(true);
    with_source_forms(alloc, bare)
}

/// This form, and those of the commands on sources.
fn with_source_forms<'a>(
    alloc: Global,
    form: clap::Command<'a>,
) -> Result<clap::Command<'a>, Memory>
    ensures { IfOk result (λ all. app_of all ≡ spec.with_source_forms (app_of form.entry)) }
{
    with_reading_forms(alloc, form)?
        .subcommand(instrument(alloc)?)?
        .subcommand(run(alloc)?)
}

/// This form, and those of the commands on sources that put nothing.
fn with_reading_forms<'a>(
    alloc: Global,
    form: clap::Command<'a>,
) -> Result<clap::Command<'a>, Memory>
    ensures { IfOk result (λ all. app_of all ≡ spec.with_reading_forms (app_of form.entry)) }
{
    form.subcommand(maps(alloc)?)?.subcommand(exec(alloc)?)
}

/// These forms, and those of the commands on coverage files.
fn with_coverage_forms<'a>(
    alloc: Global,
    form: clap::Command<'a>,
) -> Result<clap::Command<'a>, Memory>
    ensures { IfOk result (λ all. app_of all ≡ spec.with_coverage_forms (app_of form.entry)) }
{
    form.subcommand(merge(alloc)?)?
        .subcommand(report(alloc)?)?
        .subcommand(check(alloc)?)
}

/// What is asked by the command that was found.
fn request_in(alloc: Global, matches: &ArgMatches<'_>) -> Result<Option<Command>, Memory>
    ensures { IfOk result (λ found. found ≡ option_and_then spec.request_in (subcommand_rows_of matches.now)) }
{
    let Some((name, own)) = matches.subcommand() else {
        return Ok(None);
    };
    match name {
        "maps" => on_source(alloc, Some(SourceTask::Maps), own),
        "exec" => on_source(alloc, exec_in(own), own),
        "instrument" => instrument_in(alloc, own),
        "run" => on_source(alloc, run_in(alloc, own)?, own),
        "demo" => demo_in(alloc, own),
        "v8" => on_v8(alloc, own),
        _ => on_coverage(alloc, coverage_task(alloc, name, own)?, own),
    }
}

/// A command on the source file that was found.
fn on_source(
    alloc: Global,
    task: Option<SourceTask>,
    own: &ArgMatches<'_>,
) -> Result<Option<Command>, Memory>
    ensures { IfOk result (λ found. found ≡ spec.on_source task (rows_of (found_of own.now))) }
{
    let Some(task) = task else {
        return Ok(None);
    };
    match file_in(alloc, own)? {
        Some(file) => Ok(Some(Command::OnSource { task, file })),
        None => Ok(None),
    }
}

/// `instrument` of the sources that were found.
fn instrument_in(alloc: Global, own: &ArgMatches<'_>) -> Result<Option<Command>, Memory>
    ensures { IfOk result (λ found. found ≡ spec.instrument_in (rows_of (found_of own.now))) }
{
    let Some(out) = out_in(alloc, own)? else {
        return Ok(None);
    };
    match sources_in(alloc, own)? {
        Some(files) => Ok(Some(Command::Instrument { out, files })),
        None => Ok(None),
    }
}

/// A command on the coverage files that were found.
fn on_coverage(
    alloc: Global,
    task: Option<CoverageTask>,
    own: &ArgMatches<'_>,
) -> Result<Option<Command>, Memory>
    ensures { IfOk result (λ found. found ≡ spec.on_coverage task (rows_of (found_of own.now))) }
{
    let Some(task) = task else {
        return Ok(None);
    };
    match files_in(alloc, own)? {
        Some(files) => Ok(Some(Command::OnCoverage { task, files })),
        None => Ok(None),
    }
}

/// A command on the V8 files that were found.
fn on_v8(alloc: Global, own: &ArgMatches<'_>) -> Result<Option<Command>, Memory>
    ensures { IfOk result (λ found. found ≡ spec.on_v8 (rows_of (found_of own.now))) }
{
    let Some(out) = out_in(alloc, own)? else {
        return Ok(None);
    };
    match files_in(alloc, own)? {
        Some(files) => Ok(Some(Command::OnV8 { out, files })),
        None => Ok(None),
    }
}

/// What `exec` is to do.
fn exec_in(own: &ArgMatches<'_>) -> Option<SourceTask>
    ensures { result ≡ spec.exec_in (rows_of (found_of own.now)) }
{
    match turns_in(own) {
        Some(turns) => Some(SourceTask::Exec { turns }),
        None => None,
    }
}

/// What `run` is to do.
fn run_in(alloc: Global, own: &ArgMatches<'_>) -> Result<Option<SourceTask>, Memory>
    ensures { IfOk result (λ task. task ≡ spec.run_in (rows_of (found_of own.now))) }
{
    let Some(turns) = turns_in(own) else {
        return Ok(None);
    };
    let Some(out) = out_in(alloc, own)? else {
        return Ok(None);
    };
    let exclude = exclude_in(alloc, own)?;
    Ok(Some(SourceTask::Run {
        turns,
        out,
        exclude,
    }))
}

/// `demo` of the numbers that were found.
fn demo_in(alloc: Global, own: &ArgMatches<'_>) -> Result<Option<Command>, Memory>
    ensures { IfOk result (λ found. found ≡ spec.demo_in (rows_of (found_of own.now))) }
{
    let (Some(seed), Some(count)) = (seed_in(own), count_in(own)) else {
        return Ok(None);
    };
    Ok(Some(Command::OnSource {
        task: SourceTask::Demo { seed, count },
        file: Text::from_str(alloc, "demo.js")?,
    }))
}

/// What is to be done with coverage files, by the command's name.
fn coverage_task(
    alloc: Global,
    name: &str,
    own: &ArgMatches<'_>,
) -> Result<Option<CoverageTask>, Memory>
    ensures { IfOk result (λ task. task ≡ spec.coverage_task name.now (rows_of (found_of own.now))) }
{
    match name {
        "merge" => merge_in(alloc, own),
        "report" => Ok(report_in(own)),
        "check" => Ok(Some(check_in(own))),
        _ => Ok(None),
    }
}

/// What `merge` is to do.
fn merge_in(alloc: Global, own: &ArgMatches<'_>) -> Result<Option<CoverageTask>, Memory>
    ensures { IfOk result (λ task. task ≡ spec.merge_in (rows_of (found_of own.now))) }
{
    match out_in(alloc, own)? {
        Some(out) => Ok(Some(CoverageTask::Merge { out })),
        None => Ok(None),
    }
}

/// What `report` is to do.
fn report_in(own: &ArgMatches<'_>) -> Option<CoverageTask>
    ensures { result ≡ spec.report_in (rows_of (found_of own.now)) }
{
    match reporter_in(own) {
        Some(reporter) => Some(CoverageTask::Report { reporter }),
        None => None,
    }
}

/// What `check` is to do.
fn check_in(own: &ArgMatches<'_>) -> CoverageTask
    ensures { result ≡ spec.check_in (rows_of (found_of own.now)) }
{
    CoverageTask::Check {
        thresholds: thresholds_in(own),
    }
}
