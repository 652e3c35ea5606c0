ghost use Rattle.std.specs.Prelude.{◌≡◌, false, codes, IfOk};
ghost use Rattle.clap.specs.Words.{app_of, rule_of, with_rule};
ghost use Rattle.clap.specs.declared.builder.command.Command.TheViews.{out-Command as fields_of};
ghost use Rattle.cov_words.specs.Words as spec;

use clap::{Arg, Command};
use items::Memory;
use std::alloc::Global;

/// The form of `maps`.
pub(crate) fn maps<'a>(alloc: Global) -> Result<Command<'a>, Memory>
    ensures { IfOk result (λ form. (app_of form ≡ spec.maps_form) × ((fields_of form).has_globals ≡ false)) }
{
    Command::new(alloc, "maps").arg(file(alloc))
}

/// The form of `exec`.
pub(crate) fn exec<'a>(alloc: Global) -> Result<Command<'a>, Memory>
    ensures { IfOk result (λ form. (app_of form ≡ spec.exec_form) × ((fields_of form).has_globals ≡ false)) }
{
    Command::new(alloc, "exec")
        .arg(turns(alloc))?
        .arg(file(alloc))
}

/// The form of `run`.
pub(crate) fn run<'a>(alloc: Global) -> Result<Command<'a>, Memory>
    ensures { IfOk result (λ form. (app_of form ≡ spec.run_form) × ((fields_of form).has_globals ≡ false)) }
{
    Command::new(alloc, "run")
        .arg(turns(alloc))?
        .arg(coverage(alloc))?
        .arg(exclude(alloc))?
        .arg(file(alloc))
}

/// The form of `demo`.
pub(crate) fn demo<'a>(alloc: Global) -> Result<Command<'a>, Memory>
    ensures { IfOk result (λ form. (app_of form ≡ spec.demo_form) × ((fields_of form).has_globals ≡ false)) }
{
    Command::new(alloc, "demo")
        .arg(seed(alloc))?
        .arg(count(alloc))
}

/// The form of `instrument`.
pub(crate) fn instrument<'a>(alloc: Global) -> Result<Command<'a>, Memory>
    ensures { IfOk result (λ form. (app_of form ≡ spec.instrument_form) × ((fields_of form).has_globals ≡ false)) }
{
    Command::new(alloc, "instrument")
        .arg(out(alloc))?
        .arg(files(alloc))
}

/// The form of `merge`.
pub(crate) fn merge<'a>(alloc: Global) -> Result<Command<'a>, Memory>
    ensures { IfOk result (λ form. (app_of form ≡ spec.merge_form) × ((fields_of form).has_globals ≡ false)) }
{
    Command::new(alloc, "merge")
        .arg(out(alloc))?
        .arg(files(alloc))
}

/// The form of `report`.
pub(crate) fn report<'a>(alloc: Global) -> Result<Command<'a>, Memory>
    ensures { IfOk result (λ form. (app_of form ≡ spec.report_form) × ((fields_of form).has_globals ≡ false)) }
{
    Command::new(alloc, "report")
        .arg(reporter(alloc))?
        .arg(files(alloc))
}

/// The form of `check`.
pub(crate) fn check<'a>(alloc: Global) -> Result<Command<'a>, Memory>
    ensures { IfOk result (λ form. (app_of form ≡ spec.check_form) × ((fields_of form).has_globals ≡ false)) }
{
    with_thresholds(alloc, Command::new(alloc, "check"))?.arg(files(alloc))
}

/// The form of `v8`.
pub(crate) fn v8<'a>(alloc: Global) -> Result<Command<'a>, Memory>
    ensures { IfOk result (λ form. (app_of form ≡ spec.v8_form) × ((fields_of form).has_globals ≡ false)) }
{
    Command::new(alloc, "v8").arg(out(alloc))?.arg(files(alloc))
}

/// A form with an option for the threshold of each metric.
fn with_thresholds<'a>(alloc: Global, form: Command<'a>) -> Result<Command<'a>, Memory>
    requires { (fields_of form).has_globals ≡ false }
    ensures { IfOk result (λ all. (app_of all ≡ spec.with_thresholds (app_of form.entry)) × ((fields_of all).has_globals ≡ false)) }
{
    let form = with_threshold(alloc, form, "lines")?;
    let form = with_threshold(alloc, form, "statements")?;
    let form = with_threshold(alloc, form, "branches")?;
    with_threshold(alloc, form, "functions")
}

/// A form with an option for the threshold of a metric.
fn with_threshold<'a>(
    alloc: Global,
    form: Command<'a>,
    metric: &'a str,
) -> Result<Command<'a>, Memory>
    requires { (fields_of form).has_globals ≡ false }
    ensures { IfOk result (λ one. (app_of one ≡ with_rule (app_of form.entry) (spec.threshold_rule metric.entry.now)) × ((fields_of one).has_globals ≡ false)) }
{
    form.arg(threshold(alloc, metric))
}

/// The argument FILE.
fn file<'a>(alloc: Global) -> Arg<'a>
    ensures { (rule_of result ≡ spec.file_rule) × (result.global ≡ false) }
{
    Arg::new(alloc, "file").required(true)
}

/// The arguments FILE.., one or more.
fn files<'a>(alloc: Global) -> Arg<'a>
    ensures { (rule_of result ≡ spec.files_rule) × (result.global ≡ false) }
{
    Arg::new(alloc, "file").required(true).num_args(1..)
}

/// The option `--turns N`: a number up to 2^53 - 1, and a million by default.
fn turns<'a>(alloc: Global) -> Arg<'a>
    ensures { (rule_of result ≡ spec.turns_rule) × (result.global ≡ false) }
{
    Arg::new(alloc, "turns")
        .long("turns")
        .value_parser(clap::value_parser!(u64).range(..=9_007_199_254_740_991))
        .default_value("1000000")
}

/// The option `--out P`, which has to be there.
fn out<'a>(alloc: Global) -> Arg<'a>
    ensures { (rule_of result ≡ spec.out_rule) × (result.global ≡ false) }
{
    Arg::new(alloc, "out").long("out").required(true)
}

/// The option `--out P`, by default `coverage.json`.
fn coverage<'a>(alloc: Global) -> Arg<'a>
    ensures { (rule_of result ≡ spec.coverage_rule) × (result.global ≡ false) }
{
    Arg::new(alloc, "out")
        .long("out")
        .default_value("coverage.json")
}

/// The option `--exclude GLOBS`.
fn exclude<'a>(alloc: Global) -> Arg<'a>
    ensures { (rule_of result ≡ spec.exclude_rule) × (result.global ≡ false) }
{
    Arg::new(alloc, "exclude").long("exclude")
}

/// The argument SEED: a number of 64 bits.
fn seed<'a>(alloc: Global) -> Arg<'a>
    ensures { (rule_of result ≡ spec.seed_rule) × (result.global ≡ false) }
{
    Arg::new(alloc, "seed")
        .required(true)
        .value_parser(clap::value_parser!(u64))
}

/// The argument COUNT: a number up to 10,000.
fn count<'a>(alloc: Global) -> Arg<'a>
    ensures { (rule_of result ≡ spec.count_rule) × (result.global ≡ false) }
{
    Arg::new(alloc, "count")
        .required(true)
        .value_parser(clap::value_parser!(u64).range(..=10_000))
}

/// The option `--reporter R`, by default `text`.
fn reporter<'a>(alloc: Global) -> Arg<'a>
    ensures { (rule_of result ≡ spec.reporter_rule) × (result.global ≡ false) }
{
    Arg::new(alloc, "reporter")
        .long("reporter")
        .default_value("text")
}

/// An option that gives the threshold of a metric: a number from 0 to 100.
fn threshold<'a>(alloc: Global, metric: &'a str) -> Arg<'a>
    ensures { (rule_of result ≡ spec.threshold_rule metric.entry.now) × (result.global ≡ false) }
{
    Arg::new(alloc, metric)
        .long(metric)
        .value_parser(clap::value_parser!(u64).range(..=100))
}
