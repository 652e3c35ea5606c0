ghost use Rattle.std.specs.Prelude.{◌≡◌, map, option_map, IfOk};
ghost use Rattle.clap.specs.Words.{all_of, first_of, found_of, rows_of};
ghost use Rattle.cov_words.specs.Words as spec;

use crate::Reporter;
use clap::ArgMatches;
use cov_summary::Thresholds;
use items::{Items, Memory, Text};
use path_globs::source_path;
use std::alloc::Global;

/// The number found for an option of this name.
fn number_in(own: &ArgMatches<'_>, name: &str) -> Option<u64>
    ensures { result ≡ spec.number_found name.now (rows_of (found_of own.now)) }
{
    own.get_one::<u64>(name)
}

/// The turns that were found.
pub(crate) fn turns_in(own: &ArgMatches<'_>) -> Option<u64>
    ensures { result ≡ spec.turns_in (rows_of (found_of own.now)) }
{
    match number_in(own, "turns") {
        Some(turns) if turns <= 9_007_199_254_740_991 => Some(turns),
        _ => None,
    }
}

/// The number that was found for SEED.
pub(crate) fn seed_in(own: &ArgMatches<'_>) -> Option<u64>
    ensures { result ≡ spec.seed_in (rows_of (found_of own.now)) }
{
    number_in(own, "seed")
}

/// The number that was found for COUNT.
pub(crate) fn count_in(own: &ArgMatches<'_>) -> Option<u64>
    ensures { result ≡ spec.count_in (rows_of (found_of own.now)) }
{
    number_in(own, "count")
}

/// The word found for an argument of this name.
fn word_in<'a>(own: &ArgMatches<'a>, name: &str) -> Option<&'a str>
    ensures { option_map (λ word. word.now) result ≡ first_of name.now (rows_of (found_of own.now)) }
{
    own.get_str(name)
}

/// The source path that the word found for FILE names.
pub(crate) fn file_in(alloc: Global, own: &ArgMatches<'_>) -> Result<Option<Text>, Memory>
    ensures { IfOk result (λ found. found ≡ spec.file_in (rows_of (found_of own.now))) }
{
    match word_in(own, "file") {
        Some(word) => source_path(alloc, word),
        None => Ok(None),
    }
}

/// The words found for an argument of this name.
pub(crate) fn words_in<'m, 'a>(own: &'m ArgMatches<'a>, name: &str) -> Option<&'m [&'a str]>
    ensures { option_map (λ words. map (λ word. word.now) words.now) result ≡ all_of name.now (rows_of (found_of own.now)) }
{
    own.get_strs(name)
}

/// The words found for FILE...
pub(crate) fn files_in(alloc: Global, own: &ArgMatches<'_>) -> Result<Option<Items<Text>>, Memory>
    ensures { IfOk result (λ found. found ≡ spec.files_in (rows_of (found_of own.now))) }
{
    match words_in(own, "file") {
        Some(words) => Ok(Some(texts_of(alloc, words)?)),
        None => Ok(None),
    }
}

/// A copy of each of these words.
fn texts_of(alloc: Global, words: &[&str]) -> Result<Items<Text>, Memory>
    ensures { IfOk result (λ texts. texts ≡ map (λ word. word.now) words.now) }
{
    let mut texts = Items::new(alloc);
    for word in words {
        texts.push(Text::from_str(alloc, word)?)?;
    }
    Ok(texts)
}

/// The path found for `--out`, unless it is empty.
pub(crate) fn out_in(alloc: Global, own: &ArgMatches<'_>) -> Result<Option<Text>, Memory>
    ensures { IfOk result (λ found. found ≡ spec.out_in (rows_of (found_of own.now))) }
{
    match word_in(own, "out") {
        Some(word) => path_of(alloc, word),
        None => Ok(None),
    }
}

/// A copy of a word, unless it is empty.
fn path_of(alloc: Global, word: &str) -> Result<Option<Text>, Memory>
    ensures { IfOk result (λ path. path ≡ spec.if_path word.now) }
{
    match word {
        "" => Ok(None),
        _ => Ok(Some(Text::from_str(alloc, word)?)),
    }
}

/// The patterns found for `--exclude`.
pub(crate) fn exclude_in(alloc: Global, own: &ArgMatches<'_>) -> Result<Items<Text>, Memory>
    ensures { IfOk result (λ patterns. patterns ≡ spec.exclude_in (rows_of (found_of own.now))) }
{
    match word_in(own, "exclude") {
        Some(word) => patterns_of(alloc, word),
        None => Ok(Items::new(alloc)),
    }
}

/// The patterns that commas join to this word.
fn patterns_of(alloc: Global, word: &str) -> Result<Items<Text>, Memory>
    ensures { IfOk result (λ patterns. patterns ≡ spec.patterns_of word.now) }
{
    let mut patterns = Items::new(alloc);
    for pattern in word.split(',') {
        patterns.push(Text::from_str(alloc, pattern)?)?;
    }
    Ok(patterns)
}

/// The report that was found to be asked for.
pub(crate) fn reporter_in(own: &ArgMatches<'_>) -> Option<Reporter>
    ensures { result ≡ spec.reporter_in (rows_of (found_of own.now)) }
{
    match word_in(own, "reporter") {
        Some(name) => reporter_of(name),
        None => None,
    }
}

/// The report of this name.
fn reporter_of(name: &str) -> Option<Reporter>
    ensures { result ≡ spec.reporter_of name.now }
{
    match name {
        "text" => Some(Reporter::Text),
        "json" => Some(Reporter::Json),
        "json-summary" => Some(Reporter::JsonSummary),
        "lcov" => Some(Reporter::Lcov),
        _ => None,
    }
}

/// The thresholds that were found.
pub(crate) fn thresholds_in(own: &ArgMatches<'_>) -> Thresholds
    ensures { result ≡ spec.thresholds_in (rows_of (found_of own.now)) }
{
    Thresholds {
        lines: threshold_in(own, "lines"),
        statements: threshold_in(own, "statements"),
        branches: threshold_in(own, "branches"),
        functions: threshold_in(own, "functions"),
    }
}

/// The threshold of a metric, if one was found.
fn threshold_in(own: &ArgMatches<'_>, metric: &str) -> Option<u8>
    ensures { result ≡ spec.threshold_in metric.now (rows_of (found_of own.now)) }
{
    match number_in(own, metric) {
        Some(percent) if percent <= 100 => Some(percent as u8),
        _ => None,
    }
}
