use cov_summary::Thresholds;
use items::{Items, Text};

/// What the words of the command line ask for.
#[derive(Debug, Drop)]
pub enum Command {
    /// The forms of the words are printed.
    Help,
    /// What is to be done with the source file at this source path.
    OnSource {
        task: SourceTask,
        file: Text,
    },
    /// What is to be done with the coverage files at these paths, in the order of the words.
    OnCoverage {
        task: CoverageTask,
        files: Items<Text>,
    },
    /// The instrumented texts of the source files at these source paths, each of which stands once,
    /// are put below a folder, whose path isn't empty.
    Instrument {
        out: Text,
        files: Items<Text>,
    },
    /// The sums of what V8's coverage files at these paths tell of their sources are put at a path,
    /// which isn't empty.
    OnV8 {
        out: Text,
        files: Items<Text>,
    },
}

/// What is done with a source file.
#[derive(Debug, Drop)]
pub enum SourceTask {
    /// Its map is written.
    Maps,
    /// It is run, for so many turns at most.
    Exec {
        turns: u64,
    },
    /// The same, and its coverage is put at a path, which isn't empty. What one of these patterns
    /// stands for isn't counted.
    Run {
        turns: u64,
        out: Text,
        exclude: Items<Text>,
    },
    /// No file is read: one that is made of a number, with so many functions, stands in its place.
    /// It is run, and its coverage is summed up.
    Demo {
        seed: u64,
        count: u64,
    },
}

/// What is done with coverage files, once they are merged.
#[derive(Debug, Drop)]
pub enum CoverageTask {
    /// The JSON of all is put at this path, which isn't empty.
    Merge { out: Text },
    /// A report is written.
    Report { reporter: Reporter },
    /// The totals are held against thresholds.
    Check { thresholds: Thresholds },
}

/// The reports that there are.
#[derive(Clone, Copy, Debug, PartialEq, Eq)]
pub enum Reporter {
    /// A table for people.
    Text,
    /// All of the coverage data.
    Json,
    /// The totals of each file, as JSON.
    JsonSummary,
    /// For the tools that read LCOV.
    Lcov,
}
