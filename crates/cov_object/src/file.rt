use crate::branch::BranchCoverage;
use crate::location::Location;
use crate::number::Count;
use crate::numbered::Numbered;
use crate::source_map_text::SourceMapText;
use items::Text;

/// A statement, and how often it ran.
#[derive(Debug, Drop)]
pub struct StatementCoverage {
    /// Where it stands.
    pub location: Location,
    /// How often it ran.
    pub count: Count,
}

/// A function, and how often its body was entered.
#[derive(Debug, Drop)]
pub struct FunctionCoverage {
    /// Its name, or one made up for it.
    pub name: Text,
    /// Where its name stands.
    pub declaration: Location,
    /// Where its body stands.
    pub location: Location,
    /// How often its body was entered.
    pub count: Count,
}

/// One path of a branch, and how often it was taken.
#[derive(Debug, Drop)]
pub struct PathCoverage {
    /// Where it stands: nowhere where it is an `else` that is missing.
    pub location: Location,
    /// How often it was taken.
    pub count: Count,
}

/// The coverage of one file. Statements, functions and branches are each numbered by themselves.
#[derive(Debug, Drop)]
pub struct FileCoverage {
    /// The file's path.
    pub path: Text,
    /// The hash of the file's bytes, in hexadecimal, where one is known.
    pub hash: Option<Text>,
    /// The map from the file to the sources that it was made from, where there is one.
    pub input_source_map: Option<SourceMapText>,
    /// Its statements.
    pub statements: Numbered<StatementCoverage>,
    /// Its functions.
    pub functions: Numbered<FunctionCoverage>,
    /// Its branches.
    pub branches: Numbered<BranchCoverage>,
}
