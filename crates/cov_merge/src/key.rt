use cov_object::Location;
use items::{Items, Text};

/// What names a count in a file.
#[derive(Debug, Drop)]
pub enum Counter {
    /// That of a statement.
    Statement {
        /// Where the statement stands.
        location: Location,
    },
    /// That of a function.
    Function {
        /// Where its name stands.
        declaration: Location,
        /// Where its body stands.
        location: Location,
    },
    /// That of a path of a branch.
    Branch {
        /// What kind of branch it is.
        kind: Text,
        /// Where the branch stands.
        location: Location,
        /// Where its paths stand.
        locations: Items<Location>,
        /// The number of the path, from 0.
        path: usize,
    },
}

/// What names a count in coverage maps.
#[derive(Debug, Drop)]
pub struct Key {
    /// The path of the file.
    pub path: Text,
    /// The count in the file.
    pub counter: Counter,
}
