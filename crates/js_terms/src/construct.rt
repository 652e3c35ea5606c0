use crate::{Loc, Name};
use items::Items;

/// What a branch is.
#[derive(Clone, Copy, Debug, PartialEq, Eq)]
pub enum BranchKind {
    /// An `if` statement.
    If,
    /// A conditional expression.
    Conditional,
    /// A `switch` statement.
    Switch,
    /// A chain of `&&`, `||` and `??`.
    Logical,
    /// A parameter with a default.
    Default,
}

/// A kind of construct: those of each kind have numbers of their own.
#[derive(Clone, Copy, Debug, PartialEq, Eq)]
pub enum ConstructKind {
    /// A statement, an initializer, or an expression that is the body of an arrow function.
    Statement,
    /// A function.
    Function,
    /// A choice of one of several paths.
    Branch,
}

/// What coverage counts in a file.
#[derive(Drop)]
pub enum Construct {
    /// A statement, an initializer, or an expression that is the body of an arrow function.
    Statement {
        /// Where it stands, without parentheses round it.
        loc: Loc,
    },
    /// A function.
    Function {
        /// Its name: its own, or one made up for it.
        name: Name,
        /// Where its own name stands, or else the first column of it.
        decl: Loc,
        /// Where its body stands.
        loc: Loc,
    },
    /// A choice of one of several paths.
    Branch {
        /// What kind of branch it is.
        kind: BranchKind,
        /// Where it stands.
        loc: Loc,
        /// Where its paths stand, in their order: none for an arm that is missing.
        paths: Items<Option<Loc>>,
    },
}
