//! Terms that a tree and what comes before and after it share: places in a text, names, strings and comments, operators, and what
//! coverage counts.
#![tactic(auto)]

mod construct;
mod operators;
mod place;
mod words;

pub use construct::{BranchKind, Construct, ConstructKind};
pub use operators::{
    AssignmentOperator, BinaryOperator, LogicalOperator, UnaryOperator, UpdateOperator,
    VariableKind,
};
pub use place::{Loc, Pos};
pub use words::{Comment, Identifier, Name, Spelled};
