//! The syntax tree of a JavaScript file, and the places in its text.
#![tactic(auto)]

mod hint;
mod tree;

pub use hint::Hint;
pub use items::{Data, DataProperty};
pub use js_terms::{
    AssignmentOperator, BinaryOperator, BranchKind, Comment, Construct, ConstructKind, Identifier,
    Loc, LogicalOperator, Name, Pos, Spelled, UnaryOperator, UpdateOperator, VariableKind,
};
pub use tree::{
    Case, Catch, ConciseBody, Declarator, Expr, ExprNode, File, ForInit, ForTarget, Function,
    FunctionBody, Param, Pattern, PatternNode, Property, PropertyKey, PropertyNode, Stmt, StmtNode,
    TemplatePart,
};
