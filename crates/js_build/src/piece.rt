use crate::{Body, Key, List, Operand, Statements};
use js_tree::{Loc, Name, Spelled, VariableKind};

/// What has been read of a production.
#[derive(Drop)]
pub enum Piece {
    /// An expression.
    Expression(Operand),
    /// A statement.
    Statement(Body),
    /// Statements.
    Statements(Statements),
    /// Arguments or items, and whether nothing stands after their last comma.
    Expressions(bool, List),
    /// A name, and its place.
    Word(Name, Loc),
    /// A key that is not computed, and its place.
    Key(Key, Loc),
    /// A part of a template.
    Text(Spelled),
    /// A place.
    Place(Loc),
    /// `var`, `let` or `const`, in the head of a `for`.
    Kind(VariableKind),
    /// Something that may be left out, and is.
    Missing,
    /// A key is computed: its place and its expression follow.
    Computed,
    /// A property is a method: its parameters and its body follow.
    Method,
    /// A `for` has `in`.
    In,
    /// A `for` has `of`.
    Of,
}

/// Lets a piece go, whole. The rest of a piece that a `match` has looked into would go case by case, wherever that stands.
pub(crate) fn discard(_piece: Option<Piece>) {}
