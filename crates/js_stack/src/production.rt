use crate::left::Left;
use crate::parts::Parts;
use js_build::{Body, List, Operand, Piece, Statements};
use js_grammar::Wanted;
use js_reading::Form;
use js_text::Punctuator;
use js_tree::Loc;

/// A production that is open: where it starts, its slots that are left, and its parts before them.
#[derive(Drop)]
pub(crate) struct Production {
    pub(crate) form: Form,
    pub(crate) start: Loc,
    pub(crate) left: Left,
    pub(crate) parts: Parts,
}

/// A node with a part missing.
#[derive(Drop)]
pub(crate) enum Frame {
    /// The expression of a production.
    InExpression(Production, Wanted),
    /// The statement of a production.
    InStatement(Production),
    /// The expression of a statement that starts here; it may be a label.
    InLine(Loc),
    /// The next statement of a list in a production.
    InStatements(Production, Statements),
    /// The next statement of the file.
    InFile(Statements),
    /// The next item of a list in a production, up to this punctuator.
    InItems(Production, Punctuator, List),
}

/// Where the reader stands between two tokens.
#[derive(Drop)]
pub(crate) enum Place {
    /// Slots of a production are left, after a location.
    Due(Production, Loc),
    /// An expression stands there.
    Expression(Operand, Loc),
    /// A statement stands there.
    Statement(Body, Loc),
    /// An item is due, or the end of the list.
    Item,
    /// Before the first token.
    Start,
    /// After the end.
    Finished(Statements),
}

/// Where a token has led: past it, or to a part that stands before it still.
#[derive(Drop)]
pub(crate) enum Turn {
    /// The token is taken.
    To(Place),
    /// An expression is made.
    Expression(Operand, Loc),
    /// A statement is made.
    Statement(Body, Loc),
}

/// Where a token has led within a production: past it, or to the slots that are left after one that was passed.
#[derive(Drop)]
pub(crate) enum Passed {
    /// The token is taken.
    To(Place),
    /// A slot is passed.
    On(Production),
}

/// Lets a frame go, whole. The rest of one that a `match` has looked into would go case by case, wherever that stands.
pub(crate) fn discard_frame(_frame: Option<Frame>) {}

/// Lets a place go, whole.
pub(crate) fn discard_place(_place: Place) {}

/// Lets a piece go, whole.
pub(crate) fn discard_piece(_piece: Option<Piece>) {}
