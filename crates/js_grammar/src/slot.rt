use js_reading::{Choice, Class};
use js_text::Punctuator;
use js_tree::VariableKind;

/// A word that stands in a production.
#[derive(Clone, Copy)]
pub enum ProductionWord {
    /// `break`
    Break,
    /// `case`
    Case,
    /// `catch`
    Catch,
    /// `const`
    Const,
    /// `continue`
    Continue,
    /// `debugger`
    Debugger,
    /// `default`
    Default,
    /// `delete`
    Delete,
    /// `do`
    Do,
    /// `else`
    Else,
    /// `finally`
    Finally,
    /// `for`
    For,
    /// `function`
    Function,
    /// `if`
    If,
    /// `in`
    In,
    /// `instanceof`
    InstanceOf,
    /// `let`
    Let,
    /// `new`
    New,
    /// `of`
    Of,
    /// `return`
    Return,
    /// `switch`
    Switch,
    /// `throw`
    Throw,
    /// `try`
    Try,
    /// `typeof`
    TypeOf,
    /// `var`
    Var,
    /// `void`
    Void,
    /// `while`
    While,
}

/// A token that a production has as it is.
#[derive(Clone, Copy)]
pub enum Sign {
    /// A punctuator.
    Mark(Punctuator),
    /// A word without escapes.
    Word(ProductionWord),
}

/// Which expression a place takes.
#[derive(Clone, Copy)]
pub enum Wanted {
    /// One of this level at least.
    Level(u8),
    /// The same without a bare `in` (ECMA-262, 14.7.4).
    WithoutIn(u8),
    /// A callee of `new` (13.3.5).
    Callee,
}

/// What stands in a production.
#[derive(Clone, Copy)]
pub enum Slot {
    /// This token.
    Sign(Sign),
    /// A token of this class.
    Text(Class),
    /// An expression.
    Expr(Wanted),
    /// A statement that is no declaration.
    Stmt,
    /// Statements, up to a token that ends their list.
    Stmts,
    /// Arguments or items, each followed by a comma but maybe the last, and this token.
    Items(Punctuator),
    /// The place of what was read last.
    Place,
    /// What the next token chooses.
    By(Choice),
}

/// A piece that no token spells: what was chosen.
#[derive(Clone, Copy)]
pub enum Marker {
    /// A part that is left out.
    Missing,
    /// A key in brackets.
    Computed,
    /// A method.
    Method,
    /// `in` in the head of `for`.
    In,
    /// `of` there.
    Of,
    /// The word of a declaration there.
    Kind(VariableKind),
}

/// What the next token chooses.
#[derive(Clone, Copy)]
pub enum Branch {
    /// It may not stand there.
    Refuse,
    /// No slot, and perhaps a piece.
    Pass(Option<Marker>),
    /// Perhaps a piece, a slot that the token begins, and those after it.
    Go(Option<Marker>, Slot, &'static [Slot]),
}
