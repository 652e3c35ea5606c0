use js_tree::{
    AssignmentOperator, BinaryOperator, LogicalOperator, UnaryOperator, UpdateOperator,
    VariableKind,
};

/// A production of the language (ECMA-262, 13 to 16).
#[derive(Clone, Copy, Debug)]
pub enum Form {
    /// A pair of parentheses, or an arrow function that begins with one (13.2.9, 15.3).
    Parentheses,
    /// An array (13.2.4).
    ArrayLiteral,
    /// An object (13.2.5).
    ObjectLiteral,
    /// A template with substitutions (13.2.8).
    Template,
    /// A function as an expression (15.2).
    FunctionExpression,
    /// A construction (13.3.5).
    New,
    /// A call (13.3.6).
    Call,
    /// A member by name (13.3.2).
    Dot,
    /// A member by expression (13.3.2).
    Member,
    /// An update operator after its operand (13.4.2, 13.4.3).
    Postfix(UpdateOperator),
    /// An update operator before its operand (13.4.4, 13.4.5).
    PrefixUpdate(UpdateOperator),
    /// A unary operator (13.5).
    Unary(UnaryOperator),
    /// A binary operator (13.6 to 13.12).
    Binary(BinaryOperator),
    /// A logical operator (13.13).
    Logical(LogicalOperator),
    /// A conditional (13.14).
    Conditional,
    /// An assignment (13.15).
    Assignment(AssignmentOperator),
    /// An arrow function whose parameter is a name without parentheses (15.3).
    ArrowOfName,
    /// Two expressions with a comma between (13.16).
    Comma,
    /// An expression statement (14.5).
    Expression,
    /// A label and its statement (14.13).
    Labelled,
    /// A block (14.2).
    Block,
    /// A declaration of variables (14.3.1, 14.3.2).
    Variables(VariableKind),
    /// A function that is declared (15.2).
    FunctionDeclaration,
    /// A `;` alone (14.4).
    Empty,
    /// `if` (14.6).
    If,
    /// `for`, each kind of it (14.7.4, 14.7.5).
    For,
    /// `while` (14.7.3).
    While,
    /// `do` (14.7.2).
    DoWhile,
    /// `continue` (14.8).
    Continue,
    /// `break` (14.9).
    Break,
    /// `return` (14.10).
    Return,
    /// `switch` (14.12).
    Switch,
    /// `throw` (14.14).
    Throw,
    /// `try` (14.15).
    Try,
    /// `debugger` (14.16).
    Debugger,
}
