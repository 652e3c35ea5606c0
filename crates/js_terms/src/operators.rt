/// A unary operator (ECMA-262, 13.5).
#[derive(Clone, Copy, Debug, PartialEq, Eq)]
pub enum UnaryOperator {
    /// `delete` (13.5.1).
    Delete,
    /// `void` (13.5.2).
    Void,
    /// `typeof` (13.5.3).
    TypeOf,
    /// `+` (13.5.4).
    Plus,
    /// `-` (13.5.5).
    Minus,
    /// `~` (13.5.6).
    BitwiseNot,
    /// `!` (13.5.7).
    LogicalNot,
}

/// An update operator, before or after its operand (ECMA-262, 13.4).
#[derive(Clone, Copy, Debug, PartialEq, Eq)]
pub enum UpdateOperator {
    /// `++`.
    Increment,
    /// `--`.
    Decrement,
}

/// A binary operator that evaluates both of its operands (ECMA-262, 13.6 to 13.12).
#[derive(Clone, Copy, Debug, PartialEq, Eq)]
pub enum BinaryOperator {
    /// `**` (13.6).
    Exponentiate,
    /// `*` (13.7).
    Multiply,
    /// `/` (13.7).
    Divide,
    /// `%` (13.7).
    Remainder,
    /// `+` (13.8.1).
    Add,
    /// `-` (13.8.2).
    Subtract,
    /// `<<` (13.9.1).
    LeftShift,
    /// `>>` (13.9.2).
    SignedRightShift,
    /// `>>>` (13.9.3).
    UnsignedRightShift,
    /// `<` (13.10).
    LessThan,
    /// `>` (13.10).
    GreaterThan,
    /// `<=` (13.10).
    LessThanOrEqual,
    /// `>=` (13.10).
    GreaterThanOrEqual,
    /// `instanceof` (13.10).
    InstanceOf,
    /// `in` (13.10).
    In,
    /// `==` (13.11).
    Equal,
    /// `!=` (13.11).
    NotEqual,
    /// `===` (13.11).
    StrictEqual,
    /// `!==` (13.11).
    StrictNotEqual,
    /// `&` (13.12).
    BitwiseAnd,
    /// `^` (13.12).
    BitwiseXor,
    /// `|` (13.12).
    BitwiseOr,
}

/// An operator that evaluates its right operand only where the left one asks for it
/// (ECMA-262, 13.13).
#[derive(Clone, Copy, Debug, PartialEq, Eq)]
pub enum LogicalOperator {
    /// `&&`.
    And,
    /// `||`.
    Or,
    /// `??`.
    Coalesce,
}

/// An assignment operator (ECMA-262, 13.15).
#[derive(Clone, Copy, Debug, PartialEq, Eq)]
pub enum AssignmentOperator {
    /// `=`.
    Assign,
    /// `**=`.
    ExponentiateAssign,
    /// `*=`.
    MultiplyAssign,
    /// `/=`.
    DivideAssign,
    /// `%=`.
    RemainderAssign,
    /// `+=`.
    AddAssign,
    /// `-=`.
    SubtractAssign,
    /// `<<=`.
    LeftShiftAssign,
    /// `>>=`.
    SignedRightShiftAssign,
    /// `>>>=`.
    UnsignedRightShiftAssign,
    /// `&=`.
    BitwiseAndAssign,
    /// `^=`.
    BitwiseXorAssign,
    /// `|=`.
    BitwiseOrAssign,
}

/// The word that begins a declaration of variables (ECMA-262, 14.3).
#[derive(Clone, Copy, Debug, PartialEq, Eq)]
pub enum VariableKind {
    /// `var` (14.3.2).
    Var,
    /// `let` (14.3.1).
    Let,
    /// `const` (14.3.1).
    Const,
}
