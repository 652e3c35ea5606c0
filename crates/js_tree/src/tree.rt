ghost use Rattle.std.specs.Prelude.{◌≡◌};

use crate::{
    AssignmentOperator, BinaryOperator, Comment, Identifier, Loc, LogicalOperator, Name, Spelled,
    UnaryOperator, UpdateOperator, VariableKind,
};
use items::{Boxed, Items, Text};

/// An expression.
#[cycle(tree)]
pub struct Expr {
    /// Its place, without parentheses round it: none where it was inserted.
    pub loc: Option<Loc>,
    /// What it is.
    pub node: ExprNode,
}

/// What an expression is (ECMA-262, 13).
#[cycle(tree)]
#[derive(Drop)]
pub enum ExprNode {
    /// A reference to a name (13.1).
    IdentifierReference(Name),
    /// `this` (13.2.1).
    This,
    /// `null` (13.2.3).
    NullLiteral,
    /// `true` or `false` (13.2.3).
    BooleanLiteral(bool),
    /// A number as it is spelt (13.2.3).
    NumericLiteral(Text),
    /// A string (13.2.3).
    StringLiteral(Spelled),
    /// An array and its items (13.2.4).
    ArrayLiteral(Items<Expr>),
    /// An object and its properties (13.2.5).
    ObjectLiteral(Items<Property>),
    /// A function with its own name, if it has one (15.2).
    FunctionExpression(Option<Identifier>, Boxed<Function>),
    /// An arrow function: its parameters and its body (15.3).
    ArrowFunction(Items<Param>, Boxed<ConciseBody>),
    /// A regular expression: its body and its flags, as they are spelt (13.2.7).
    RegularExpressionLiteral(Text, Text),
    /// A template: the text before its first part, and its parts (13.2.8).
    TemplateLiteral(Spelled, Items<TemplatePart>),
    /// A pair of parentheses, located with them (13.2.9).
    Parenthesized(Boxed<Expr>),
    /// A member by name: the object and the name (13.3.2).
    NamedMember(Boxed<Expr>, Name),
    /// A member by expression: the object and what stands in the brackets (13.3.2).
    ComputedMember(Boxed<Expr>, Boxed<Expr>),
    /// A construction: the constructor and its arguments, none where no list is written (13.3.5).
    New(Boxed<Expr>, Items<Expr>),
    /// A call: the callee and its arguments (13.3.6).
    Call(Boxed<Expr>, Items<Expr>),
    /// An update operator after its operand (13.4.2, 13.4.3).
    PostfixUpdate(UpdateOperator, Boxed<Expr>),
    /// An update operator before its operand (13.4.4, 13.4.5).
    PrefixUpdate(UpdateOperator, Boxed<Expr>),
    /// A unary operator and its operand (13.5).
    Unary(UnaryOperator, Boxed<Expr>),
    /// A binary operator, its left and its right operand (13.6 to 13.12).
    Binary(BinaryOperator, Boxed<Expr>, Boxed<Expr>),
    /// A logical operator, its left and its right operand (13.13).
    Logical(LogicalOperator, Boxed<Expr>, Boxed<Expr>),
    /// A condition, the arm where it holds and the arm where it doesn't (13.14).
    Conditional(Boxed<Expr>, Boxed<Expr>, Boxed<Expr>),
    /// An assignment: its operator, its target, which is a name or a member, and the right
    /// side (13.15).
    Assignment(AssignmentOperator, Boxed<Expr>, Boxed<Expr>),
    /// Two expressions with a comma between: the left one may be such a pair itself (13.16).
    Comma(Boxed<Expr>, Boxed<Expr>),
}

/// A substitution of a template and the text after it (ECMA-262, 13.2.8).
#[cycle(tree)]
#[derive(Drop)]
pub struct TemplatePart {
    /// What stands between `${` and `}`.
    pub value: Expr,
    /// The text up to the next `${` or the template's end.
    pub text: Spelled,
}

/// A property of an object literal.
#[cycle(tree)]
#[derive(Drop)]
pub struct Property {
    /// Its place: none where it was inserted.
    pub loc: Option<Loc>,
    /// What it is.
    pub node: PropertyNode,
}

/// What a property of an object literal is (ECMA-262, 13.2.5).
#[cycle(tree)]
#[derive(Drop)]
pub enum PropertyNode {
    /// A name that is both the key and a reference to the value.
    Shorthand(Name),
    /// A key and a value.
    KeyValue(PropertyKey, Boxed<Expr>),
    /// A key and the function that it names (15.4).
    Method(PropertyKey, Boxed<Function>),
}

/// The key of a property (ECMA-262, 13.2.5).
#[cycle(tree)]
#[derive(Drop)]
pub enum PropertyKey {
    /// A name, reserved words among them.
    NameKey(Name),
    /// A string.
    StringKey(Spelled),
    /// A number as it is spelt.
    NumberKey(Text),
    /// What stands in the brackets.
    ComputedKey(Boxed<Expr>),
}

/// The parameters and the body of a function or of a method (ECMA-262, 15.2, 15.4).
#[cycle(tree)]
#[derive(Drop)]
pub struct Function {
    /// Its parameters, in order.
    pub params: Items<Param>,
    /// Its body.
    pub body: FunctionBody,
}

/// A function's body in braces (ECMA-262, 15.2).
#[cycle(tree)]
#[derive(Drop)]
pub struct FunctionBody {
    /// Its place, with the braces: none where it was inserted.
    pub loc: Option<Loc>,
    /// Its statements, in order.
    pub statements: Items<Stmt>,
}

/// The body of an arrow function (ECMA-262, 15.3).
#[cycle(tree)]
#[derive(Drop)]
pub enum ConciseBody {
    /// An expression, whose value is returned.
    ExpressionBody(Expr),
    /// A body in braces.
    BlockBody(FunctionBody),
}

/// A parameter of a function (ECMA-262, 15.1).
#[cycle(tree)]
#[derive(Drop)]
pub struct Param {
    /// The place of the whole, with its default: none where it was inserted.
    pub loc: Option<Loc>,
    /// What it binds.
    pub pattern: Pattern,
    /// Its value where no argument is given.
    pub default: Option<Boxed<Expr>>,
}

/// What a declaration, a parameter or a `catch` binds.
#[derive(Drop)]
pub struct Pattern {
    /// Its place: none where it was inserted.
    pub loc: Option<Loc>,
    /// What it is.
    pub node: PatternNode,
}

/// What a pattern is (ECMA-262, 14.3).
#[derive(Drop)]
pub enum PatternNode {
    /// A plain name (13.1).
    BindingIdentifier(Name),
}

/// A statement, a declaration or a directive.
#[cycle(tree)]
pub struct Stmt {
    /// Its place, with its `;` where one is written: none where it was inserted.
    pub loc: Option<Loc>,
    /// What it is.
    pub node: StmtNode,
}

/// What a statement is (ECMA-262, 14).
#[cycle(tree)]
#[derive(Drop)]
pub enum StmtNode {
    /// A string without parentheses at the start of a file's or a function's body (11.2.1).
    Directive(Spelled),
    /// A block (14.2).
    Block(Items<Stmt>),
    /// Variables and their initializers (14.3.1, 14.3.2).
    VariableDeclaration(VariableKind, Items<Declarator>),
    /// A `;` alone (14.4).
    Empty,
    /// An expression statement (14.5).
    Expression(Boxed<Expr>),
    /// `if`: the condition, its statement and that of `else` (14.6).
    If(Boxed<Expr>, Boxed<Stmt>, Option<Boxed<Stmt>>),
    /// `do`: the body and the condition (14.7.2).
    DoWhile(Boxed<Stmt>, Boxed<Expr>),
    /// `while`: the condition and the body (14.7.3).
    While(Boxed<Expr>, Boxed<Stmt>),
    /// `for`: the first part, the condition, the step and the body (14.7.4).
    For(Boxed<ForInit>, Option<Boxed<Expr>>, Option<Boxed<Expr>>, Boxed<Stmt>),
    /// `for` with `in`: the target, the object and the body (14.7.5).
    ForIn(Boxed<ForTarget>, Boxed<Expr>, Boxed<Stmt>),
    /// `for` with `of`: the target, the iterable and the body (14.7.5).
    ForOf(Boxed<ForTarget>, Boxed<Expr>, Boxed<Stmt>),
    /// `continue`, and the label that it names (14.8).
    Continue(Option<Identifier>),
    /// `break`, and the label that it names (14.9).
    Break(Option<Identifier>),
    /// `return`, and its value (14.10).
    Return(Option<Boxed<Expr>>),
    /// `switch`: the value that is sought, and the cases (14.12).
    Switch(Boxed<Expr>, Items<Case>),
    /// A label and its statement (14.13).
    Labelled(Identifier, Boxed<Stmt>),
    /// `throw` (14.14).
    Throw(Boxed<Expr>),
    /// `try` with `catch` alone: the block and the clause (14.15).
    TryCatch(Items<Stmt>, Boxed<Catch>),
    /// `try` with `finally` alone: the two blocks (14.15).
    TryFinally(Items<Stmt>, Items<Stmt>),
    /// `try` with both: its block, the clause, and the block of `finally` (14.15).
    TryCatchFinally(Items<Stmt>, Boxed<Catch>, Items<Stmt>),
    /// `debugger` (14.16).
    Debugger,
    /// A function that is declared (15.2).
    FunctionDeclaration(Identifier, Boxed<Function>),
}

/// A variable that is declared (ECMA-262, 14.3.1, 14.3.2).
#[cycle(tree)]
#[derive(Drop)]
pub struct Declarator {
    /// The place of the whole, with its initializer: none where it was inserted.
    pub loc: Option<Loc>,
    /// What it binds.
    pub pattern: Pattern,
    /// Its initializer.
    pub initializer: Option<Boxed<Expr>>,
}

/// The first part of a `for` (ECMA-262, 14.7.4).
#[cycle(tree)]
#[derive(Drop)]
pub enum ForInit {
    /// Nothing.
    NoInit,
    /// A declaration of variables.
    InitDeclaration(VariableKind, Items<Declarator>),
    /// An expression.
    InitExpression(Boxed<Expr>),
}

/// What takes the keys of a `for` with `in`, or the items of one with `of` (ECMA-262, 14.7.5).
#[cycle(tree)]
#[derive(Drop)]
pub enum ForTarget {
    /// A variable, fresh in each turn for `let` and `const`.
    TargetDeclaration(VariableKind, Pattern),
    /// A name or a member that is assigned to.
    TargetExpression(Boxed<Expr>),
}

/// A clause of a `switch` (ECMA-262, 14.12).
#[cycle(tree)]
#[derive(Drop)]
pub struct Case {
    /// The place of the clause: none where it was inserted.
    pub loc: Option<Loc>,
    /// The value of a `case`: none for `default`.
    pub test: Option<Boxed<Expr>>,
    /// Its statements, in order.
    pub statements: Items<Stmt>,
}

/// A `catch` clause (ECMA-262, 14.15).
#[cycle(tree)]
#[derive(Drop)]
pub struct Catch {
    /// What takes the exception.
    pub parameter: Option<Pattern>,
    /// The statements of its block, in order.
    pub statements: Items<Stmt>,
}

/// A whole file.
#[derive(Drop)]
pub struct File {
    /// The statements of its body, in order (ECMA-262, 16.1).
    pub body: Items<Stmt>,
    /// Its comments, in order.
    pub comments: Items<Comment>,
}

// Written out: what stands on this crate calls these, and doesn't prove the drop of a tree again.

impl Drop for Expr {
    #[cycle(tree)]
    fn drop(self) {
        let Expr { loc: _, node } = self;
        drop(node);
    }
}

impl Expr {
    /// Its place, and what it is.
    pub fn into_parts(self) -> (Option<Loc>, ExprNode)
        ensures loc { result.0 ≡ self.loc }
        ensures node { result.1 ≡ self.node }
    {
        let Expr { loc, node } = self;
        (loc, node)
    }
}

impl Drop for Stmt {
    #[cycle(tree)]
    fn drop(self) {
        let Stmt { loc: _, node } = self;
        drop(node);
    }
}

impl Stmt {
    /// Its place, and what it is.
    pub fn into_parts(self) -> (Option<Loc>, StmtNode)
        ensures loc { result.0 ≡ self.loc }
        ensures node { result.1 ≡ self.node }
    {
        let Stmt { loc, node } = self;
        (loc, node)
    }
}
