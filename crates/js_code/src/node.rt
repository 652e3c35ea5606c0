use crate::identifier::SharedIdentifier;
use crate::literal::{Numeral, StringValue, Word};
use crate::scopes::{BlockScope, BodyScope, NewName};
use items::{Items, Text};
use js_names::SharedName;
use js_tree::{
    AssignmentOperator, BinaryOperator, Loc, LogicalOperator, UnaryOperator, UpdateOperator,
    VariableKind,
};

/// What a list is of.
#[derive(Clone, Copy, Debug, PartialEq, Eq)]
pub enum ListKind {
    /// Expressions.
    Exprs,
    /// Statements.
    Stmts,
    /// Properties.
    Properties,
    /// Parts of a template.
    TemplateParts,
    /// Parameters.
    Params,
    /// Declarators.
    Declarators,
    /// Clauses of a `switch`.
    Cases,
}

/// A node of a program's code. It has all that the tree has, its parts by their places, which are
/// before its own; a list of parts is a chain of nodes.
#[derive(Drop)]
pub enum Node {
    /// A reference to a name (ECMA-262, 13.1).
    IdentifierReference {
        /// Its place in the text.
        loc: Option<Loc>,
        /// The name.
        name: SharedName,
    },
    /// `this` (13.2.1).
    This {
        /// Its place in the text.
        loc: Option<Loc>,
    },
    /// `null` (13.2.3).
    NullLiteral {
        /// Its place in the text.
        loc: Option<Loc>,
    },
    /// `true` or `false` (13.2.3).
    BooleanLiteral {
        /// Its place in the text.
        loc: Option<Loc>,
        /// Which of them.
        value: bool,
    },
    /// A number (13.2.3).
    NumericLiteral {
        /// Its place in the text.
        loc: Option<Loc>,
        /// Its spelling and its value.
        numeral: Numeral,
    },
    /// A string (13.2.3).
    StringLiteral {
        /// Its place in the text.
        loc: Option<Loc>,
        /// Its spelling and its value.
        literal: StringValue,
    },
    /// An array (13.2.4).
    ArrayLiteral {
        /// Its place in the text.
        loc: Option<Loc>,
        /// The list of its items.
        items: usize,
    },
    /// An object (13.2.5).
    ObjectLiteral {
        /// Its place in the text.
        loc: Option<Loc>,
        /// The list of its properties.
        properties: usize,
    },
    /// A function, with a name of its own or without (15.2).
    FunctionExpression {
        /// Its place in the text.
        loc: Option<Loc>,
        /// Its own name, if it has one.
        name: Option<SharedIdentifier>,
        /// Its code.
        function: usize,
    },
    /// An arrow function (15.3).
    ArrowFunction {
        /// Its place in the text.
        loc: Option<Loc>,
        /// Its code.
        function: usize,
    },
    /// A regular expression (13.2.7).
    RegularExpressionLiteral {
        /// Its place in the text.
        loc: Option<Loc>,
        /// Its body, as it is spelt.
        pattern: Text,
        /// Its flags, as they are spelt.
        flags: Text,
    },
    /// A template (13.2.8).
    TemplateLiteral {
        /// Its place in the text.
        loc: Option<Loc>,
        /// The text before its first part.
        text: StringValue,
        /// The list of its parts.
        parts: usize,
    },
    /// A pair of parentheses (13.2.9).
    Parenthesized {
        /// Its place in the text.
        loc: Option<Loc>,
        /// The expression between them.
        inner: usize,
    },
    /// A member by name (13.3.2).
    NamedMember {
        /// Its place in the text.
        loc: Option<Loc>,
        /// The object.
        object: usize,
        /// The name.
        name: Word,
    },
    /// A member by expression (13.3.2).
    ComputedMember {
        /// Its place in the text.
        loc: Option<Loc>,
        /// The object.
        object: usize,
        /// What stands in the brackets.
        key: usize,
    },
    /// A construction (13.3.5).
    New {
        /// Its place in the text.
        loc: Option<Loc>,
        /// The expression that is constructed.
        constructor: usize,
        /// The list of its arguments.
        arguments: usize,
    },
    /// A call (13.3.6).
    Call {
        /// Its place in the text.
        loc: Option<Loc>,
        /// The expression that is called.
        callee: usize,
        /// The list of its arguments.
        arguments: usize,
    },
    /// An update operator after its operand (13.4.2, 13.4.3).
    PostfixUpdate {
        /// Its place in the text.
        loc: Option<Loc>,
        /// The operator.
        operator: UpdateOperator,
        /// The operand.
        target: usize,
    },
    /// An update operator before its operand (13.4.4, 13.4.5).
    PrefixUpdate {
        /// Its place in the text.
        loc: Option<Loc>,
        /// The operator.
        operator: UpdateOperator,
        /// The operand.
        target: usize,
    },
    /// A unary operator (13.5).
    Unary {
        /// Its place in the text.
        loc: Option<Loc>,
        /// The operator.
        operator: UnaryOperator,
        /// The operand.
        operand: usize,
    },
    /// A binary operator (13.6 to 13.12).
    Binary {
        /// Its place in the text.
        loc: Option<Loc>,
        /// The operator.
        operator: BinaryOperator,
        /// The left operand.
        left: usize,
        /// The right operand.
        right: usize,
    },
    /// A logical operator (13.13).
    Logical {
        /// Its place in the text.
        loc: Option<Loc>,
        /// The operator.
        operator: LogicalOperator,
        /// The left operand.
        left: usize,
        /// The right operand.
        right: usize,
    },
    /// A condition (13.14).
    Conditional {
        /// Its place in the text.
        loc: Option<Loc>,
        /// The condition.
        test: usize,
        /// The arm where it holds.
        holds: usize,
        /// The arm where it doesn't.
        fails: usize,
    },
    /// An assignment (13.15).
    Assignment {
        /// Its place in the text.
        loc: Option<Loc>,
        /// The operator.
        operator: AssignmentOperator,
        /// What is assigned to.
        target: usize,
        /// The expression on the right side.
        value: usize,
    },
    /// Two expressions with a comma between (13.16).
    Comma {
        /// Its place in the text.
        loc: Option<Loc>,
        /// The first.
        left: usize,
        /// The second.
        right: usize,
    },
    /// A substitution of a template (13.2.8).
    TemplatePart {
        /// The expression.
        value: usize,
        /// The text after it.
        text: StringValue,
    },
    /// A property that is a name alone (13.2.5).
    Shorthand {
        /// Its place in the text.
        loc: Option<Loc>,
        /// The name.
        name: Word,
    },
    /// A property with a value (13.2.5).
    KeyValue {
        /// Its place in the text.
        loc: Option<Loc>,
        /// The key.
        key: usize,
        /// The value.
        value: usize,
    },
    /// A method (15.4).
    Method {
        /// Its place in the text.
        loc: Option<Loc>,
        /// The key.
        key: usize,
        /// Its code.
        function: usize,
    },
    /// A key that is a name (13.2.5).
    NameKey {
        /// The name.
        name: Word,
    },
    /// A key that is a string (13.2.5).
    StringKey {
        /// Its spelling and its value.
        literal: StringValue,
    },
    /// A key that is a number (13.2.5).
    NumberKey {
        /// Its spelling and its value.
        numeral: Numeral,
    },
    /// A key in brackets (13.2.5).
    ComputedKey {
        /// What stands in them.
        value: usize,
    },
    /// The code of a function or a method (15.2, 15.4).
    Function {
        /// Whether it is a method.
        is_method: bool,
        /// Its number in the program.
        number: u64,
        /// How many arguments it expects.
        length: usize,
        /// What its body declares.
        scope: BodyScope,
        /// The list of its parameters.
        params: usize,
        /// The place of its body in the text, with the braces.
        body_loc: Option<Loc>,
        /// The list of its body's statements.
        body: usize,
    },
    /// The code of an arrow function whose body is an expression (15.3).
    ArrowExpression {
        /// Its number in the program.
        number: u64,
        /// How many arguments it expects.
        length: usize,
        /// What its body declares.
        scope: BodyScope,
        /// The list of its parameters.
        params: usize,
        /// The expression.
        value: usize,
    },
    /// The code of an arrow function with a body in braces (15.3).
    ArrowBlock {
        /// Its number in the program.
        number: u64,
        /// How many arguments it expects.
        length: usize,
        /// What its body declares.
        scope: BodyScope,
        /// The list of its parameters.
        params: usize,
        /// The place of its body in the text, with the braces.
        body_loc: Option<Loc>,
        /// The list of its body's statements.
        body: usize,
    },
    /// A parameter (15.1).
    Param {
        /// Its place in the text.
        loc: Option<Loc>,
        /// The place of its name in the text.
        name_loc: Option<Loc>,
        /// The name.
        name: SharedName,
        /// The value where no argument is given, or that it is missing.
        default: usize,
    },
    /// A directive (11.2.1).
    Directive {
        /// Its place in the text.
        loc: Option<Loc>,
        /// The string.
        literal: StringValue,
    },
    /// A block (14.2).
    Block {
        /// Its place in the text.
        loc: Option<Loc>,
        /// The scope of its statements.
        statements: usize,
    },
    /// A declaration of variables (14.3.1, 14.3.2).
    VariableDeclaration {
        /// Its place in the text.
        loc: Option<Loc>,
        /// By which word.
        kind: VariableKind,
        /// The list of its declarators.
        declarators: usize,
    },
    /// A `;` alone (14.4).
    Empty {
        /// Its place in the text.
        loc: Option<Loc>,
    },
    /// An expression statement (14.5).
    Expression {
        /// Its place in the text.
        loc: Option<Loc>,
        /// The expression.
        expression: usize,
    },
    /// `if` (14.6).
    If {
        /// Its place in the text.
        loc: Option<Loc>,
        /// The condition.
        test: usize,
        /// The statement where it holds.
        holds: usize,
        /// The statement after `else`, or that it is missing.
        fails: usize,
    },
    /// `do` (14.7.2).
    DoWhile {
        /// Its place in the text.
        loc: Option<Loc>,
        /// The body.
        body: usize,
        /// The condition.
        test: usize,
    },
    /// `while` (14.7.3).
    While {
        /// Its place in the text.
        loc: Option<Loc>,
        /// The condition.
        test: usize,
        /// The body.
        body: usize,
    },
    /// `for` (14.7.4).
    For {
        /// Its place in the text.
        loc: Option<Loc>,
        /// The first part.
        init: usize,
        /// The condition, or that it is missing.
        test: usize,
        /// The step, or that it is missing.
        update: usize,
        /// The body.
        body: usize,
    },
    /// `for` with `in` (14.7.5).
    ForIn {
        /// Its place in the text.
        loc: Option<Loc>,
        /// The target.
        target: usize,
        /// The object.
        object: usize,
        /// The body.
        body: usize,
    },
    /// `for` with `of` (14.7.5).
    ForOf {
        /// Its place in the text.
        loc: Option<Loc>,
        /// The target.
        target: usize,
        /// What is iterated.
        iterable: usize,
        /// The body.
        body: usize,
    },
    /// `continue` (14.8).
    Continue {
        /// Its place in the text.
        loc: Option<Loc>,
        /// The label that it names, if it names one.
        label: Option<SharedIdentifier>,
    },
    /// `break` (14.9).
    Break {
        /// Its place in the text.
        loc: Option<Loc>,
        /// The label that it names, if it names one.
        label: Option<SharedIdentifier>,
    },
    /// `return` (14.10).
    Return {
        /// Its place in the text.
        loc: Option<Loc>,
        /// Its value, or that it is missing.
        value: usize,
    },
    /// `switch` (14.12).
    Switch {
        /// Its place in the text.
        loc: Option<Loc>,
        /// The value that is sought.
        value: usize,
        /// The scope of its clauses.
        cases: usize,
    },
    /// A label and its statement (14.13).
    Labelled {
        /// Its place in the text.
        loc: Option<Loc>,
        /// The label.
        label: SharedIdentifier,
        /// The statement.
        body: usize,
    },
    /// `throw` (14.14).
    Throw {
        /// Its place in the text.
        loc: Option<Loc>,
        /// The exception.
        value: usize,
    },
    /// `try` with `catch` alone (14.15).
    TryCatch {
        /// Its place in the text.
        loc: Option<Loc>,
        /// The scope of its statements.
        block: usize,
        /// The clause.
        catch: usize,
    },
    /// `try` with `finally` alone (14.15).
    TryFinally {
        /// Its place in the text.
        loc: Option<Loc>,
        /// The scope of its statements.
        block: usize,
        /// The scope of the statements of `finally`.
        last: usize,
    },
    /// `try` with both (14.15).
    TryCatchFinally {
        /// Its place in the text.
        loc: Option<Loc>,
        /// The scope of its statements.
        block: usize,
        /// The clause.
        catch: usize,
        /// The scope of the statements of `finally`.
        last: usize,
    },
    /// `debugger` (14.16).
    Debugger {
        /// Its place in the text.
        loc: Option<Loc>,
    },
    /// A function that is declared (15.2).
    FunctionDeclaration {
        /// Its place in the text.
        loc: Option<Loc>,
        /// Its name.
        name: SharedIdentifier,
        /// Its code.
        function: usize,
    },
    /// A variable that is declared (14.3.1, 14.3.2).
    Declarator {
        /// Its place in the text.
        loc: Option<Loc>,
        /// The place of its name in the text.
        name_loc: Option<Loc>,
        /// The name.
        name: SharedName,
        /// Its initializer, or that it is missing.
        initializer: usize,
    },
    /// The first part of a `for`: nothing (14.7.4).
    NoInit,
    /// The first part of a `for`: a declaration (14.7.4).
    InitDeclaration {
        /// By which word.
        kind: VariableKind,
        /// The names that its scope begins with.
        names: Items<NewName>,
        /// Whether they are fresh in each turn.
        fresh: bool,
        /// The list of its declarators.
        declarators: usize,
    },
    /// The first part of a `for`: an expression (14.7.4).
    InitExpression {
        /// The expression.
        expression: usize,
    },
    /// The target of a `for` with `in` or `of`: a declaration (14.7.5).
    TargetDeclaration {
        /// By which word.
        kind: VariableKind,
        /// The place of the name in the text.
        name_loc: Option<Loc>,
        /// The name.
        name: SharedName,
    },
    /// The target of a `for` with `in` or `of`: a name or a member (14.7.5).
    TargetExpression {
        /// The target.
        expression: usize,
    },
    /// A clause of a `switch` (14.12).
    Case {
        /// Its place in the text.
        loc: Option<Loc>,
        /// The value of a `case`, or that it is missing, for `default`.
        test: usize,
        /// The list of its statements.
        statements: usize,
    },
    /// A `catch` clause without a name (14.15).
    Catch {
        /// The scope of its statements.
        statements: usize,
    },
    /// A `catch` clause with a name (14.15).
    CatchName {
        /// The place of the name in the text.
        name_loc: Option<Loc>,
        /// The name.
        name: SharedName,
        /// The scope of its statements.
        statements: usize,
    },
    /// A list of statements that is a scope of its own (14.2.3).
    Scope {
        /// What it declares.
        scope: BlockScope,
        /// The list.
        statements: usize,
    },
    /// The clauses of a `switch`, which are one scope (14.12).
    CaseScope {
        /// What they declare.
        scope: BlockScope,
        /// The list of them.
        cases: usize,
    },
    /// A part that may be missing, and is.
    Missing,
    /// The end of a list of parts.
    End {
        /// Of which parts.
        kind: ListKind,
    },
    /// A part, and those after it in a list.
    More {
        /// Of which parts.
        kind: ListKind,
        /// The part.
        first: usize,
        /// The list of the others.
        rest: usize,
    },
}
