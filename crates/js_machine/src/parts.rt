// What the machine's parts are made of. Nodes of the code are told by their places, and names by the place of the node that has them.
use items::{Boxed, Items};
use js_heap::Env;
use js_host::Iteration;
use js_tree::{BinaryOperator, UpdateOperator, VariableKind};
use js_value::{Object, Str, Value};

/// The labels before a statement, the nearest first, each by the place of its statement.
pub type Labels = Items<usize>;

/// As what a function stands where it is made.
#[derive(Clone, Copy)]
pub enum Form {
    /// As a function.
    Ordinary,
    /// As a method.
    Method,
    /// As an arrow function.
    Arrow,
}

/// A text that a name or a key is.
#[derive(Drop)]
pub enum Title {
    /// The empty one.
    Empty,
    /// A name.
    Name(usize),
    /// Any other.
    Text(Str),
}

/// The key of a member.
#[derive(Drop)]
pub enum MemberKey {
    /// A name.
    Name(usize),
    /// The value of an expression.
    Value(Value),
}

/// What can be read and assigned to (ECMA-262, 6.2.5).
#[derive(Drop)]
pub enum Reference {
    /// A name.
    Name(usize),
    /// A member.
    Member { base: Value, key: MemberKey },
}

/// What is done with the values of a list.
#[derive(Drop)]
pub enum Gathering {
    /// They are the arguments of a call.
    Call { callee: Value, this: Value },
    /// They are the arguments of a construction.
    Construct { maker: Value },
    /// They are the elements of an array.
    Array,
}

/// A `for` with `in` or `of`.
#[derive(Drop)]
pub struct Loop {
    /// The statement.
    pub statement: usize,
    /// Its target.
    pub target: usize,
    /// Its labels.
    pub labels: Labels,
    /// The environment around it.
    pub env: Env,
}

/// What is done with a reference.
#[derive(Drop)]
pub enum Referring {
    /// It is called.
    Call {
        arguments: usize,
    },
    /// It is updated.
    Update {
        prefix: bool,
        operator: UpdateOperator,
    },
    /// It is deleted.
    Delete,
    /// It is assigned to, by an operator or without.
    Assign {
        operator: Option<BinaryOperator>,
        value: usize,
    },
    /// It takes the next value of a loop.
    Take {
        value: Boxed<Value>,
        round: Boxed<Loop>,
        rest: Boxed<Iteration>,
    },
}

/// What is done with the key of a property.
#[derive(Drop)]
pub enum Keying {
    /// A value is evaluated for it.
    Value { value: usize, object: Object },
    /// A method is made for it.
    Method { function: usize, object: Object },
}

/// What is done in an environment once it is there.
#[derive(Drop)]
pub enum Scoped {
    /// A `for`.
    For {
        init: usize,
        test: usize,
        statement: usize,
        labels: Labels,
    },
    /// A `for` with `in`, whose keys are to be found, or with `of`.
    Subject {
        keys: bool,
        subject: usize,
        round: Boxed<Loop>,
    },
    /// The name of such a loop takes its next value.
    Target {
        kind: VariableKind,
        name: usize,
        value: Value,
        round: Boxed<Loop>,
        rest: Boxed<Iteration>,
    },
    /// The test of a `for`.
    Turn {
        test: usize,
        statement: usize,
        labels: Labels,
    },
    /// The step of a `for`, and then its test.
    Update {
        update: usize,
        test: usize,
        statement: usize,
        labels: Labels,
    },
    /// The clauses of a `switch`.
    Switch {
        cases: usize,
        value: Value,
    },
    /// A block.
    Block {
        block: usize,
    },
    /// A function that sees its own name.
    OwnName {
        name: usize,
        function: usize,
    },
}
