// What the machine does next, what waits for it, and what it asks of the store. Nodes of the code are told by their places, and
// names by the place of the node that has them.
use crate::parts::{
    Form, Gathering, Keying, Labels, Loop, MemberKey, Reference, Referring, Scoped, Title,
};
use items::{Boxed, Items};
use js_heap::Env;
use js_host::Iteration;
use js_meaning::Completion;
use js_tree::{BinaryOperator, LogicalOperator, Name, UnaryOperator, UpdateOperator, VariableKind};
use js_value::{Complaint, Kind, Object, Str, Value};

/// What needs the store.
#[derive(Drop)]
pub enum Action {
    /// The value of a name.
    Read {
        name: usize,
        env: Env,
    },
    /// A value for a name.
    Write {
        name: usize,
        env: Env,
        value: Value,
    },
    /// The first value of a name.
    Initialize {
        name: usize,
        env: Env,
        value: Value,
    },
    /// The value of a member.
    GetMember {
        base: Value,
        key: MemberKey,
    },
    /// A value for a member.
    PutMember {
        base: Value,
        key: MemberKey,
        value: Value,
    },
    /// A reference is deleted.
    Delete(Reference),
    /// A binary operator.
    Operate {
        operator: BinaryOperator,
        left: Value,
        right: Value,
    },
    /// A unary operator.
    OperateUnary {
        operator: UnaryOperator,
        value: Value,
    },
    /// The type of a name's value, or of none.
    TypeOfName {
        name: usize,
        env: Env,
    },
    /// An error is made and thrown.
    Throw(Complaint),
    /// A function is made.
    Close {
        form: Form,
        function: usize,
        title: Title,
        env: Env,
    },
    /// A regular expression is made.
    MakeRegExp,
    /// An object is made, for its properties.
    MakeObject {
        properties: usize,
        env: Env,
    },
    /// A property is put into an object.
    Define {
        object: Object,
        key: Title,
        value: Value,
    },
    /// The values of a list are there.
    Gathered {
        gathering: Gathering,
        values: Items<Value>,
    },
    /// A block is entered.
    EnterBlock {
        block: usize,
        env: Env,
    },
    /// The clauses of a `switch` are entered.
    EnterSwitch {
        cases: usize,
        value: Value,
        env: Env,
    },
    /// The scope of a loop is entered.
    EnterLoop {
        next: Scoped,
        env: Env,
    },
    /// The names of a `let` are made anew.
    Anew {
        init: usize,
        next: Scoped,
        env: Env,
    },
    /// The name of a `catch` gets the exception.
    Caught {
        name: usize,
        value: Value,
        block: usize,
        env: Env,
    },
    /// A function that sees its own name gets an environment for it.
    OwnName {
        name: usize,
        function: usize,
        env: Env,
    },
    /// The next key or item of a loop.
    GoThrough {
        round: Boxed<Loop>,
        rest: Boxed<Iteration>,
    },
    /// The keys of a value, for a loop.
    GoThroughKeys {
        round: Boxed<Loop>,
        value: Value,
    },
    /// The items of a value, for a loop.
    GoThroughItems {
        round: Boxed<Loop>,
        value: Value,
    },
    /// A call of the function with its code here gets its environment; an arrow function has no `this`.
    StartCall {
        this: Option<Value>,
        function: usize,
        env: Env,
        arguments: Items<Value>,
    },
    /// The names of a function's body are made.
    EnterBody {
        function: usize,
        env: Env,
    },
    /// What a file gives that was required.
    Exports {
        file: usize,
    },
    /// A file that threw this leaves the cache.
    LeaveCache {
        file: usize,
        thrown: Value,
    },
}

/// What a step is asked for.
#[derive(Drop)]
pub enum Entry {
    /// A call of a function of the program.
    Call {
        code: u64,
        environment: Env,
        this: Value,
        arguments: Items<Value>,
    },
    /// A construction by a function of the program, which is this object.
    New {
        maker: Object,
        code: u64,
        environment: Env,
        arguments: Items<Value>,
    },
    /// A call of a built-in function, which is this object, and what makes its result where it constructs.
    CallBuiltIn {
        callee: Object,
        function: u32,
        maker: Option<Object>,
        this: Value,
        arguments: Items<Value>,
    },
    /// A turn of a loop.
    Turn {
        statement: usize,
        labels: Labels,
        env: Env,
    },
    /// A turn of a loop with `in` or `of`.
    Pass {
        statement: usize,
        labels: Labels,
        env: Env,
        inner: Env,
        rest: Boxed<Iteration>,
    },
}

/// A part of the code that is to be done, or a part of that.
#[derive(Drop)]
pub enum Task {
    /// An expression.
    Evaluate {
        place: usize,
        env: Env,
    },
    /// An expression, where a name is given to it.
    EvaluateNamed {
        title: Title,
        place: usize,
        env: Env,
    },
    /// An expression, if it is there.
    EvaluateIf {
        place: usize,
        env: Env,
    },
    /// The type of an expression, which may be a name that is not there.
    TypeOf {
        place: usize,
        env: Env,
    },
    /// An expression, for the reference that it is.
    Refer {
        place: usize,
        env: Env,
        next: Referring,
    },
    /// A reference.
    Referred {
        next: Referring,
        env: Env,
        reference: Reference,
    },
    /// The expressions of a list that are left.
    Gather {
        place: usize,
        env: Env,
        values: Items<Value>,
        gathering: Gathering,
    },
    /// The parts of a template that are left.
    Template {
        parts: usize,
        env: Env,
        units: Str,
    },
    /// A part of a template, and those after it.
    TemplatePart {
        part: usize,
        rest: usize,
        env: Env,
        units: Str,
    },
    /// The text after a part of a template, and the parts after it.
    TemplateText {
        part: usize,
        rest: usize,
        env: Env,
        units: Str,
    },
    /// The properties of an object that are left.
    DefineAll {
        properties: usize,
        env: Env,
        object: Object,
    },
    /// A property of an object.
    DefineOne {
        property: usize,
        env: Env,
        object: Object,
    },
    /// The key of a property.
    Key {
        key: usize,
        env: Env,
        next: Keying,
    },
    /// What a key is for.
    Keyed {
        next: Keying,
        env: Env,
        key: Title,
    },
    /// The declarators that are left.
    Declare {
        kind: VariableKind,
        declarators: usize,
        env: Env,
    },
    /// A declarator.
    DeclareOne {
        kind: VariableKind,
        declarator: usize,
        env: Env,
    },
    /// A statement.
    Execute {
        place: usize,
        labels: Labels,
        env: Env,
    },
    /// A statement, if it is there.
    ExecuteIf {
        place: usize,
        env: Env,
    },
    /// A list of statements.
    ExecuteAll {
        place: usize,
        env: Env,
    },
    /// A block before a `catch` clause.
    Try {
        block: usize,
        catch: usize,
        env: Env,
    },
    /// The clauses of a `switch` that are left, of all, for one whose test is equal to the value.
    Select {
        cases: usize,
        all: usize,
        value: Value,
        env: Env,
    },
    /// A clause, and those after it.
    SelectCase {
        case: usize,
        rest: usize,
        all: usize,
        value: Value,
        env: Env,
    },
    /// The clauses from `default` on.
    Default {
        cases: usize,
        env: Env,
    },
    /// A clause, and those after it, for `default`.
    DefaultCase {
        case: usize,
        rest: usize,
        env: Env,
    },
    /// Clauses, one after another.
    Fall {
        cases: usize,
        env: Env,
    },
    /// The statements of a clause.
    ExecuteCase {
        case: usize,
        env: Env,
    },
    /// A `catch` clause.
    Catch {
        catch: usize,
        value: Value,
        env: Env,
    },
    /// The first part of a `for`.
    Start {
        init: usize,
        env: Env,
    },
    /// The test of a loop, before a turn.
    Test {
        test: usize,
        statement: usize,
        labels: Labels,
        env: Env,
    },
    /// A loop after a turn.
    Again {
        statement: usize,
        labels: Labels,
        env: Env,
    },
    /// A loop after a `continue` with a label.
    Continued {
        label: Name,
        statement: usize,
        labels: Labels,
        env: Env,
    },
    /// A loop with `in` or `of` after a `continue` with a label.
    ContinuedPass {
        label: Name,
        round: Boxed<Loop>,
        rest: Boxed<Iteration>,
    },
    /// A statement with a label, after a `break` with one.
    Broken {
        label: usize,
        broken: Name,
    },
    /// A value for the target of a loop.
    Take {
        round: Boxed<Loop>,
        value: Value,
        rest: Boxed<Iteration>,
    },
    /// The parameters of the function with its code here take their arguments.
    BindAll {
        function: usize,
        arguments: Items<Value>,
        env: Env,
    },
    /// The parameters that are left, with their arguments from one on.
    Bind {
        params: usize,
        arguments: Items<Value>,
        next: usize,
        env: Env,
    },
    /// A parameter and those after it.
    BindParam {
        param: usize,
        rest: usize,
        arguments: Items<Value>,
        next: usize,
        env: Env,
    },
    /// The body of a function.
    Run {
        function: usize,
        env: Env,
    },
    /// The statements of a file, as the body of a function.
    RunFile {
        statements: usize,
        env: Env,
    },
    /// What is done in an environment.
    Within {
        next: Scoped,
        env: Env,
    },
}

/// What the machine does next.
#[derive(Drop)]
pub enum Control {
    /// A part of the code begins.
    Begin(Task),
    /// A completion for what waits.
    Give(Completion),
    /// A refusal, for which nothing waits.
    Refuse(Kind),
    /// What needs the store.
    Do(Action),
    /// A step is asked for.
    Enter(Entry),
}

/// What waits for a value; any other completion passes it by.
#[derive(Drop)]
pub enum Pending {
    /// The object of a member by name.
    NamedMember {
        name: usize,
    },
    /// The object of a member by expression.
    MemberObject {
        key: usize,
        env: Env,
    },
    /// The key of a member.
    MemberKey {
        base: Value,
    },
    /// What is constructed.
    Constructor {
        arguments: usize,
        env: Env,
    },
    /// The callee of a call.
    Callee {
        arguments: usize,
        env: Env,
        this: Value,
    },
    /// An expression of a list.
    Item {
        rest: usize,
        env: Env,
        values: Items<Value>,
        gathering: Gathering,
    },
    /// The operand of a unary operator.
    Operand {
        operator: UnaryOperator,
    },
    /// The left operand of a binary operator.
    Left {
        operator: BinaryOperator,
        right: usize,
        env: Env,
    },
    /// The right operand.
    Right {
        operator: BinaryOperator,
        left: Value,
    },
    /// The left operand of a logical operator.
    Logical {
        operator: LogicalOperator,
        right: usize,
        env: Env,
    },
    /// A condition.
    Conditional {
        holds: usize,
        fails: usize,
        env: Env,
    },
    /// What stands before a comma.
    Comma {
        right: usize,
        env: Env,
    },
    /// The object of a reference by name.
    ReferNamed {
        name: usize,
        env: Env,
        next: Referring,
    },
    /// The object of a reference by expression.
    ReferObject {
        key: usize,
        env: Env,
        next: Referring,
    },
    /// The key of a reference.
    ReferKey {
        base: Value,
        env: Env,
        next: Referring,
    },
    /// The value of an assignment.
    Put {
        reference: Reference,
        env: Env,
    },
    /// The old value of a reference, before the right side of an assignment by an operator.
    Old {
        operator: BinaryOperator,
        value: usize,
        reference: Reference,
        env: Env,
    },
    /// The right side of such an assignment.
    New {
        operator: BinaryOperator,
        left: Value,
        reference: Reference,
        env: Env,
    },
    /// The old value of a reference that is updated.
    Update {
        prefix: bool,
        operator: UpdateOperator,
        reference: Reference,
        env: Env,
    },
    /// A value in whose place something else is given.
    Instead(Completion),
    /// An expression of a template.
    TemplatePart {
        part: usize,
        rest: usize,
        env: Env,
        units: Str,
    },
    /// A property, before the others.
    Property {
        rest: usize,
        env: Env,
        object: Object,
    },
    /// The value of a property.
    As {
        object: Object,
        key: Title,
    },
    /// The key of a property.
    Key {
        next: Keying,
        env: Env,
    },
    /// The value of a name that is declared.
    BindTo {
        kind: VariableKind,
        name: usize,
        env: Env,
    },
    /// A declarator, before the others.
    Declarator {
        kind: VariableKind,
        rest: usize,
        env: Env,
    },
    /// An expression statement.
    Discard,
    /// A statement, before the others of its list.
    Statement {
        rest: usize,
        env: Env,
    },
    /// The condition of an `if`.
    Choose {
        holds: usize,
        fails: usize,
        env: Env,
    },
    /// The test of a loop, before a turn.
    Turn {
        statement: usize,
        labels: Labels,
        env: Env,
    },
    /// The first part of a `for`.
    Started {
        init: usize,
        test: usize,
        statement: usize,
        labels: Labels,
        env: Env,
    },
    /// The step of a `for`.
    Updated {
        test: usize,
        statement: usize,
        labels: Labels,
        env: Env,
    },
    /// What a loop goes through.
    Subject {
        keys: bool,
        round: Boxed<Loop>,
    },
    /// A target that takes its value.
    Taken {
        round: Boxed<Loop>,
        inner: Env,
        rest: Boxed<Iteration>,
    },
    /// The value of a `switch`.
    Switch {
        cases: usize,
        env: Env,
    },
    /// The test of a clause.
    Tested {
        statements: usize,
        rest: usize,
        all: usize,
        value: Value,
        env: Env,
    },
    /// A clause, before those after it.
    Fallen {
        rest: usize,
        env: Env,
    },
    /// The value of a `return`.
    Return,
    /// The value of a `throw`.
    Throw,
    /// A function that sees its own name.
    OwnName {
        name: usize,
        env: Env,
    },
    /// The value of a parameter.
    Param {
        param: usize,
        rest: usize,
        arguments: Items<Value>,
        next: usize,
        env: Env,
    },
    /// A parameter that takes its value.
    NextParam {
        rest: usize,
        arguments: Items<Value>,
        next: usize,
        env: Env,
    },
    /// The parameters of a function, before its body.
    Bound {
        function: usize,
        env: Env,
    },
}

/// What waits for a completion.
#[derive(Drop)]
pub enum Frame {
    /// What waits for a value.
    Value(Pending),
    /// A loop round its body.
    AfterTurn {
        statement: usize,
        labels: Labels,
        env: Env,
    },
    /// A loop with `in` or `of` round its body.
    AfterPass {
        round: Boxed<Loop>,
        rest: Boxed<Iteration>,
    },
    /// A label round its statement.
    AfterLabel {
        label: usize,
    },
    /// A `switch` round its clauses.
    AfterSwitch,
    /// A `catch` clause.
    Catch {
        catch: usize,
        env: Env,
    },
    /// The block of a `finally`.
    Finally {
        block: usize,
        env: Env,
    },
    /// A call, or a file, round its body.
    AfterCall,
    /// A construction of this object round its body.
    AfterConstruct {
        made: Object,
    },
    /// `require` round the file that it starts.
    AfterStart {
        file: usize,
    },
}

/// What a step that is asked for goes to.
#[derive(Drop)]
pub enum Step {
    /// To what is next.
    Go(Control),
    /// To what is next, before what waits for it.
    Push(Frame, Control),
}

/// Where the machine can't go on by itself.
#[derive(Drop)]
pub enum Rest {
    /// All is done.
    Completed(Completion),
    /// All is refused.
    Refused(Kind),
    /// A step is asked for.
    Asks(Entry),
}
