ghost use Rattle.std.specs.Prelude.{◌≡◌, ◌∷◌, [], codes, false};
ghost use Rattle.js_tree.specs.Tree.{plain_expr, plain_pattern};
ghost use Rattle.js_text.specs.declared.punctuator.Punctuator.TheVariants as P;
ghost use Rattle.js_reading.specs.Makes.{loc_of};
ghost use Rattle.js_reading.specs.Productions as grammar;
ghost use Rattle.js_layout.specs.Neat.{neat_expr};
ghost use Rattle.js_layout.specs.Tokens as tokens;
ghost use Rattle.js_sheet.specs.Pairs.{own_pair};
ghost use Rattle.js_sheet.specs.Stands.{at, Puts};

use crate::sheet::Sheet;
use cov_base::Sink;
use js_text::Punctuator;
use js_tree::{
    AssignmentOperator, BinaryOperator, Expr, ExprNode, Identifier, Loc, LogicalOperator, Pattern,
    PatternNode, UnaryOperator, UpdateOperator, VariableKind,
};

/// How a boolean is spelt.
pub fn truth(value: bool) -> &'static str
    ensures { result.now ≡ tokens.truth value }
{
    if value { "true" } else { "false" }
}

/// The place of an expression in its parentheses.
#[cycle(place)]
#[tactic(auto, using(js_tree::proofs::Equations::tree_rules))]
fn place_of(expr: &Expr) -> Option<Loc>
    ensures { result ≡ loc_of (neat_expr (plain_expr expr.now)) }
{
    match &expr.node {
        ExprNode::Parenthesized(inner) => place_of(inner.get()),
        ExprNode::IdentifierReference(_) => expr.loc,
        ExprNode::This => expr.loc,
        ExprNode::NullLiteral => expr.loc,
        ExprNode::BooleanLiteral(_) => expr.loc,
        ExprNode::NumericLiteral(_) => expr.loc,
        ExprNode::StringLiteral(_) => expr.loc,
        ExprNode::ArrayLiteral(_) => expr.loc,
        ExprNode::ObjectLiteral(_) => expr.loc,
        ExprNode::FunctionExpression(_, _) => expr.loc,
        ExprNode::ArrowFunction(_, _) => expr.loc,
        ExprNode::RegularExpressionLiteral(_, _) => expr.loc,
        ExprNode::TemplateLiteral(_, _) => expr.loc,
        ExprNode::NamedMember(_, _) => expr.loc,
        ExprNode::ComputedMember(_, _) => expr.loc,
        ExprNode::New(_, _) => expr.loc,
        ExprNode::Call(_, _) => expr.loc,
        ExprNode::PostfixUpdate(_, _) => expr.loc,
        ExprNode::PrefixUpdate(_, _) => expr.loc,
        ExprNode::Unary(_, _) => expr.loc,
        ExprNode::Binary(_, _, _) => expr.loc,
        ExprNode::Logical(_, _, _) => expr.loc,
        ExprNode::Conditional(_, _, _) => expr.loc,
        ExprNode::Assignment(_, _, _) => expr.loc,
        ExprNode::Comma(_, _) => expr.loc,
    }
}

/// The place of an expression's own pair of parentheses, where it has one.
#[tactic(auto, using(js_tree::proofs::Equations::tree_rules))]
pub fn own_place(expr: &Expr) -> Option<Loc>
    ensures { result ≡ own_pair (plain_expr expr.now) }
{
    match &expr.node {
        ExprNode::Parenthesized(_) => expr.loc,
        _ => None,
    }
}

/// The place with which its pair goes, its own or another.
pub fn pair_place(expr: &Expr) -> Option<Loc>
    ensures { result ≡ tokens.pair_of (own_pair (plain_expr expr.now)) (neat_expr (plain_expr expr.now)) }
{
    match own_place(expr) {
        Some(loc) => Some(loc),
        None => place_of(expr),
    }
}

/// Prints the head of a `for` as far as its parenthesis.
pub fn put_for_head<S: Sink>(to: &mut Sheet, sink: &mut S, loc: Option<Loc>)
    ensures { Puts (at to.old (S.taken sink.old) (S.faults sink.old)) (at to.new (S.taken sink.new) (S.faults sink.new)) (tokens.word loc (codes "for") ∷ tokens.mark loc P.OpenParenthesis ∷ []) }
{
    to.word(sink, loc, "for");
    to.mark(sink, loc, Punctuator::OpenParenthesis)
}

/// Prints `function`.
pub fn put_function<S: Sink>(to: &mut Sheet, sink: &mut S, loc: Option<Loc>)
    ensures { Puts (at to.old (S.taken sink.old) (S.faults sink.old)) (at to.new (S.taken sink.new) (S.faults sink.new)) (tokens.word loc (codes "function") ∷ []) }
{
    to.word(sink, loc, "function");
}

/// Prints `continue`.
pub fn put_continue<S: Sink>(to: &mut Sheet, sink: &mut S, loc: Option<Loc>)
    ensures { Puts (at to.old (S.taken sink.old) (S.faults sink.old)) (at to.new (S.taken sink.new) (S.faults sink.new)) (tokens.word loc (codes "continue") ∷ []) }
{
    to.word(sink, loc, "continue");
}

/// Prints `debugger`.
pub fn put_debugger<S: Sink>(to: &mut Sheet, sink: &mut S, loc: Option<Loc>)
    ensures { Puts (at to.old (S.taken sink.old) (S.faults sink.old)) (at to.new (S.taken sink.new) (S.faults sink.new)) (tokens.word loc (codes "debugger") ∷ []) }
{
    to.word(sink, loc, "debugger");
}

/// Prints a name, where there is one.
pub fn label<S: Sink>(to: &mut Sheet, sink: &mut S, loc: Option<Loc>, name: &Option<Identifier>)
    ensures { Puts (at to.old (S.taken sink.old) (S.faults sink.old)) (at to.new (S.taken sink.new) (S.faults sink.new)) (tokens.label_tokens loc name.now) }
{
    match name {
        None => {}
        Some(name) => to.word(sink, loc, name.name.as_str()),
    }
}

/// Prints what a declaration binds.
#[tactic(auto, using(js_tree::proofs::Equations::tree_rules))]
pub fn pattern<S: Sink>(to: &mut Sheet, sink: &mut S, loc: Option<Loc>, pattern: &Pattern)
    ensures { Puts (at to.old (S.taken sink.old) (S.faults sink.old)) (at to.new (S.taken sink.new) (S.faults sink.new)) (tokens.pattern_tokens loc (plain_pattern pattern.now)) }
{
    match &pattern.node {
        PatternNode::BindingIdentifier(name) => to.word(sink, loc, name.as_str()),
    }
}

/// Prints a binary operator.
pub fn put_binary_sign<S: Sink>(
    to: &mut Sheet,
    sink: &mut S,
    loc: Option<Loc>,
    operator: BinaryOperator,
)
    ensures { Puts (at to.old (S.taken sink.old) (S.faults sink.old)) (at to.new (S.taken sink.new) (S.faults sink.new)) (tokens.token loc (grammar.sign_of operator) ∷ []) }
{
    match operator {
        BinaryOperator::Exponentiate => to.mark(sink, loc, Punctuator::Exponent),
        BinaryOperator::Multiply => to.mark(sink, loc, Punctuator::Star),
        BinaryOperator::Divide => to.mark(sink, loc, Punctuator::Slash),
        BinaryOperator::Remainder => to.mark(sink, loc, Punctuator::Percent),
        BinaryOperator::Add => to.mark(sink, loc, Punctuator::Plus),
        BinaryOperator::Subtract => to.mark(sink, loc, Punctuator::Minus),
        BinaryOperator::LeftShift => to.mark(sink, loc, Punctuator::ShiftLeft),
        BinaryOperator::SignedRightShift => to.mark(sink, loc, Punctuator::ShiftRight),
        BinaryOperator::UnsignedRightShift => to.mark(sink, loc, Punctuator::UnsignedShiftRight),
        BinaryOperator::LessThan => to.mark(sink, loc, Punctuator::LessThan),
        BinaryOperator::GreaterThan => to.mark(sink, loc, Punctuator::GreaterThan),
        BinaryOperator::LessThanOrEqual => to.mark(sink, loc, Punctuator::LessOrEqual),
        BinaryOperator::GreaterThanOrEqual => to.mark(sink, loc, Punctuator::GreaterOrEqual),
        BinaryOperator::InstanceOf => to.word(sink, loc, "instanceof"),
        BinaryOperator::In => to.word(sink, loc, "in"),
        BinaryOperator::Equal => to.mark(sink, loc, Punctuator::Equal),
        BinaryOperator::NotEqual => to.mark(sink, loc, Punctuator::NotEqual),
        BinaryOperator::StrictEqual => to.mark(sink, loc, Punctuator::StrictEqual),
        BinaryOperator::StrictNotEqual => to.mark(sink, loc, Punctuator::StrictNotEqual),
        BinaryOperator::BitwiseAnd => to.mark(sink, loc, Punctuator::Ampersand),
        BinaryOperator::BitwiseXor => to.mark(sink, loc, Punctuator::Caret),
        BinaryOperator::BitwiseOr => to.mark(sink, loc, Punctuator::Bar),
    }
}

/// Prints a logical operator.
pub fn put_logical_sign<S: Sink>(
    to: &mut Sheet,
    sink: &mut S,
    loc: Option<Loc>,
    operator: LogicalOperator,
)
    ensures { Puts (at to.old (S.taken sink.old) (S.faults sink.old)) (at to.new (S.taken sink.new) (S.faults sink.new)) (tokens.mark loc (grammar.logical_sign operator) ∷ []) }
{
    match operator {
        LogicalOperator::And => to.mark(sink, loc, Punctuator::LogicalAnd),
        LogicalOperator::Or => to.mark(sink, loc, Punctuator::LogicalOr),
        LogicalOperator::Coalesce => to.mark(sink, loc, Punctuator::Coalesce),
    }
}

/// Prints an assignment operator.
pub fn put_assignment_sign<S: Sink>(
    to: &mut Sheet,
    sink: &mut S,
    loc: Option<Loc>,
    operator: AssignmentOperator,
)
    ensures { Puts (at to.old (S.taken sink.old) (S.faults sink.old)) (at to.new (S.taken sink.new) (S.faults sink.new)) (tokens.mark loc (grammar.assignment_sign operator) ∷ []) }
{
    match operator {
        AssignmentOperator::Assign => to.mark(sink, loc, Punctuator::Assign),
        AssignmentOperator::ExponentiateAssign => to.mark(sink, loc, Punctuator::ExponentAssign),
        AssignmentOperator::MultiplyAssign => to.mark(sink, loc, Punctuator::MultiplyAssign),
        AssignmentOperator::DivideAssign => to.mark(sink, loc, Punctuator::DivideAssign),
        AssignmentOperator::RemainderAssign => to.mark(sink, loc, Punctuator::RemainderAssign),
        AssignmentOperator::AddAssign => to.mark(sink, loc, Punctuator::AddAssign),
        AssignmentOperator::SubtractAssign => to.mark(sink, loc, Punctuator::SubtractAssign),
        AssignmentOperator::LeftShiftAssign => to.mark(sink, loc, Punctuator::ShiftLeftAssign),
        AssignmentOperator::SignedRightShiftAssign => to.mark(
            sink,
            loc,
            Punctuator::ShiftRightAssign,
        ),
        AssignmentOperator::UnsignedRightShiftAssign => to.mark(
            sink,
            loc,
            Punctuator::UnsignedShiftRightAssign,
        ),
        AssignmentOperator::BitwiseAndAssign => to.mark(sink, loc, Punctuator::AndAssign),
        AssignmentOperator::BitwiseXorAssign => to.mark(sink, loc, Punctuator::XorAssign),
        AssignmentOperator::BitwiseOrAssign => to.mark(sink, loc, Punctuator::OrAssign),
    }
}

/// Prints a unary operator.
pub fn put_unary_sign<S: Sink>(
    to: &mut Sheet,
    sink: &mut S,
    loc: Option<Loc>,
    operator: UnaryOperator,
)
    ensures { Puts (at to.old (S.taken sink.old) (S.faults sink.old)) (at to.new (S.taken sink.new) (S.faults sink.new)) (tokens.token loc (grammar.prefix_of operator) ∷ []) }
{
    match operator {
        UnaryOperator::Delete => to.word(sink, loc, "delete"),
        UnaryOperator::Void => to.word(sink, loc, "void"),
        UnaryOperator::TypeOf => to.word(sink, loc, "typeof"),
        UnaryOperator::Plus => to.mark(sink, loc, Punctuator::Plus),
        UnaryOperator::Minus => to.mark(sink, loc, Punctuator::Minus),
        UnaryOperator::BitwiseNot => to.mark(sink, loc, Punctuator::Tilde),
        UnaryOperator::LogicalNot => to.mark(sink, loc, Punctuator::Exclamation),
    }
}

/// Prints an update operator.
pub fn put_update_sign<S: Sink>(
    to: &mut Sheet,
    sink: &mut S,
    loc: Option<Loc>,
    operator: UpdateOperator,
)
    ensures { Puts (at to.old (S.taken sink.old) (S.faults sink.old)) (at to.new (S.taken sink.new) (S.faults sink.new)) (tokens.mark loc (grammar.update_of operator) ∷ []) }
{
    match operator {
        UpdateOperator::Increment => to.mark(sink, loc, Punctuator::Increment),
        UpdateOperator::Decrement => to.mark(sink, loc, Punctuator::Decrement),
    }
}

/// Prints the word of a declaration.
pub fn put_variable_word<S: Sink>(
    to: &mut Sheet,
    sink: &mut S,
    loc: Option<Loc>,
    kind: VariableKind,
)
    ensures { Puts (at to.old (S.taken sink.old) (S.faults sink.old)) (at to.new (S.taken sink.new) (S.faults sink.new)) (tokens.word loc (grammar.variable_word kind) ∷ []) }
{
    match kind {
        VariableKind::Var => to.word(sink, loc, "var"),
        VariableKind::Let => to.word(sink, loc, "let"),
        VariableKind::Const => to.word(sink, loc, "const"),
    }
}
