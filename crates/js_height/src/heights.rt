ghost use Rattle.std.specs.Prelude.{◌≡◌, ◌+◌, ◌-◌, ◌^◌, max, min};
ghost use Rattle.js_height.specs.private.Held.{held};
ghost use Rattle.js_tree.specs.Height.{height_file, height_expr, height_stmt, height_property, height_property_key, height_concise_body, height_for_init, height_for_target, height_template_part, height_function, height_function_body, height_param, height_declarator, height_case, height_catch, height_pattern, height_pattern_if, height_expr_if, height_stmt_if, height_template_parts, height_properties, height_params, height_exprs, height_stmts, height_declarators, height_cases};
ghost use Rattle.js_tree.specs.Tree.{plain_file, plain_expr, plain_stmt, plain_property, plain_property_key, plain_concise_body, plain_for_init, plain_for_target, plain_template_part, plain_function, plain_function_body, plain_param, plain_declarator, plain_case, plain_catch, plain_pattern, plain_pattern_if, plain_expr_if, plain_stmt_if, plain_template_parts, plain_properties, plain_params, plain_exprs, plain_stmts, plain_declarators, plain_cases};

use items::Boxed;
use js_tree::{
    Case, Catch, ConciseBody, Declarator, Expr, ExprNode, File, ForInit, ForTarget, Function,
    FunctionBody, Param, Pattern, PatternNode, Property, PropertyKey, PropertyNode, Stmt, StmtNode,
    TemplatePart,
};

/// How many nodes of a file stand each inside the one before, at most: a number above 2^64 - 1
/// stands as 2^64 - 1.
///
/// A name, a literal, `this`, an empty or `debugger` statement, `break`, `continue` and a bare
/// `return` are 1 high. Every other statement, expression, pair of parentheses, function, case,
/// property, declarator and parameter with a default is one more than its highest part, and 1 where
/// it has none. A declaration or an expression that is a function is so once; a method is a property
/// and the function in it. It takes no memory.
#[tactic(auto, using(crate::proofs::Held::height_rules, crate::proofs::Held::held_least))]
pub fn height(file: &File) -> u64
    ensures { result ≡ min (height_file (plain_file file.now)) (2 ^ 64 - 1) }
{
    of_stmts(file.body.as_slice())
}

/// The height of a node whose highest part has this one.
fn above(part: u64) -> u64
    ensures { result ≡ min (part + 1) (2 ^ 64 - 1) }
{
    part.saturating_add(1)
}

/// The height of a node with two parts.
fn above_two(first: u64, second: u64) -> u64
    ensures { result ≡ min (max first second + 1) (2 ^ 64 - 1) }
{
    above(first.max(second))
}

/// The height of a node with three parts.
fn above_three(first: u64, second: u64, third: u64) -> u64
    ensures { result ≡ min (max first (max second third) + 1) (2 ^ 64 - 1) }
{
    above(first.max(second.max(third)))
}

#[cycle(height)]
#[tactic(auto, using(crate::proofs::Held::height_rules))]
fn of_expr(expr: &Expr) -> u64
    ensures { result ≡ held (height_expr (plain_expr expr.now)) }
{
    match &expr.node {
        ExprNode::IdentifierReference(_) => 1,
        ExprNode::This => 1,
        ExprNode::NullLiteral => 1,
        ExprNode::BooleanLiteral(_) => 1,
        ExprNode::NumericLiteral(_) => 1,
        ExprNode::StringLiteral(_) => 1,
        ExprNode::ArrayLiteral(items) => above(of_exprs(items.as_slice())),
        ExprNode::ObjectLiteral(properties) => above(of_properties(properties.as_slice())),
        ExprNode::FunctionExpression(_, function) => of_function(function.get()),
        ExprNode::ArrowFunction(params, body) => above_two(
            of_params(params.as_slice()),
            of_concise_body(body.get()),
        ),
        ExprNode::RegularExpressionLiteral(_, _) => 1,
        ExprNode::TemplateLiteral(_, parts) => above(of_template_parts(parts.as_slice())),
        ExprNode::Parenthesized(inner) => above(of_expr(inner.get())),
        ExprNode::NamedMember(object, _) => above(of_expr(object.get())),
        ExprNode::ComputedMember(object, key) => above_two(
            of_expr(object.get()),
            of_expr(key.get()),
        ),
        ExprNode::New(constructor, arguments) => above_two(
            of_expr(constructor.get()),
            of_exprs(arguments.as_slice()),
        ),
        ExprNode::Call(callee, arguments) => above_two(
            of_expr(callee.get()),
            of_exprs(arguments.as_slice()),
        ),
        ExprNode::PostfixUpdate(_, operand) => above(of_expr(operand.get())),
        ExprNode::PrefixUpdate(_, operand) => above(of_expr(operand.get())),
        ExprNode::Unary(_, operand) => above(of_expr(operand.get())),
        ExprNode::Binary(_, left, right) => above_two(of_expr(left.get()), of_expr(right.get())),
        ExprNode::Logical(_, left, right) => above_two(of_expr(left.get()), of_expr(right.get())),
        ExprNode::Conditional(test, then, otherwise) => above_three(
            of_expr(test.get()),
            of_expr(then.get()),
            of_expr(otherwise.get()),
        ),
        ExprNode::Assignment(_, target, value) => above_two(
            of_expr(target.get()),
            of_expr(value.get()),
        ),
        ExprNode::Comma(left, right) => above_two(of_expr(left.get()), of_expr(right.get())),
    }
}

#[cycle(height)]
#[tactic(auto, using(crate::proofs::Held::height_rules))]
fn of_stmt(stmt: &Stmt) -> u64
    ensures { result ≡ held (height_stmt (plain_stmt stmt.now)) }
{
    match &stmt.node {
        StmtNode::Directive(_) => 2,
        StmtNode::Block(statements) => above(of_stmts(statements.as_slice())),
        StmtNode::VariableDeclaration(_, declarators) => above(of_declarators(
            declarators.as_slice(),
        )),
        StmtNode::Empty => 1,
        StmtNode::Expression(expression) => above(of_expr(expression.get())),
        StmtNode::If(test, then, otherwise) => above_three(
            of_expr(test.get()),
            of_stmt(then.get()),
            of_stmt_if(otherwise),
        ),
        StmtNode::DoWhile(body, test) => above_two(of_stmt(body.get()), of_expr(test.get())),
        StmtNode::While(test, body) => above_two(of_expr(test.get()), of_stmt(body.get())),
        StmtNode::For(init, test, update, body) => above_three(
            of_for_init(init.get()),
            of_expr_if(test),
            of_expr_if(update).max(of_stmt(body.get())),
        ),
        StmtNode::ForIn(target, object, body) => above_three(
            of_for_target(target.get()),
            of_expr(object.get()),
            of_stmt(body.get()),
        ),
        StmtNode::ForOf(target, iterable, body) => above_three(
            of_for_target(target.get()),
            of_expr(iterable.get()),
            of_stmt(body.get()),
        ),
        StmtNode::Continue(_) => 1,
        StmtNode::Break(_) => 1,
        StmtNode::Return(value) => above(of_expr_if(value)),
        StmtNode::Switch(value, cases) => above_two(
            of_expr(value.get()),
            of_cases(cases.as_slice()),
        ),
        StmtNode::Labelled(_, body) => above(of_stmt(body.get())),
        StmtNode::Throw(value) => above(of_expr(value.get())),
        StmtNode::TryCatch(block, catch) => above_two(
            of_stmts(block.as_slice()),
            of_catch(catch.get()),
        ),
        StmtNode::TryFinally(block, finally) => above_two(
            of_stmts(block.as_slice()),
            of_stmts(finally.as_slice()),
        ),
        StmtNode::TryCatchFinally(block, catch, finally) => above_three(
            of_stmts(block.as_slice()),
            of_catch(catch.get()),
            of_stmts(finally.as_slice()),
        ),
        StmtNode::Debugger => 1,
        StmtNode::FunctionDeclaration(_, function) => of_function(function.get()),
    }
}

#[cycle(height)]
#[tactic(auto, using(crate::proofs::Held::height_rules))]
fn of_property(property: &Property) -> u64
    ensures { result ≡ held (height_property (plain_property property.now)) }
{
    match &property.node {
        PropertyNode::Shorthand(_) => 2,
        PropertyNode::KeyValue(key, value) => above_two(of_property_key(key), of_expr(value.get())),
        PropertyNode::Method(key, function) => above_two(
            of_property_key(key),
            of_function(function.get()),
        ),
    }
}

#[cycle(height)]
#[tactic(auto, using(crate::proofs::Held::height_rules))]
fn of_property_key(property_key: &PropertyKey) -> u64
    ensures { result ≡ held (height_property_key (plain_property_key property_key.now)) }
{
    match property_key {
        PropertyKey::NameKey(_) => 0,
        PropertyKey::StringKey(_) => 0,
        PropertyKey::NumberKey(_) => 0,
        PropertyKey::ComputedKey(key) => of_expr(key.get()),
    }
}

#[cycle(height)]
#[tactic(auto, using(crate::proofs::Held::height_rules))]
fn of_concise_body(concise_body: &ConciseBody) -> u64
    ensures { result ≡ held (height_concise_body (plain_concise_body concise_body.now)) }
{
    match concise_body {
        ConciseBody::ExpressionBody(value) => of_expr(value),
        ConciseBody::BlockBody(body) => of_function_body(body),
    }
}

#[cycle(height)]
#[tactic(auto, using(crate::proofs::Held::height_rules))]
fn of_for_init(for_init: &ForInit) -> u64
    ensures { result ≡ held (height_for_init (plain_for_init for_init.now)) }
{
    match for_init {
        ForInit::NoInit => 0,
        ForInit::InitDeclaration(_, declarators) => of_declarators(declarators.as_slice()),
        ForInit::InitExpression(expression) => of_expr(expression.get()),
    }
}

#[cycle(height)]
#[tactic(auto, using(crate::proofs::Held::height_rules))]
fn of_for_target(for_target: &ForTarget) -> u64
    ensures { result ≡ held (height_for_target (plain_for_target for_target.now)) }
{
    match for_target {
        ForTarget::TargetDeclaration(_, pattern) => of_pattern(pattern),
        ForTarget::TargetExpression(target) => of_expr(target.get()),
    }
}

#[cycle(height)]
#[tactic(auto, using(crate::proofs::Held::height_rules))]
fn of_template_part(template_part: &TemplatePart) -> u64
    ensures { result ≡ held (height_template_part (plain_template_part template_part.now)) }
{
    of_expr(&template_part.value)
}

#[cycle(height)]
#[tactic(auto, using(crate::proofs::Held::height_rules))]
fn of_function(function: &Function) -> u64
    ensures { result ≡ held (height_function (plain_function function.now)) }
{
    above_two(
        of_params(function.params.as_slice()),
        of_function_body(&function.body),
    )
}

#[cycle(height)]
#[tactic(auto, using(crate::proofs::Held::height_rules))]
fn of_function_body(function_body: &FunctionBody) -> u64
    ensures { result ≡ held (height_function_body (plain_function_body function_body.now)) }
{
    of_stmts(function_body.statements.as_slice())
}

#[cycle(height)]
#[tactic(auto, using(crate::proofs::Held::param_rules))]
fn of_param(param: &Param) -> u64
    ensures { result ≡ held (height_param (plain_param param.now)) }
{
    match &param.default {
        None => of_pattern(&param.pattern),
        Some(default) => above_two(of_pattern(&param.pattern), of_expr(default.get())),
    }
}

#[cycle(height)]
#[tactic(auto, using(crate::proofs::Held::height_rules))]
fn of_declarator(declarator: &Declarator) -> u64
    ensures { result ≡ held (height_declarator (plain_declarator declarator.now)) }
{
    above_two(
        of_pattern(&declarator.pattern),
        of_expr_if(&declarator.initializer),
    )
}

#[cycle(height)]
#[tactic(auto, using(crate::proofs::Held::height_rules))]
fn of_case(case: &Case) -> u64
    ensures { result ≡ held (height_case (plain_case case.now)) }
{
    above_two(of_expr_if(&case.test), of_stmts(case.statements.as_slice()))
}

#[cycle(height)]
#[tactic(auto, using(crate::proofs::Held::height_rules))]
fn of_catch(catch: &Catch) -> u64
    ensures { result ≡ held (height_catch (plain_catch catch.now)) }
{
    of_pattern_if(&catch.parameter).max(of_stmts(catch.statements.as_slice()))
}

#[tactic(auto, using(crate::proofs::Held::height_rules))]
fn of_pattern(pattern: &Pattern) -> u64
    ensures { result ≡ held (height_pattern (plain_pattern pattern.now)) }
{
    match &pattern.node {
        PatternNode::BindingIdentifier(_) => 1,
    }
}

#[tactic(auto, using(crate::proofs::Held::height_rules))]
fn of_pattern_if(pattern: &Option<Pattern>) -> u64
    ensures { result ≡ held (height_pattern_if (plain_pattern_if pattern.now)) }
{
    match pattern {
        None => 0,
        Some(pattern) => of_pattern(pattern),
    }
}

#[cycle(height)]
#[tactic(auto, using(crate::proofs::Held::height_rules))]
fn of_expr_if(expr: &Option<Boxed<Expr>>) -> u64
    ensures { result ≡ held (height_expr_if (plain_expr_if expr.now)) }
{
    match expr {
        None => 0,
        Some(expr) => of_expr(expr.get()),
    }
}

#[cycle(height)]
#[tactic(auto, using(crate::proofs::Held::height_rules))]
fn of_stmt_if(stmt: &Option<Boxed<Stmt>>) -> u64
    ensures { result ≡ held (height_stmt_if (plain_stmt_if stmt.now)) }
{
    match stmt {
        None => 0,
        Some(stmt) => of_stmt(stmt.get()),
    }
}

#[cycle(height)]
#[tactic(auto, using(js_tree::proofs::Equations::tree_rules), unfolding(crate::specs::private::Held::held))]
fn of_template_parts(template_parts: &[TemplatePart]) -> u64
    ensures { result ≡ held (height_template_parts (plain_template_parts template_parts.now)) }
{
    let mut most = 0;
    for template_part in template_parts {
        most = of_template_part(template_part).max(most);
    }
    most
}

#[cycle(height)]
#[tactic(auto, using(js_tree::proofs::Equations::tree_rules), unfolding(crate::specs::private::Held::held))]
fn of_properties(properties: &[Property]) -> u64
    ensures { result ≡ held (height_properties (plain_properties properties.now)) }
{
    let mut most = 0;
    for property in properties {
        most = of_property(property).max(most);
    }
    most
}

#[cycle(height)]
#[tactic(auto, using(js_tree::proofs::Equations::tree_rules), unfolding(crate::specs::private::Held::held))]
fn of_params(params: &[Param]) -> u64
    ensures { result ≡ held (height_params (plain_params params.now)) }
{
    let mut most = 0;
    for param in params {
        most = of_param(param).max(most);
    }
    most
}

#[cycle(height)]
#[tactic(auto, using(js_tree::proofs::Equations::tree_rules), unfolding(crate::specs::private::Held::held))]
fn of_exprs(exprs: &[Expr]) -> u64
    ensures { result ≡ held (height_exprs (plain_exprs exprs.now)) }
{
    let mut most = 0;
    for expr in exprs {
        most = of_expr(expr).max(most);
    }
    most
}

#[cycle(height)]
#[tactic(auto, using(js_tree::proofs::Equations::tree_rules), unfolding(crate::specs::private::Held::held))]
fn of_stmts(stmts: &[Stmt]) -> u64
    ensures { result ≡ held (height_stmts (plain_stmts stmts.now)) }
{
    let mut most = 0;
    for stmt in stmts {
        most = of_stmt(stmt).max(most);
    }
    most
}

#[cycle(height)]
#[tactic(auto, using(js_tree::proofs::Equations::tree_rules), unfolding(crate::specs::private::Held::held))]
fn of_declarators(declarators: &[Declarator]) -> u64
    ensures { result ≡ held (height_declarators (plain_declarators declarators.now)) }
{
    let mut most = 0;
    for declarator in declarators {
        most = of_declarator(declarator).max(most);
    }
    most
}

#[cycle(height)]
#[tactic(auto, using(js_tree::proofs::Equations::tree_rules), unfolding(crate::specs::private::Held::held))]
fn of_cases(cases: &[Case]) -> u64
    ensures { result ≡ held (height_cases (plain_cases cases.now)) }
{
    let mut most = 0;
    for case in cases {
        most = of_case(case).max(most);
    }
    most
}
