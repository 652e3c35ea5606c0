ghost use Rattle.std.specs.Prelude.{◌≡◌, ◌↔◌, IsTrue, false};
ghost use Rattle.js_tree.specs.Same.{is_parenthesized, bare_file, bare_identifier, bare_identifier_if, bare_expr, bare_stmt, bare_property, bare_property_key, bare_concise_body, bare_for_init, bare_for_target, bare_template_part, bare_function, bare_function_body, bare_param, bare_declarator, bare_case, bare_catch, bare_pattern, bare_pattern_if, bare_expr_if, bare_stmt_if, bare_template_parts, bare_properties, bare_params, bare_exprs, bare_stmts, bare_declarators, bare_cases};
ghost use Rattle.js_tree.specs.Tree.{plain_file, plain_expr, plain_stmt, plain_property, plain_property_key, plain_concise_body, plain_for_init, plain_for_target, plain_template_part, plain_function, plain_function_body, plain_param, plain_declarator, plain_case, plain_catch, plain_pattern, plain_pattern_if, plain_expr_if, plain_stmt_if, plain_template_parts, plain_properties, plain_params, plain_exprs, plain_stmts, plain_declarators, plain_cases};

use items::{Boxed, Text};
use js_tree::{
    AssignmentOperator, BinaryOperator, Case, Catch, ConciseBody, Declarator, Expr, ExprNode, File,
    ForInit, ForTarget, Function, FunctionBody, Identifier, LogicalOperator, Param, Pattern,
    PatternNode, Property, PropertyKey, PropertyNode, Spelled, Stmt, StmtNode, TemplatePart,
    UnaryOperator, UpdateOperator, VariableKind,
};

/// Whether two files are equal but for their places, comments and pairs of parentheses. It takes no
/// memory.
#[tactic(auto, using(js_tree::proofs::Equations::tree_rules))]
pub fn same(a: &File, b: &File) -> bool
    ensures { IsTrue result ↔ (bare_file (plain_file a.now) ≡ bare_file (plain_file b.now)) }
{
    same_stmts(a.body.as_slice(), b.body.as_slice())
}

/// The expression without the parentheses round it.
#[tactic(auto, using(js_tree::proofs::Equations::tree_rules))]
fn inner_of(expr: &Expr) -> &Expr
    ensures same { bare_expr (plain_expr result.now) ≡ bare_expr (plain_expr expr.now) }
    ensures inner { is_parenthesized (plain_expr result.now) ≡ false }
{
    match &expr.node {
        ExprNode::Parenthesized(inner) => inner_of(inner.get()),
        _ => expr,
    }
}

fn same_text(a: &Text, b: &Text) -> bool
    ensures { IsTrue result ↔ (a.now ≡ b.now) }
{
    a.as_str() == b.as_str()
}

fn same_spelled(a: &Spelled, b: &Spelled) -> bool
    ensures { IsTrue result ↔ (a.now ≡ b.now) }
{
    same_text(&a.spelling, &b.spelling) && a.units.as_slice() == b.units.as_slice()
}

fn same_identifier(a: &Identifier, b: &Identifier) -> bool
    ensures { IsTrue result ↔ (bare_identifier a.now ≡ bare_identifier b.now) }
{
    same_text(&a.name, &b.name)
}

fn same_identifier_if(a: &Option<Identifier>, b: &Option<Identifier>) -> bool
    ensures { IsTrue result ↔ (bare_identifier_if a.now ≡ bare_identifier_if b.now) }
{
    match (a, b) {
        (None, None) => true,
        (Some(a), Some(b)) => same_identifier(a, b),
        _ => false,
    }
}

fn same_truth(a: bool, b: bool) -> bool
    ensures { IsTrue result ↔ (a ≡ b) }
{
    a == b
}

fn same_unary_operator(a: UnaryOperator, b: UnaryOperator) -> bool
    ensures { IsTrue result ↔ (a ≡ b) }
{
    a == b
}

fn same_update_operator(a: UpdateOperator, b: UpdateOperator) -> bool
    ensures { IsTrue result ↔ (a ≡ b) }
{
    a == b
}

fn same_binary_operator(a: BinaryOperator, b: BinaryOperator) -> bool
    ensures { IsTrue result ↔ (a ≡ b) }
{
    a == b
}

fn same_logical_operator(a: LogicalOperator, b: LogicalOperator) -> bool
    ensures { IsTrue result ↔ (a ≡ b) }
{
    a == b
}

fn same_assignment_operator(a: AssignmentOperator, b: AssignmentOperator) -> bool
    ensures { IsTrue result ↔ (a ≡ b) }
{
    a == b
}

fn same_variable_kind(a: VariableKind, b: VariableKind) -> bool
    ensures { IsTrue result ↔ (a ≡ b) }
{
    a == b
}

#[cycle(same)]
#[tactic(auto, using(js_tree::proofs::Equations::tree_rules))]
fn same_expr(a: &Expr, b: &Expr) -> bool
    ensures { IsTrue result ↔ (bare_expr (plain_expr a.now) ≡ bare_expr (plain_expr b.now)) }
{
    let b = inner_of(b);
    match &a.node {
        ExprNode::IdentifierReference(name) => match &b.node {
            ExprNode::IdentifierReference(other_name) => same_text(name, other_name),
            _ => false,
        },
        ExprNode::This => match &b.node {
            ExprNode::This => true,
            _ => false,
        },
        ExprNode::NullLiteral => match &b.node {
            ExprNode::NullLiteral => true,
            _ => false,
        },
        ExprNode::BooleanLiteral(value) => match &b.node {
            ExprNode::BooleanLiteral(other_value) => same_truth(*value, *other_value),
            _ => false,
        },
        ExprNode::NumericLiteral(spelling) => match &b.node {
            ExprNode::NumericLiteral(other_spelling) => same_text(spelling, other_spelling),
            _ => false,
        },
        ExprNode::StringLiteral(string) => match &b.node {
            ExprNode::StringLiteral(other_string) => same_spelled(string, other_string),
            _ => false,
        },
        ExprNode::ArrayLiteral(items) => match &b.node {
            ExprNode::ArrayLiteral(other_items) => same_exprs(
                items.as_slice(),
                other_items.as_slice(),
            ),
            _ => false,
        },
        ExprNode::ObjectLiteral(properties) => match &b.node {
            ExprNode::ObjectLiteral(other_properties) => same_properties(
                properties.as_slice(),
                other_properties.as_slice(),
            ),
            _ => false,
        },
        ExprNode::FunctionExpression(name, function) => match &b.node {
            ExprNode::FunctionExpression(other_name, other_function) => same_identifier_if(
                name, other_name,
            ) && same_function(function.get(), other_function.get()),
            _ => false,
        },
        ExprNode::ArrowFunction(params, body) => match &b.node {
            ExprNode::ArrowFunction(other_params, other_body) => same_params(
                params.as_slice(),
                other_params.as_slice(),
            ) && same_concise_body(body.get(), other_body.get()),
            _ => false,
        },
        ExprNode::RegularExpressionLiteral(body, flags) => match &b.node {
            ExprNode::RegularExpressionLiteral(other_body, other_flags) => same_text(
                body, other_body,
            ) && same_text(flags, other_flags),
            _ => false,
        },
        ExprNode::TemplateLiteral(head, parts) => match &b.node {
            ExprNode::TemplateLiteral(other_head, other_parts) => same_spelled(head, other_head)
                && same_template_parts(parts.as_slice(), other_parts.as_slice()),
            _ => false,
        },
        ExprNode::Parenthesized(inner) => same_expr(inner.get(), b),
        ExprNode::NamedMember(object, name) => match &b.node {
            ExprNode::NamedMember(other_object, other_name) => same_expr(
                object.get(),
                other_object.get(),
            ) && same_text(name, other_name),
            _ => false,
        },
        ExprNode::ComputedMember(object, key) => match &b.node {
            ExprNode::ComputedMember(other_object, other_key) => same_expr(
                object.get(),
                other_object.get(),
            ) && same_expr(key.get(), other_key.get()),
            _ => false,
        },
        ExprNode::New(constructor, arguments) => match &b.node {
            ExprNode::New(other_constructor, other_arguments) => same_expr(
                constructor.get(),
                other_constructor.get(),
            ) && same_exprs(arguments.as_slice(), other_arguments.as_slice()),
            _ => false,
        },
        ExprNode::Call(callee, arguments) => match &b.node {
            ExprNode::Call(other_callee, other_arguments) => same_expr(
                callee.get(),
                other_callee.get(),
            ) && same_exprs(arguments.as_slice(), other_arguments.as_slice()),
            _ => false,
        },
        ExprNode::PostfixUpdate(operator, operand) => match &b.node {
            ExprNode::PostfixUpdate(other_operator, other_operand) => same_update_operator(
                *operator,
                *other_operator,
            ) && same_expr(operand.get(), other_operand.get()),
            _ => false,
        },
        ExprNode::PrefixUpdate(operator, operand) => match &b.node {
            ExprNode::PrefixUpdate(other_operator, other_operand) => same_update_operator(
                *operator,
                *other_operator,
            ) && same_expr(operand.get(), other_operand.get()),
            _ => false,
        },
        ExprNode::Unary(operator, operand) => match &b.node {
            ExprNode::Unary(other_operator, other_operand) => same_unary_operator(
                *operator,
                *other_operator,
            ) && same_expr(operand.get(), other_operand.get()),
            _ => false,
        },
        ExprNode::Binary(operator, left, right) => match &b.node {
            ExprNode::Binary(other_operator, other_left, other_right) => same_binary_operator(
                *operator,
                *other_operator,
            ) && same_expr(left.get(), other_left.get())
                && same_expr(right.get(), other_right.get()),
            _ => false,
        },
        ExprNode::Logical(operator, left, right) => match &b.node {
            ExprNode::Logical(other_operator, other_left, other_right) => same_logical_operator(
                *operator,
                *other_operator,
            ) && same_expr(left.get(), other_left.get())
                && same_expr(right.get(), other_right.get()),
            _ => false,
        },
        ExprNode::Conditional(test, then, otherwise) => match &b.node {
            ExprNode::Conditional(other_test, other_then, other_otherwise) => same_expr(
                test.get(),
                other_test.get(),
            ) && same_expr(then.get(), other_then.get())
                && same_expr(otherwise.get(), other_otherwise.get()),
            _ => false,
        },
        ExprNode::Assignment(operator, target, value) => match &b.node {
            ExprNode::Assignment(other_operator, other_target, other_value) =>
                same_assignment_operator(*operator, *other_operator)
                    && same_expr(target.get(), other_target.get())
                    && same_expr(value.get(), other_value.get()),
            _ => false,
        },
        ExprNode::Comma(left, right) => match &b.node {
            ExprNode::Comma(other_left, other_right) => same_expr(left.get(), other_left.get())
                && same_expr(right.get(), other_right.get()),
            _ => false,
        },
    }
}

#[cycle(same)]
#[tactic(auto, using(js_tree::proofs::Equations::tree_rules))]
fn same_stmt(a: &Stmt, b: &Stmt) -> bool
    ensures { IsTrue result ↔ (bare_stmt (plain_stmt a.now) ≡ bare_stmt (plain_stmt b.now)) }
{
    match &a.node {
        StmtNode::Directive(string) => match &b.node {
            StmtNode::Directive(other_string) => same_spelled(string, other_string),
            _ => false,
        },
        StmtNode::Block(statements) => match &b.node {
            StmtNode::Block(other_statements) => same_stmts(
                statements.as_slice(),
                other_statements.as_slice(),
            ),
            _ => false,
        },
        StmtNode::VariableDeclaration(kind, declarators) => match &b.node {
            StmtNode::VariableDeclaration(other_kind, other_declarators) => same_variable_kind(
                *kind,
                *other_kind,
            ) && same_declarators(declarators.as_slice(), other_declarators.as_slice()),
            _ => false,
        },
        StmtNode::Empty => match &b.node {
            StmtNode::Empty => true,
            _ => false,
        },
        StmtNode::Expression(expression) => match &b.node {
            StmtNode::Expression(other_expression) => same_expr(
                expression.get(),
                other_expression.get(),
            ),
            _ => false,
        },
        StmtNode::If(test, then, otherwise) => match &b.node {
            StmtNode::If(other_test, other_then, other_otherwise) => same_expr(
                test.get(),
                other_test.get(),
            ) && same_stmt(then.get(), other_then.get())
                && same_stmt_if(otherwise, other_otherwise),
            _ => false,
        },
        StmtNode::DoWhile(body, test) => match &b.node {
            StmtNode::DoWhile(other_body, other_test) => same_stmt(body.get(), other_body.get())
                && same_expr(test.get(), other_test.get()),
            _ => false,
        },
        StmtNode::While(test, body) => match &b.node {
            StmtNode::While(other_test, other_body) => same_expr(test.get(), other_test.get())
                && same_stmt(body.get(), other_body.get()),
            _ => false,
        },
        StmtNode::For(init, test, update, body) => match &b.node {
            StmtNode::For(other_init, other_test, other_update, other_body) => same_for_init(
                init.get(),
                other_init.get(),
            ) && same_expr_if(test, other_test)
                && same_expr_if(update, other_update)
                && same_stmt(body.get(), other_body.get()),
            _ => false,
        },
        StmtNode::ForIn(target, object, body) => match &b.node {
            StmtNode::ForIn(other_target, other_object, other_body) => same_for_target(
                target.get(),
                other_target.get(),
            ) && same_expr(object.get(), other_object.get())
                && same_stmt(body.get(), other_body.get()),
            _ => false,
        },
        StmtNode::ForOf(target, iterable, body) => match &b.node {
            StmtNode::ForOf(other_target, other_iterable, other_body) => same_for_target(
                target.get(),
                other_target.get(),
            ) && same_expr(iterable.get(), other_iterable.get())
                && same_stmt(body.get(), other_body.get()),
            _ => false,
        },
        StmtNode::Continue(label) => match &b.node {
            StmtNode::Continue(other_label) => same_identifier_if(label, other_label),
            _ => false,
        },
        StmtNode::Break(label) => match &b.node {
            StmtNode::Break(other_label) => same_identifier_if(label, other_label),
            _ => false,
        },
        StmtNode::Return(value) => match &b.node {
            StmtNode::Return(other_value) => same_expr_if(value, other_value),
            _ => false,
        },
        StmtNode::Switch(value, cases) => match &b.node {
            StmtNode::Switch(other_value, other_cases) => same_expr(value.get(), other_value.get())
                && same_cases(cases.as_slice(), other_cases.as_slice()),
            _ => false,
        },
        StmtNode::Labelled(label, body) => match &b.node {
            StmtNode::Labelled(other_label, other_body) => same_identifier(label, other_label)
                && same_stmt(body.get(), other_body.get()),
            _ => false,
        },
        StmtNode::Throw(value) => match &b.node {
            StmtNode::Throw(other_value) => same_expr(value.get(), other_value.get()),
            _ => false,
        },
        StmtNode::TryCatch(block, catch) => match &b.node {
            StmtNode::TryCatch(other_block, other_catch) => same_stmts(
                block.as_slice(),
                other_block.as_slice(),
            ) && same_catch(catch.get(), other_catch.get()),
            _ => false,
        },
        StmtNode::TryFinally(block, finally) => match &b.node {
            StmtNode::TryFinally(other_block, other_finally) => same_stmts(
                block.as_slice(),
                other_block.as_slice(),
            ) && same_stmts(finally.as_slice(), other_finally.as_slice()),
            _ => false,
        },
        StmtNode::TryCatchFinally(block, catch, finally) => match &b.node {
            StmtNode::TryCatchFinally(other_block, other_catch, other_finally) => same_stmts(
                block.as_slice(),
                other_block.as_slice(),
            ) && same_catch(catch.get(), other_catch.get())
                && same_stmts(finally.as_slice(), other_finally.as_slice()),
            _ => false,
        },
        StmtNode::Debugger => match &b.node {
            StmtNode::Debugger => true,
            _ => false,
        },
        StmtNode::FunctionDeclaration(name, function) => match &b.node {
            StmtNode::FunctionDeclaration(other_name, other_function) => same_identifier(
                name, other_name,
            ) && same_function(function.get(), other_function.get()),
            _ => false,
        },
    }
}

#[cycle(same)]
#[tactic(auto, using(js_tree::proofs::Equations::tree_rules))]
fn same_property(a: &Property, b: &Property) -> bool
    ensures { IsTrue result ↔ (bare_property (plain_property a.now) ≡ bare_property (plain_property b.now)) }
{
    match &a.node {
        PropertyNode::Shorthand(name) => match &b.node {
            PropertyNode::Shorthand(other_name) => same_text(name, other_name),
            PropertyNode::KeyValue(_, _) | PropertyNode::Method(_, _) => false,
        },
        PropertyNode::KeyValue(key, value) => match &b.node {
            PropertyNode::KeyValue(other_key, other_value) => same_property_key(key, other_key)
                && same_expr(value.get(), other_value.get()),
            PropertyNode::Shorthand(_) | PropertyNode::Method(_, _) => false,
        },
        PropertyNode::Method(key, function) => match &b.node {
            PropertyNode::Method(other_key, other_function) => same_property_key(key, other_key)
                && same_function(function.get(), other_function.get()),
            PropertyNode::Shorthand(_) | PropertyNode::KeyValue(_, _) => false,
        },
    }
}

#[cycle(same)]
#[tactic(auto, using(js_tree::proofs::Equations::tree_rules))]
fn same_property_key(a: &PropertyKey, b: &PropertyKey) -> bool
    ensures { IsTrue result ↔ (bare_property_key (plain_property_key a.now) ≡ bare_property_key (plain_property_key b.now)) }
{
    match a {
        PropertyKey::NameKey(name) => match b {
            PropertyKey::NameKey(other_name) => same_text(name, other_name),
            PropertyKey::StringKey(_) | PropertyKey::NumberKey(_) | PropertyKey::ComputedKey(_) =>
                false,
        },
        PropertyKey::StringKey(string) => match b {
            PropertyKey::StringKey(other_string) => same_spelled(string, other_string),
            PropertyKey::NameKey(_) | PropertyKey::NumberKey(_) | PropertyKey::ComputedKey(_) =>
                false,
        },
        PropertyKey::NumberKey(spelling) => match b {
            PropertyKey::NumberKey(other_spelling) => same_text(spelling, other_spelling),
            PropertyKey::NameKey(_) | PropertyKey::StringKey(_) | PropertyKey::ComputedKey(_) =>
                false,
        },
        PropertyKey::ComputedKey(key) => match b {
            PropertyKey::ComputedKey(other_key) => same_expr(key.get(), other_key.get()),
            PropertyKey::NameKey(_) | PropertyKey::StringKey(_) | PropertyKey::NumberKey(_) =>
                false,
        },
    }
}

#[cycle(same)]
#[tactic(auto, using(js_tree::proofs::Equations::tree_rules))]
fn same_concise_body(a: &ConciseBody, b: &ConciseBody) -> bool
    ensures { IsTrue result ↔ (bare_concise_body (plain_concise_body a.now) ≡ bare_concise_body (plain_concise_body b.now)) }
{
    match a {
        ConciseBody::ExpressionBody(value) => match b {
            ConciseBody::ExpressionBody(other_value) => same_expr(value, other_value),
            _ => false,
        },
        ConciseBody::BlockBody(body) => match b {
            ConciseBody::BlockBody(other_body) => same_function_body(body, other_body),
            _ => false,
        },
    }
}

#[cycle(same)]
#[tactic(auto, using(js_tree::proofs::Equations::tree_rules))]
fn same_for_init(a: &ForInit, b: &ForInit) -> bool
    ensures { IsTrue result ↔ (bare_for_init (plain_for_init a.now) ≡ bare_for_init (plain_for_init b.now)) }
{
    match a {
        ForInit::NoInit => match b {
            ForInit::NoInit => true,
            _ => false,
        },
        ForInit::InitDeclaration(kind, declarators) => match b {
            ForInit::InitDeclaration(other_kind, other_declarators) => same_variable_kind(
                *kind,
                *other_kind,
            ) && same_declarators(declarators.as_slice(), other_declarators.as_slice()),
            _ => false,
        },
        ForInit::InitExpression(expression) => match b {
            ForInit::InitExpression(other_expression) => same_expr(
                expression.get(),
                other_expression.get(),
            ),
            _ => false,
        },
    }
}

#[cycle(same)]
#[tactic(auto, using(js_tree::proofs::Equations::tree_rules))]
fn same_for_target(a: &ForTarget, b: &ForTarget) -> bool
    ensures { IsTrue result ↔ (bare_for_target (plain_for_target a.now) ≡ bare_for_target (plain_for_target b.now)) }
{
    match a {
        ForTarget::TargetDeclaration(kind, pattern) => match b {
            ForTarget::TargetDeclaration(other_kind, other_pattern) => same_variable_kind(
                *kind,
                *other_kind,
            ) && same_pattern(pattern, other_pattern),
            _ => false,
        },
        ForTarget::TargetExpression(target) => match b {
            ForTarget::TargetExpression(other_target) => same_expr(
                target.get(),
                other_target.get(),
            ),
            _ => false,
        },
    }
}

#[cycle(same)]
#[tactic(auto, using(js_tree::proofs::Equations::tree_rules))]
fn same_template_part(a: &TemplatePart, b: &TemplatePart) -> bool
    ensures { IsTrue result ↔ (bare_template_part (plain_template_part a.now) ≡ bare_template_part (plain_template_part b.now)) }
{
    same_expr(&a.value, &b.value) && same_spelled(&a.text, &b.text)
}

#[cycle(same)]
#[tactic(auto, using(js_tree::proofs::Equations::tree_rules))]
fn same_function(a: &Function, b: &Function) -> bool
    ensures { IsTrue result ↔ (bare_function (plain_function a.now) ≡ bare_function (plain_function b.now)) }
{
    same_params(a.params.as_slice(), b.params.as_slice()) && same_function_body(&a.body, &b.body)
}

#[cycle(same)]
#[tactic(auto, using(js_tree::proofs::Equations::tree_rules))]
fn same_function_body(a: &FunctionBody, b: &FunctionBody) -> bool
    ensures { IsTrue result ↔ (bare_function_body (plain_function_body a.now) ≡ bare_function_body (plain_function_body b.now)) }
{
    same_stmts(a.statements.as_slice(), b.statements.as_slice())
}

#[cycle(same)]
#[tactic(auto, using(js_tree::proofs::Equations::tree_rules))]
fn same_param(a: &Param, b: &Param) -> bool
    ensures { IsTrue result ↔ (bare_param (plain_param a.now) ≡ bare_param (plain_param b.now)) }
{
    same_pattern(&a.pattern, &b.pattern) && same_expr_if(&a.default, &b.default)
}

#[cycle(same)]
#[tactic(auto, using(js_tree::proofs::Equations::tree_rules))]
fn same_declarator(a: &Declarator, b: &Declarator) -> bool
    ensures { IsTrue result ↔ (bare_declarator (plain_declarator a.now) ≡ bare_declarator (plain_declarator b.now)) }
{
    same_pattern(&a.pattern, &b.pattern) && same_expr_if(&a.initializer, &b.initializer)
}

#[cycle(same)]
#[tactic(auto, using(js_tree::proofs::Equations::tree_rules))]
fn same_case(a: &Case, b: &Case) -> bool
    ensures { IsTrue result ↔ (bare_case (plain_case a.now) ≡ bare_case (plain_case b.now)) }
{
    same_expr_if(&a.test, &b.test) && same_stmts(a.statements.as_slice(), b.statements.as_slice())
}

#[cycle(same)]
#[tactic(auto, using(js_tree::proofs::Equations::tree_rules))]
fn same_catch(a: &Catch, b: &Catch) -> bool
    ensures { IsTrue result ↔ (bare_catch (plain_catch a.now) ≡ bare_catch (plain_catch b.now)) }
{
    same_pattern_if(&a.parameter, &b.parameter)
        && same_stmts(a.statements.as_slice(), b.statements.as_slice())
}

#[tactic(auto, using(js_tree::proofs::Equations::tree_rules))]
fn same_pattern(a: &Pattern, b: &Pattern) -> bool
    ensures { IsTrue result ↔ (bare_pattern (plain_pattern a.now) ≡ bare_pattern (plain_pattern b.now)) }
{
    let PatternNode::BindingIdentifier(name) = &a.node;
    let PatternNode::BindingIdentifier(other_name) = &b.node;
    same_text(name, other_name)
}

#[tactic(auto, using(js_tree::proofs::Equations::tree_rules))]
fn same_pattern_if(a: &Option<Pattern>, b: &Option<Pattern>) -> bool
    ensures { IsTrue result ↔ (bare_pattern_if (plain_pattern_if a.now) ≡ bare_pattern_if (plain_pattern_if b.now)) }
{
    match (a, b) {
        (None, None) => true,
        (Some(a), Some(b)) => same_pattern(a, b),
        _ => false,
    }
}

#[cycle(same)]
#[tactic(auto, using(js_tree::proofs::Equations::tree_rules))]
fn same_expr_if(a: &Option<Boxed<Expr>>, b: &Option<Boxed<Expr>>) -> bool
    ensures { IsTrue result ↔ (bare_expr_if (plain_expr_if a.now) ≡ bare_expr_if (plain_expr_if b.now)) }
{
    match (a, b) {
        (None, None) => true,
        (Some(a), Some(b)) => same_expr(a.get(), b.get()),
        _ => false,
    }
}

#[cycle(same)]
#[tactic(auto, using(js_tree::proofs::Equations::tree_rules))]
fn same_stmt_if(a: &Option<Boxed<Stmt>>, b: &Option<Boxed<Stmt>>) -> bool
    ensures { IsTrue result ↔ (bare_stmt_if (plain_stmt_if a.now) ≡ bare_stmt_if (plain_stmt_if b.now)) }
{
    match (a, b) {
        (None, None) => true,
        (Some(a), Some(b)) => same_stmt(a.get(), b.get()),
        _ => false,
    }
}

#[cycle(same)]
#[tactic(auto, using(crate::proofs::Lists::same_rules))]
fn same_template_parts(a: &[TemplatePart], b: &[TemplatePart]) -> bool
    ensures { IsTrue result ↔ (bare_template_parts (plain_template_parts a.now) ≡ bare_template_parts (plain_template_parts b.now)) }
{
    if a.len() != b.len() {
        return false;
    }
    for i in 0..a.len() {
        if !same_template_part(&a[i], &b[i]) {
            return false;
        }
    }
    true
}

#[cycle(same)]
#[tactic(auto, using(crate::proofs::Lists::same_rules))]
fn same_properties(a: &[Property], b: &[Property]) -> bool
    ensures { IsTrue result ↔ (bare_properties (plain_properties a.now) ≡ bare_properties (plain_properties b.now)) }
{
    if a.len() != b.len() {
        return false;
    }
    for i in 0..a.len() {
        if !same_property(&a[i], &b[i]) {
            return false;
        }
    }
    true
}

#[cycle(same)]
#[tactic(auto, using(crate::proofs::Lists::same_rules))]
fn same_params(a: &[Param], b: &[Param]) -> bool
    ensures { IsTrue result ↔ (bare_params (plain_params a.now) ≡ bare_params (plain_params b.now)) }
{
    if a.len() != b.len() {
        return false;
    }
    for i in 0..a.len() {
        if !same_param(&a[i], &b[i]) {
            return false;
        }
    }
    true
}

#[cycle(same)]
#[tactic(auto, using(crate::proofs::Lists::same_rules))]
fn same_exprs(a: &[Expr], b: &[Expr]) -> bool
    ensures { IsTrue result ↔ (bare_exprs (plain_exprs a.now) ≡ bare_exprs (plain_exprs b.now)) }
{
    if a.len() != b.len() {
        return false;
    }
    for i in 0..a.len() {
        if !same_expr(&a[i], &b[i]) {
            return false;
        }
    }
    true
}

#[cycle(same)]
#[tactic(auto, using(crate::proofs::Lists::same_rules))]
fn same_stmts(a: &[Stmt], b: &[Stmt]) -> bool
    ensures { IsTrue result ↔ (bare_stmts (plain_stmts a.now) ≡ bare_stmts (plain_stmts b.now)) }
{
    if a.len() != b.len() {
        return false;
    }
    for i in 0..a.len() {
        if !same_stmt(&a[i], &b[i]) {
            return false;
        }
    }
    true
}

#[cycle(same)]
#[tactic(auto, using(crate::proofs::Lists::same_rules))]
fn same_declarators(a: &[Declarator], b: &[Declarator]) -> bool
    ensures { IsTrue result ↔ (bare_declarators (plain_declarators a.now) ≡ bare_declarators (plain_declarators b.now)) }
{
    if a.len() != b.len() {
        return false;
    }
    for i in 0..a.len() {
        if !same_declarator(&a[i], &b[i]) {
            return false;
        }
    }
    true
}

#[cycle(same)]
#[tactic(auto, using(crate::proofs::Lists::same_rules))]
fn same_cases(a: &[Case], b: &[Case]) -> bool
    ensures { IsTrue result ↔ (bare_cases (plain_cases a.now) ≡ bare_cases (plain_cases b.now)) }
{
    if a.len() != b.len() {
        return false;
    }
    for i in 0..a.len() {
        if !same_case(&a[i], &b[i]) {
            return false;
        }
    }
    true
}
