// Nodes are put at the end for a tree, its parts before it, in the order of the text.

ghost use Rattle.js_tree.specs.Tree.{plain_case, plain_cases, plain_catch, plain_declarator, plain_declarators, plain_expr, plain_expr_if, plain_exprs, plain_for_init, plain_for_target, plain_function, plain_param, plain_params, plain_properties, plain_property, plain_property_key, plain_stmt, plain_stmt_if, plain_stmts, plain_template_part, plain_template_parts};
ghost use Rattle.js_code.specs.private.Compiled.{CompilesCase, CompilesCaseScope, CompilesCases, CompilesCatch, CompilesDeclarator, CompilesDeclarators, CompilesExpr, CompilesExprIf, CompilesExprs, CompilesForInit, CompilesForTarget, CompilesFunction, CompilesParam, CompilesParams, CompilesProperties, CompilesProperty, CompilesPropertyKey, CompilesScope, CompilesStmt, CompilesStmtIf, CompilesStmts, CompilesTemplatePart, CompilesTemplateParts, Kept};

use crate::compiling::{
    Compiling, bound_name, chain, copied, hold, lack, note, push, reserve, shared, shared_if,
};
use crate::declare::{
    Parts, put_arrow_block, put_arrow_expression, put_case_scope, put_function, put_init, put_scope,
};
use crate::identifier::SharedIdentifier;
use crate::literal::{Numeral, StringValue, Word};
use crate::node::{ListKind, Node};
use items::{Boxed, Items};
use js_tree::{
    Case, Catch, ConciseBody, Declarator, Expr, ExprNode, ForInit, ForTarget, Function, Param,
    Property, PropertyKey, PropertyNode, Stmt, StmtNode, TemplatePart,
};
use std::alloc::Global;

/// An expression.
#[cycle(compile)]
fn expr(alloc: Global, expr: &Expr, code: &mut Compiling) -> usize
    ensures { Kept code.old code.new (CompilesExpr code.old code.new result (plain_expr expr.now)) }
{
    let loc = expr.loc;
    match &expr.node {
        ExprNode::IdentifierReference(name) => {
            let Ok(name) = shared(alloc, name) else {
                return lack(code);
            };
            push(code, Node::IdentifierReference { loc, name })
        }
        ExprNode::This => push(code, Node::This { loc }),
        ExprNode::NullLiteral => push(code, Node::NullLiteral { loc }),
        ExprNode::BooleanLiteral(value) => push(code, Node::BooleanLiteral { loc, value: *value }),
        ExprNode::NumericLiteral(spelling) => {
            let Ok(numeral) = Numeral::new(alloc, spelling.as_str()) else {
                return lack(code);
            };
            push(code, Node::NumericLiteral { loc, numeral })
        }
        ExprNode::StringLiteral(string) => {
            let Ok(literal) = StringValue::new(alloc, string) else {
                return lack(code);
            };
            push(code, Node::StringLiteral { loc, literal })
        }
        ExprNode::ArrayLiteral(items) => {
            let items = exprs(alloc, items.as_slice(), code);
            push(code, Node::ArrayLiteral { loc, items })
        }
        ExprNode::ObjectLiteral(properties) => {
            let properties = self::properties(alloc, properties.as_slice(), code);
            push(code, Node::ObjectLiteral { loc, properties })
        }
        ExprNode::FunctionExpression(name, function) => {
            let function = self::function(alloc, function.get(), code);
            let Ok(name) = shared_if(alloc, name) else {
                return lack(code);
            };
            push(
                code,
                Node::FunctionExpression {
                    loc,
                    name,
                    function,
                },
            )
        }
        ExprNode::ArrowFunction(params, body) => match body.get() {
            ConciseBody::ExpressionBody(value) => {
                let list = params.as_slice();
                let number = reserve(code);
                let params = self::params(alloc, list, code);
                let body = self::expr(alloc, value, code);
                let parts = Parts {
                    number,
                    params,
                    body_loc: None,
                    body,
                };
                let function = put_arrow_expression(alloc, parts, list, code);
                note(code, number, function);
                push(code, Node::ArrowFunction { loc, function })
            }
            ConciseBody::BlockBody(block) => {
                let list = params.as_slice();
                let statements = block.statements.as_slice();
                let number = reserve(code);
                let params = self::params(alloc, list, code);
                let body = stmts(alloc, statements, code);
                let parts = Parts {
                    number,
                    params,
                    body_loc: block.loc,
                    body,
                };
                let function = put_arrow_block(alloc, parts, list, statements, code);
                note(code, number, function);
                push(code, Node::ArrowFunction { loc, function })
            }
        },
        ExprNode::RegularExpressionLiteral(pattern, flags) => {
            let Ok(pattern) = copied(alloc, pattern) else {
                return lack(code);
            };
            let Ok(flags) = copied(alloc, flags) else {
                return lack(code);
            };
            push(
                code,
                Node::RegularExpressionLiteral {
                    loc,
                    pattern,
                    flags,
                },
            )
        }
        ExprNode::TemplateLiteral(text, parts) => {
            let parts = template_parts(alloc, parts.as_slice(), code);
            let Ok(text) = StringValue::new(alloc, text) else {
                return lack(code);
            };
            push(code, Node::TemplateLiteral { loc, text, parts })
        }
        ExprNode::Parenthesized(inner) => {
            let inner = self::expr(alloc, inner.get(), code);
            push(code, Node::Parenthesized { loc, inner })
        }
        ExprNode::NamedMember(object, name) => {
            let object = self::expr(alloc, object.get(), code);
            let Ok(name) = Word::new(alloc, name.as_str()) else {
                return lack(code);
            };
            push(code, Node::NamedMember { loc, object, name })
        }
        ExprNode::ComputedMember(object, key) => {
            let object = self::expr(alloc, object.get(), code);
            let key = self::expr(alloc, key.get(), code);
            push(code, Node::ComputedMember { loc, object, key })
        }
        ExprNode::New(constructor, arguments) => {
            let constructor = self::expr(alloc, constructor.get(), code);
            let arguments = exprs(alloc, arguments.as_slice(), code);
            push(
                code,
                Node::New {
                    loc,
                    constructor,
                    arguments,
                },
            )
        }
        ExprNode::Call(callee, arguments) => {
            let callee = self::expr(alloc, callee.get(), code);
            let arguments = exprs(alloc, arguments.as_slice(), code);
            push(
                code,
                Node::Call {
                    loc,
                    callee,
                    arguments,
                },
            )
        }
        ExprNode::PostfixUpdate(operator, target) => {
            let target = self::expr(alloc, target.get(), code);
            push(
                code,
                Node::PostfixUpdate {
                    loc,
                    operator: *operator,
                    target,
                },
            )
        }
        ExprNode::PrefixUpdate(operator, target) => {
            let target = self::expr(alloc, target.get(), code);
            push(
                code,
                Node::PrefixUpdate {
                    loc,
                    operator: *operator,
                    target,
                },
            )
        }
        ExprNode::Unary(operator, operand) => {
            let operand = self::expr(alloc, operand.get(), code);
            push(
                code,
                Node::Unary {
                    loc,
                    operator: *operator,
                    operand,
                },
            )
        }
        ExprNode::Binary(operator, left, right) => {
            let left = self::expr(alloc, left.get(), code);
            let right = self::expr(alloc, right.get(), code);
            push(
                code,
                Node::Binary {
                    loc,
                    operator: *operator,
                    left,
                    right,
                },
            )
        }
        ExprNode::Logical(operator, left, right) => {
            let left = self::expr(alloc, left.get(), code);
            let right = self::expr(alloc, right.get(), code);
            push(
                code,
                Node::Logical {
                    loc,
                    operator: *operator,
                    left,
                    right,
                },
            )
        }
        ExprNode::Conditional(test, holds, fails) => {
            let test = self::expr(alloc, test.get(), code);
            let holds = self::expr(alloc, holds.get(), code);
            let fails = self::expr(alloc, fails.get(), code);
            push(
                code,
                Node::Conditional {
                    loc,
                    test,
                    holds,
                    fails,
                },
            )
        }
        ExprNode::Assignment(operator, target, value) => {
            let target = self::expr(alloc, target.get(), code);
            let value = self::expr(alloc, value.get(), code);
            push(
                code,
                Node::Assignment {
                    loc,
                    operator: *operator,
                    target,
                    value,
                },
            )
        }
        ExprNode::Comma(left, right) => {
            let left = self::expr(alloc, left.get(), code);
            let right = self::expr(alloc, right.get(), code);
            push(code, Node::Comma { loc, left, right })
        }
    }
}

/// An expression that may be missing.
#[cycle(compile)]
fn expr_if(alloc: Global, expr: &Option<Boxed<Expr>>, code: &mut Compiling) -> usize
    ensures { Kept code.old code.new (CompilesExprIf code.old code.new result (plain_expr_if expr.now)) }
{
    match expr {
        None => push(code, Node::Missing),
        Some(expr) => self::expr(alloc, expr.get(), code),
    }
}

/// The list of some expressions.
#[cycle(compile)]
fn exprs(alloc: Global, exprs: &[Expr], code: &mut Compiling) -> usize
    ensures { Kept code.old code.new (CompilesExprs code.old code.new result (plain_exprs exprs.now)) }
{
    let mut places = Items::new(alloc);
    for index in 0..exprs.len() {
        let place = expr(alloc, &exprs[index], code);
        hold(code, &mut places, place);
    }
    chain(code, ListKind::Exprs, places.as_slice())
}

/// A part of a template.
#[cycle(compile)]
fn template_part(alloc: Global, part: &TemplatePart, code: &mut Compiling) -> usize
    ensures { Kept code.old code.new (CompilesTemplatePart code.old code.new result (plain_template_part part.now)) }
{
    let value = expr(alloc, &part.value, code);
    let Ok(text) = StringValue::new(alloc, &part.text) else {
        return lack(code);
    };
    push(code, Node::TemplatePart { value, text })
}

/// The list of some template parts.
#[cycle(compile)]
fn template_parts(alloc: Global, template_parts: &[TemplatePart], code: &mut Compiling) -> usize
    ensures { Kept code.old code.new (CompilesTemplateParts code.old code.new result (plain_template_parts template_parts.now)) }
{
    let mut places = Items::new(alloc);
    for index in 0..template_parts.len() {
        let place = template_part(alloc, &template_parts[index], code);
        hold(code, &mut places, place);
    }
    chain(code, ListKind::TemplateParts, places.as_slice())
}

/// A property.
#[cycle(compile)]
fn property(alloc: Global, property: &Property, code: &mut Compiling) -> usize
    ensures { Kept code.old code.new (CompilesProperty code.old code.new result (plain_property property.now)) }
{
    let loc = property.loc;
    match &property.node {
        PropertyNode::Shorthand(name) => {
            let Ok(name) = Word::new(alloc, name.as_str()) else {
                return lack(code);
            };
            push(code, Node::Shorthand { loc, name })
        }
        PropertyNode::KeyValue(key, value) => {
            let key = property_key(alloc, key, code);
            let value = expr(alloc, value.get(), code);
            push(code, Node::KeyValue { loc, key, value })
        }
        PropertyNode::Method(key, function) => {
            let source = function.get();
            let list = source.params.as_slice();
            let statements = source.body.statements.as_slice();
            // its number comes before those of its key
            let number = reserve(code);
            let key = property_key(alloc, key, code);
            let params = self::params(alloc, list, code);
            let body = stmts(alloc, statements, code);
            let parts = Parts {
                number,
                params,
                body_loc: source.body.loc,
                body,
            };
            let function = put_function(alloc, true, parts, list, statements, code);
            note(code, number, function);
            push(code, Node::Method { loc, key, function })
        }
    }
}

/// The key of a property.
#[cycle(compile)]
fn property_key(alloc: Global, key: &PropertyKey, code: &mut Compiling) -> usize
    ensures { Kept code.old code.new (CompilesPropertyKey code.old code.new result (plain_property_key key.now)) }
{
    match key {
        PropertyKey::NameKey(name) => {
            let Ok(name) = Word::new(alloc, name.as_str()) else {
                return lack(code);
            };
            push(code, Node::NameKey { name })
        }
        PropertyKey::StringKey(string) => {
            let Ok(literal) = StringValue::new(alloc, string) else {
                return lack(code);
            };
            push(code, Node::StringKey { literal })
        }
        PropertyKey::NumberKey(spelling) => {
            let Ok(numeral) = Numeral::new(alloc, spelling.as_str()) else {
                return lack(code);
            };
            push(code, Node::NumberKey { numeral })
        }
        PropertyKey::ComputedKey(value) => {
            let value = expr(alloc, value.get(), code);
            push(code, Node::ComputedKey { value })
        }
    }
}

/// The list of some properties.
#[cycle(compile)]
fn properties(alloc: Global, properties: &[Property], code: &mut Compiling) -> usize
    ensures { Kept code.old code.new (CompilesProperties code.old code.new result (plain_properties properties.now)) }
{
    let mut places = Items::new(alloc);
    for index in 0..properties.len() {
        let place = property(alloc, &properties[index], code);
        hold(code, &mut places, place);
    }
    chain(code, ListKind::Properties, places.as_slice())
}

/// The code of a function that is no method.
#[cycle(compile)]
fn function(alloc: Global, function: &Function, code: &mut Compiling) -> usize
    ensures { Kept code.old code.new (CompilesFunction code.old code.new result (plain_function function.now)) }
{
    let list = function.params.as_slice();
    let statements = function.body.statements.as_slice();
    let number = reserve(code);
    let params = self::params(alloc, list, code);
    let body = stmts(alloc, statements, code);
    let parts = Parts {
        number,
        params,
        body_loc: function.body.loc,
        body,
    };
    let place = put_function(alloc, false, parts, list, statements, code);
    note(code, number, place);
    place
}

/// A parameter.
#[cycle(compile)]
fn param(alloc: Global, param: &Param, code: &mut Compiling) -> usize
    ensures { Kept code.old code.new (CompilesParam code.old code.new result (plain_param param.now)) }
{
    let default = expr_if(alloc, &param.default, code);
    let Ok(name) = bound_name(alloc, &param.pattern) else {
        return lack(code);
    };
    push(
        code,
        Node::Param {
            loc: param.loc,
            name_loc: param.pattern.loc,
            name,
            default,
        },
    )
}

/// The list of some parameters.
#[cycle(compile)]
fn params(alloc: Global, params: &[Param], code: &mut Compiling) -> usize
    ensures { Kept code.old code.new (CompilesParams code.old code.new result (plain_params params.now)) }
{
    let mut places = Items::new(alloc);
    for index in 0..params.len() {
        let place = param(alloc, &params[index], code);
        hold(code, &mut places, place);
    }
    chain(code, ListKind::Params, places.as_slice())
}

/// A statement.
#[cycle(compile)]
fn stmt(alloc: Global, stmt: &Stmt, code: &mut Compiling) -> usize
    ensures { Kept code.old code.new (CompilesStmt code.old code.new result (plain_stmt stmt.now)) }
{
    let loc = stmt.loc;
    match &stmt.node {
        StmtNode::Directive(string) => {
            let Ok(literal) = StringValue::new(alloc, string) else {
                return lack(code);
            };
            push(code, Node::Directive { loc, literal })
        }
        StmtNode::Block(statements) => {
            let statements = scope(alloc, statements.as_slice(), code);
            push(code, Node::Block { loc, statements })
        }
        StmtNode::VariableDeclaration(kind, declarators) => {
            let declarators = self::declarators(alloc, declarators.as_slice(), code);
            push(
                code,
                Node::VariableDeclaration {
                    loc,
                    kind: *kind,
                    declarators,
                },
            )
        }
        StmtNode::Empty => push(code, Node::Empty { loc }),
        StmtNode::Expression(expression) => {
            let expression = expr(alloc, expression.get(), code);
            push(code, Node::Expression { loc, expression })
        }
        StmtNode::If(test, holds, fails) => {
            let test = expr(alloc, test.get(), code);
            let holds = self::stmt(alloc, holds.get(), code);
            let fails = stmt_if(alloc, fails, code);
            push(
                code,
                Node::If {
                    loc,
                    test,
                    holds,
                    fails,
                },
            )
        }
        StmtNode::DoWhile(body, test) => {
            let body = self::stmt(alloc, body.get(), code);
            let test = expr(alloc, test.get(), code);
            push(code, Node::DoWhile { loc, body, test })
        }
        StmtNode::While(test, body) => {
            let test = expr(alloc, test.get(), code);
            let body = self::stmt(alloc, body.get(), code);
            push(code, Node::While { loc, test, body })
        }
        StmtNode::For(init, test, update, body) => {
            let init = for_init(alloc, init.get(), code);
            let test = expr_if(alloc, test, code);
            let update = expr_if(alloc, update, code);
            let body = self::stmt(alloc, body.get(), code);
            push(
                code,
                Node::For {
                    loc,
                    init,
                    test,
                    update,
                    body,
                },
            )
        }
        StmtNode::ForIn(target, object, body) => {
            let target = for_target(alloc, target.get(), code);
            let object = expr(alloc, object.get(), code);
            let body = self::stmt(alloc, body.get(), code);
            push(
                code,
                Node::ForIn {
                    loc,
                    target,
                    object,
                    body,
                },
            )
        }
        StmtNode::ForOf(target, iterable, body) => {
            let target = for_target(alloc, target.get(), code);
            let iterable = expr(alloc, iterable.get(), code);
            let body = self::stmt(alloc, body.get(), code);
            push(
                code,
                Node::ForOf {
                    loc,
                    target,
                    iterable,
                    body,
                },
            )
        }
        StmtNode::Continue(label) => {
            let Ok(label) = shared_if(alloc, label) else {
                return lack(code);
            };
            push(code, Node::Continue { loc, label })
        }
        StmtNode::Break(label) => {
            let Ok(label) = shared_if(alloc, label) else {
                return lack(code);
            };
            push(code, Node::Break { loc, label })
        }
        StmtNode::Return(value) => {
            let value = expr_if(alloc, value, code);
            push(code, Node::Return { loc, value })
        }
        StmtNode::Switch(value, cases) => {
            let value = expr(alloc, value.get(), code);
            let cases = case_scope(alloc, cases.as_slice(), code);
            push(code, Node::Switch { loc, value, cases })
        }
        StmtNode::Labelled(label, body) => {
            let body = self::stmt(alloc, body.get(), code);
            let Ok(label) = SharedIdentifier::new(alloc, label) else {
                return lack(code);
            };
            push(code, Node::Labelled { loc, label, body })
        }
        StmtNode::Throw(value) => {
            let value = expr(alloc, value.get(), code);
            push(code, Node::Throw { loc, value })
        }
        StmtNode::TryCatch(block, catch) => {
            let block = scope(alloc, block.as_slice(), code);
            let catch = self::catch(alloc, catch.get(), code);
            push(code, Node::TryCatch { loc, block, catch })
        }
        StmtNode::TryFinally(block, last) => {
            let block = scope(alloc, block.as_slice(), code);
            let last = scope(alloc, last.as_slice(), code);
            push(code, Node::TryFinally { loc, block, last })
        }
        StmtNode::TryCatchFinally(block, catch, last) => {
            let block = scope(alloc, block.as_slice(), code);
            let catch = self::catch(alloc, catch.get(), code);
            let last = scope(alloc, last.as_slice(), code);
            push(
                code,
                Node::TryCatchFinally {
                    loc,
                    block,
                    catch,
                    last,
                },
            )
        }
        StmtNode::Debugger => push(code, Node::Debugger { loc }),
        StmtNode::FunctionDeclaration(name, function) => {
            let function = self::function(alloc, function.get(), code);
            let Ok(name) = SharedIdentifier::new(alloc, name) else {
                return lack(code);
            };
            push(
                code,
                Node::FunctionDeclaration {
                    loc,
                    name,
                    function,
                },
            )
        }
    }
}

/// A statement that may be missing.
#[cycle(compile)]
fn stmt_if(alloc: Global, stmt: &Option<Boxed<Stmt>>, code: &mut Compiling) -> usize
    ensures { Kept code.old code.new (CompilesStmtIf code.old code.new result (plain_stmt_if stmt.now)) }
{
    match stmt {
        None => push(code, Node::Missing),
        Some(stmt) => self::stmt(alloc, stmt.get(), code),
    }
}

/// The list of some statements.
#[cycle(compile)]
pub fn stmts(alloc: Global, stmts: &[Stmt], code: &mut Compiling) -> usize
    ensures { Kept code.old code.new (CompilesStmts code.old code.new result (plain_stmts stmts.now)) }
{
    let mut places = Items::new(alloc);
    for index in 0..stmts.len() {
        let place = stmt(alloc, &stmts[index], code);
        hold(code, &mut places, place);
    }
    chain(code, ListKind::Stmts, places.as_slice())
}

/// Some statements that are a scope of their own.
#[cycle(compile)]
fn scope(alloc: Global, stmts: &[Stmt], code: &mut Compiling) -> usize
    ensures { Kept code.old code.new (CompilesScope code.old code.new result (plain_stmts stmts.now)) }
{
    let list = self::stmts(alloc, stmts, code);
    put_scope(alloc, stmts, list, code)
}

/// A declarator.
#[cycle(compile)]
fn declarator(alloc: Global, declarator: &Declarator, code: &mut Compiling) -> usize
    ensures { Kept code.old code.new (CompilesDeclarator code.old code.new result (plain_declarator declarator.now)) }
{
    let initializer = expr_if(alloc, &declarator.initializer, code);
    let Ok(name) = bound_name(alloc, &declarator.pattern) else {
        return lack(code);
    };
    push(
        code,
        Node::Declarator {
            loc: declarator.loc,
            name_loc: declarator.pattern.loc,
            name,
            initializer,
        },
    )
}

/// The list of some declarators.
#[cycle(compile)]
fn declarators(alloc: Global, declarators: &[Declarator], code: &mut Compiling) -> usize
    ensures { Kept code.old code.new (CompilesDeclarators code.old code.new result (plain_declarators declarators.now)) }
{
    let mut places = Items::new(alloc);
    for index in 0..declarators.len() {
        let place = declarator(alloc, &declarators[index], code);
        hold(code, &mut places, place);
    }
    chain(code, ListKind::Declarators, places.as_slice())
}

/// The first part of a `for`.
#[cycle(compile)]
fn for_init(alloc: Global, init: &ForInit, code: &mut Compiling) -> usize
    ensures { Kept code.old code.new (CompilesForInit code.old code.new result (plain_for_init init.now)) }
{
    match init {
        ForInit::NoInit => push(code, Node::NoInit),
        ForInit::InitDeclaration(kind, declarators) => {
            let source = declarators.as_slice();
            let list = self::declarators(alloc, source, code);
            put_init(alloc, *kind, source, list, code)
        }
        ForInit::InitExpression(expression) => {
            let expression = expr(alloc, expression.get(), code);
            push(code, Node::InitExpression { expression })
        }
    }
}

/// The target of a `for` with `in` or `of`.
#[cycle(compile)]
fn for_target(alloc: Global, target: &ForTarget, code: &mut Compiling) -> usize
    ensures { Kept code.old code.new (CompilesForTarget code.old code.new result (plain_for_target target.now)) }
{
    match target {
        ForTarget::TargetDeclaration(kind, pattern) => {
            let Ok(name) = bound_name(alloc, pattern) else {
                return lack(code);
            };
            push(
                code,
                Node::TargetDeclaration {
                    kind: *kind,
                    name_loc: pattern.loc,
                    name,
                },
            )
        }
        ForTarget::TargetExpression(expression) => {
            let expression = expr(alloc, expression.get(), code);
            push(code, Node::TargetExpression { expression })
        }
    }
}

/// A clause of a `switch`.
#[cycle(compile)]
fn case(alloc: Global, case: &Case, code: &mut Compiling) -> usize
    ensures { Kept code.old code.new (CompilesCase code.old code.new result (plain_case case.now)) }
{
    let test = expr_if(alloc, &case.test, code);
    let statements = stmts(alloc, case.statements.as_slice(), code);
    push(
        code,
        Node::Case {
            loc: case.loc,
            test,
            statements,
        },
    )
}

/// The list of some cases.
#[cycle(compile)]
fn cases(alloc: Global, cases: &[Case], code: &mut Compiling) -> usize
    ensures { Kept code.old code.new (CompilesCases code.old code.new result (plain_cases cases.now)) }
{
    let mut places = Items::new(alloc);
    for index in 0..cases.len() {
        let place = case(alloc, &cases[index], code);
        hold(code, &mut places, place);
    }
    chain(code, ListKind::Cases, places.as_slice())
}

/// The clauses of a `switch`, which are one scope.
#[cycle(compile)]
fn case_scope(alloc: Global, cases: &[Case], code: &mut Compiling) -> usize
    ensures { Kept code.old code.new (CompilesCaseScope code.old code.new result (plain_cases cases.now)) }
{
    let list = self::cases(alloc, cases, code);
    put_case_scope(alloc, cases, list, code)
}

/// A `catch` clause.
#[cycle(compile)]
fn catch(alloc: Global, catch: &Catch, code: &mut Compiling) -> usize
    ensures { Kept code.old code.new (CompilesCatch code.old code.new result (plain_catch catch.now)) }
{
    let statements = scope(alloc, catch.statements.as_slice(), code);
    match &catch.parameter {
        None => push(code, Node::Catch { statements }),
        Some(pattern) => {
            let Ok(name) = bound_name(alloc, pattern) else {
                return lack(code);
            };
            push(
                code,
                Node::CatchName {
                    name_loc: pattern.loc,
                    name,
                    statements,
                },
            )
        }
    }
}
