ghost use Rattle.std.specs.Prelude.{◌≡◌, ◌++◌, IfOk};
ghost use Rattle.js_tree.specs.Tree.{plain_file, plain_pattern_if, plain_expr_if, plain_stmt_if, plain_expr, plain_stmt, plain_property, plain_property_key, plain_concise_body, plain_for_init, plain_for_target, plain_template_part, plain_function, plain_function_body, plain_param, plain_declarator, plain_case, plain_catch, plain_pattern, plain_template_parts, plain_properties, plain_params, plain_exprs, plain_stmts, plain_declarators, plain_cases};
ghost use Rattle.js_walk.specs.Part.{AnExpr, AStmt, AProperty, APropertyKey, AConciseBody, AForInit, AForTarget, ATemplatePart, AFunction, AFunctionBody, AParam, ADeclarator, ACase, ACatch, APattern, AThen, AnElse};
ghost use Rattle.js_walk.specs.Walk.{visit, walk_file, within_pattern_if, within_expr_if, within_stmt_if, within_expr, within_stmt, within_property, within_property_key, within_concise_body, within_for_init, within_for_target, within_template_part, within_function, within_function_body, within_param, within_declarator, within_case, within_catch, within_template_parts, within_properties, within_params, within_exprs, within_stmts, within_declarators, within_cases};

use crate::visitor::{Part, Visitor};
use items::{Boxed, Memory};
use js_tree::{
    Case, Catch, ConciseBody, Declarator, Expr, ExprNode, File, ForInit, ForTarget, Function,
    FunctionBody, Param, Pattern, Property, PropertyKey, PropertyNode, Stmt, StmtNode,
    TemplatePart,
};

/// Takes a visitor through a file: a part before what is in it, and from left to right. What the
/// file's statements inherit is given. It takes time linear in the file, but for the visits.
#[tactic(auto, using(js_tree::proofs::Equations::tree_rules))]
pub fn visit_file<V: Visitor>(
    visitor: &mut V,
    inherited: &V::Inherited,
    file: &File,
) -> Result<(), Memory>
    ensures { IfOk result (λ _. V.found visitor.new ≡ V.found visitor.old ++ walk_file V.own V.down (plain_file file.now) (V.told inherited.now)) }
{
    of_stmts(visitor, inherited, file.body.as_slice())
}

/// Takes a visitor through statements, as through a file.
#[tactic(auto, using(js_tree::proofs::Equations::tree_rules))]
pub fn visit_stmts<V: Visitor>(
    visitor: &mut V,
    inherited: &V::Inherited,
    statements: &[Stmt],
) -> Result<(), Memory>
    ensures { IfOk result (λ _. V.found visitor.new ≡ V.found visitor.old ++ within_stmts V.own V.down (plain_stmts statements.now) (V.told inherited.now)) }
{
    of_stmts(visitor, inherited, statements)
}

#[cycle(walk)]
#[tactic(auto, using(js_tree::proofs::Equations::tree_rules))]
fn of_expr<V: Visitor>(visitor: &mut V, inherited: &V::Inherited, expr: &Expr) -> Result<(), Memory>
    ensures { IfOk result (λ _. V.found visitor.new ≡ V.found visitor.old ++ visit V.own V.down (V.told inherited.now) (AnExpr (plain_expr expr.now)) (within_expr V.own V.down (plain_expr expr.now))) }
{
    match visitor.visit(inherited, Part::Expr(expr))? {
        None => Ok(()),
        Some(below) => within_expr(visitor, &below, expr),
    }
}

#[cycle(walk)]
#[tactic(auto, using(js_tree::proofs::Equations::tree_rules))]
fn within_expr<V: Visitor>(
    visitor: &mut V,
    inherited: &V::Inherited,
    expr: &Expr,
) -> Result<(), Memory>
    ensures { IfOk result (λ _. V.found visitor.new ≡ V.found visitor.old ++ within_expr V.own V.down (plain_expr expr.now) (V.told inherited.now)) }
{
    match &expr.node {
        ExprNode::IdentifierReference(_) => Ok(()),
        ExprNode::This => Ok(()),
        ExprNode::NullLiteral => Ok(()),
        ExprNode::BooleanLiteral(_) => Ok(()),
        ExprNode::NumericLiteral(_) => Ok(()),
        ExprNode::StringLiteral(_) => Ok(()),
        ExprNode::ArrayLiteral(items) => of_exprs(visitor, inherited, items.as_slice()),
        ExprNode::ObjectLiteral(properties) => of_properties(
            visitor,
            inherited,
            properties.as_slice(),
        ),
        ExprNode::FunctionExpression(_, function) => of_function(
            visitor,
            inherited,
            function.get(),
        ),
        ExprNode::ArrowFunction(params, body) => {
            of_params(visitor, inherited, params.as_slice())?;
            of_concise_body(visitor, inherited, body.get())
        }
        ExprNode::RegularExpressionLiteral(_, _) => Ok(()),
        ExprNode::TemplateLiteral(_, parts) => of_template_parts(
            visitor,
            inherited,
            parts.as_slice(),
        ),
        ExprNode::Parenthesized(inner) => of_expr(visitor, inherited, inner.get()),
        ExprNode::NamedMember(object, _) => of_expr(visitor, inherited, object.get()),
        ExprNode::ComputedMember(object, key) => {
            of_expr(visitor, inherited, object.get())?;
            of_expr(visitor, inherited, key.get())
        }
        ExprNode::New(constructor, arguments) => {
            of_expr(visitor, inherited, constructor.get())?;
            of_exprs(visitor, inherited, arguments.as_slice())
        }
        ExprNode::Call(callee, arguments) => {
            of_expr(visitor, inherited, callee.get())?;
            of_exprs(visitor, inherited, arguments.as_slice())
        }
        ExprNode::PostfixUpdate(_, operand) => of_expr(visitor, inherited, operand.get()),
        ExprNode::PrefixUpdate(_, operand) => of_expr(visitor, inherited, operand.get()),
        ExprNode::Unary(_, operand) => of_expr(visitor, inherited, operand.get()),
        ExprNode::Binary(_, left, right) => {
            of_expr(visitor, inherited, left.get())?;
            of_expr(visitor, inherited, right.get())
        }
        ExprNode::Logical(_, left, right) => {
            of_expr(visitor, inherited, left.get())?;
            of_expr(visitor, inherited, right.get())
        }
        ExprNode::Conditional(test, then, otherwise) => {
            of_expr(visitor, inherited, test.get())?;
            of_expr(visitor, inherited, then.get())?;
            of_expr(visitor, inherited, otherwise.get())
        }
        ExprNode::Assignment(_, target, value) => {
            of_expr(visitor, inherited, target.get())?;
            of_expr(visitor, inherited, value.get())
        }
        ExprNode::Comma(left, right) => {
            of_expr(visitor, inherited, left.get())?;
            of_expr(visitor, inherited, right.get())
        }
    }
}

#[cycle(walk)]
#[tactic(auto, using(js_tree::proofs::Equations::tree_rules))]
fn of_stmt<V: Visitor>(visitor: &mut V, inherited: &V::Inherited, stmt: &Stmt) -> Result<(), Memory>
    ensures { IfOk result (λ _. V.found visitor.new ≡ V.found visitor.old ++ visit V.own V.down (V.told inherited.now) (AStmt (plain_stmt stmt.now)) (within_stmt V.own V.down (plain_stmt stmt.now))) }
{
    match visitor.visit(inherited, Part::Stmt(stmt))? {
        None => Ok(()),
        Some(below) => within_stmt(visitor, &below, stmt),
    }
}

#[cycle(walk)]
#[tactic(auto, using(js_tree::proofs::Equations::tree_rules))]
fn within_stmt<V: Visitor>(
    visitor: &mut V,
    inherited: &V::Inherited,
    stmt: &Stmt,
) -> Result<(), Memory>
    ensures { IfOk result (λ _. V.found visitor.new ≡ V.found visitor.old ++ within_stmt V.own V.down (plain_stmt stmt.now) (V.told inherited.now)) }
{
    match &stmt.node {
        StmtNode::Directive(_) => Ok(()),
        StmtNode::Block(statements) => of_stmts(visitor, inherited, statements.as_slice()),
        StmtNode::VariableDeclaration(_, declarators) => of_declarators(
            visitor,
            inherited,
            declarators.as_slice(),
        ),
        StmtNode::Empty => Ok(()),
        StmtNode::Expression(expression) => of_expr(visitor, inherited, expression.get()),
        StmtNode::If(test, then, otherwise) => {
            of_expr(visitor, inherited, test.get())?;
            of_then(visitor, inherited, then.get())?;
            of_else(visitor, inherited, otherwise)
        }
        StmtNode::DoWhile(body, test) => {
            of_stmt(visitor, inherited, body.get())?;
            of_expr(visitor, inherited, test.get())
        }
        StmtNode::While(test, body) => {
            of_expr(visitor, inherited, test.get())?;
            of_stmt(visitor, inherited, body.get())
        }
        StmtNode::For(init, test, update, body) => {
            of_for_init(visitor, inherited, init.get())?;
            of_expr_if(visitor, inherited, test)?;
            of_expr_if(visitor, inherited, update)?;
            of_stmt(visitor, inherited, body.get())
        }
        StmtNode::ForIn(target, object, body) => {
            of_for_target(visitor, inherited, target.get())?;
            of_expr(visitor, inherited, object.get())?;
            of_stmt(visitor, inherited, body.get())
        }
        StmtNode::ForOf(target, iterable, body) => {
            of_for_target(visitor, inherited, target.get())?;
            of_expr(visitor, inherited, iterable.get())?;
            of_stmt(visitor, inherited, body.get())
        }
        StmtNode::Continue(_) => Ok(()),
        StmtNode::Break(_) => Ok(()),
        StmtNode::Return(value) => of_expr_if(visitor, inherited, value),
        StmtNode::Switch(value, cases) => {
            of_expr(visitor, inherited, value.get())?;
            of_cases(visitor, inherited, cases.as_slice())
        }
        StmtNode::Labelled(_, body) => of_stmt(visitor, inherited, body.get()),
        StmtNode::Throw(value) => of_expr(visitor, inherited, value.get()),
        StmtNode::TryCatch(block, catch) => {
            of_stmts(visitor, inherited, block.as_slice())?;
            of_catch(visitor, inherited, catch.get())
        }
        StmtNode::TryFinally(block, finally) => {
            of_stmts(visitor, inherited, block.as_slice())?;
            of_stmts(visitor, inherited, finally.as_slice())
        }
        StmtNode::TryCatchFinally(block, catch, finally) => {
            of_stmts(visitor, inherited, block.as_slice())?;
            of_catch(visitor, inherited, catch.get())?;
            of_stmts(visitor, inherited, finally.as_slice())
        }
        StmtNode::Debugger => Ok(()),
        StmtNode::FunctionDeclaration(_, function) => of_function(
            visitor,
            inherited,
            function.get(),
        ),
    }
}

#[cycle(walk)]
#[tactic(auto, using(js_tree::proofs::Equations::tree_rules))]
fn of_property<V: Visitor>(
    visitor: &mut V,
    inherited: &V::Inherited,
    property: &Property,
) -> Result<(), Memory>
    ensures { IfOk result (λ _. V.found visitor.new ≡ V.found visitor.old ++ visit V.own V.down (V.told inherited.now) (AProperty (plain_property property.now)) (within_property V.own V.down (plain_property property.now))) }
{
    match visitor.visit(inherited, Part::Property(property))? {
        None => Ok(()),
        Some(below) => {
            match &property.node {
                PropertyNode::Shorthand(_) => Ok(()),
                PropertyNode::KeyValue(key, value) => {
                    of_property_key(visitor, &below, key)?;
                    of_expr(visitor, &below, value.get())
                }
                PropertyNode::Method(key, function) => {
                    of_property_key(visitor, &below, key)?;
                    of_function(visitor, &below, function.get())
                }
            }
        }
    }
}

#[cycle(walk)]
#[tactic(auto, using(js_tree::proofs::Equations::tree_rules))]
fn of_property_key<V: Visitor>(
    visitor: &mut V,
    inherited: &V::Inherited,
    property_key: &PropertyKey,
) -> Result<(), Memory>
    ensures { IfOk result (λ _. V.found visitor.new ≡ V.found visitor.old ++ visit V.own V.down (V.told inherited.now) (APropertyKey (plain_property_key property_key.now)) (within_property_key V.own V.down (plain_property_key property_key.now))) }
{
    match visitor.visit(inherited, Part::PropertyKey(property_key))? {
        None => Ok(()),
        Some(below) => {
            match property_key {
                PropertyKey::NameKey(_) => Ok(()),
                PropertyKey::StringKey(_) => Ok(()),
                PropertyKey::NumberKey(_) => Ok(()),
                PropertyKey::ComputedKey(key) => of_expr(visitor, &below, key.get()),
            }
        }
    }
}

#[cycle(walk)]
#[tactic(auto, using(js_tree::proofs::Equations::tree_rules))]
fn of_concise_body<V: Visitor>(
    visitor: &mut V,
    inherited: &V::Inherited,
    concise_body: &ConciseBody,
) -> Result<(), Memory>
    ensures { IfOk result (λ _. V.found visitor.new ≡ V.found visitor.old ++ visit V.own V.down (V.told inherited.now) (AConciseBody (plain_concise_body concise_body.now)) (within_concise_body V.own V.down (plain_concise_body concise_body.now))) }
{
    match visitor.visit(inherited, Part::ConciseBody(concise_body))? {
        None => Ok(()),
        Some(below) => {
            match concise_body {
                ConciseBody::ExpressionBody(value) => of_expr(visitor, &below, value),
                ConciseBody::BlockBody(body) => of_function_body(visitor, &below, body),
            }
        }
    }
}

#[cycle(walk)]
#[tactic(auto, using(js_tree::proofs::Equations::tree_rules))]
fn of_for_init<V: Visitor>(
    visitor: &mut V,
    inherited: &V::Inherited,
    for_init: &ForInit,
) -> Result<(), Memory>
    ensures { IfOk result (λ _. V.found visitor.new ≡ V.found visitor.old ++ visit V.own V.down (V.told inherited.now) (AForInit (plain_for_init for_init.now)) (within_for_init V.own V.down (plain_for_init for_init.now))) }
{
    match visitor.visit(inherited, Part::ForInit(for_init))? {
        None => Ok(()),
        Some(below) => {
            match for_init {
                ForInit::NoInit => Ok(()),
                ForInit::InitDeclaration(_, declarators) => of_declarators(
                    visitor,
                    &below,
                    declarators.as_slice(),
                ),
                ForInit::InitExpression(expression) => of_expr(visitor, &below, expression.get()),
            }
        }
    }
}

#[cycle(walk)]
#[tactic(auto, using(js_tree::proofs::Equations::tree_rules))]
fn of_for_target<V: Visitor>(
    visitor: &mut V,
    inherited: &V::Inherited,
    for_target: &ForTarget,
) -> Result<(), Memory>
    ensures { IfOk result (λ _. V.found visitor.new ≡ V.found visitor.old ++ visit V.own V.down (V.told inherited.now) (AForTarget (plain_for_target for_target.now)) (within_for_target V.own V.down (plain_for_target for_target.now))) }
{
    match visitor.visit(inherited, Part::ForTarget(for_target))? {
        None => Ok(()),
        Some(below) => {
            match for_target {
                ForTarget::TargetDeclaration(_, pattern) => of_pattern(visitor, &below, pattern),
                ForTarget::TargetExpression(target) => of_expr(visitor, &below, target.get()),
            }
        }
    }
}

#[cycle(walk)]
#[tactic(auto, using(js_tree::proofs::Equations::tree_rules))]
fn of_template_part<V: Visitor>(
    visitor: &mut V,
    inherited: &V::Inherited,
    template_part: &TemplatePart,
) -> Result<(), Memory>
    ensures { IfOk result (λ _. V.found visitor.new ≡ V.found visitor.old ++ visit V.own V.down (V.told inherited.now) (ATemplatePart (plain_template_part template_part.now)) (within_template_part V.own V.down (plain_template_part template_part.now))) }
{
    match visitor.visit(inherited, Part::TemplatePart(template_part))? {
        None => Ok(()),
        Some(below) => { of_expr(visitor, &below, &template_part.value) }
    }
}

#[cycle(walk)]
#[tactic(auto, using(js_tree::proofs::Equations::tree_rules))]
fn of_function<V: Visitor>(
    visitor: &mut V,
    inherited: &V::Inherited,
    function: &Function,
) -> Result<(), Memory>
    ensures { IfOk result (λ _. V.found visitor.new ≡ V.found visitor.old ++ visit V.own V.down (V.told inherited.now) (AFunction (plain_function function.now)) (within_function V.own V.down (plain_function function.now))) }
{
    match visitor.visit(inherited, Part::Function(function))? {
        None => Ok(()),
        Some(below) => {
            of_params(visitor, &below, function.params.as_slice())?;
            of_function_body(visitor, &below, &function.body)
        }
    }
}

#[cycle(walk)]
#[tactic(auto, using(js_tree::proofs::Equations::tree_rules))]
fn of_function_body<V: Visitor>(
    visitor: &mut V,
    inherited: &V::Inherited,
    function_body: &FunctionBody,
) -> Result<(), Memory>
    ensures { IfOk result (λ _. V.found visitor.new ≡ V.found visitor.old ++ visit V.own V.down (V.told inherited.now) (AFunctionBody (plain_function_body function_body.now)) (within_function_body V.own V.down (plain_function_body function_body.now))) }
{
    match visitor.visit(inherited, Part::FunctionBody(function_body))? {
        None => Ok(()),
        Some(below) => { of_stmts(visitor, &below, function_body.statements.as_slice()) }
    }
}

#[cycle(walk)]
#[tactic(auto, using(js_tree::proofs::Equations::tree_rules))]
fn of_param<V: Visitor>(
    visitor: &mut V,
    inherited: &V::Inherited,
    param: &Param,
) -> Result<(), Memory>
    ensures { IfOk result (λ _. V.found visitor.new ≡ V.found visitor.old ++ visit V.own V.down (V.told inherited.now) (AParam (plain_param param.now)) (within_param V.own V.down (plain_param param.now))) }
{
    match visitor.visit(inherited, Part::Param(param))? {
        None => Ok(()),
        Some(below) => {
            of_pattern(visitor, &below, &param.pattern)?;
            of_expr_if(visitor, &below, &param.default)
        }
    }
}

#[cycle(walk)]
#[tactic(auto, using(js_tree::proofs::Equations::tree_rules))]
fn of_declarator<V: Visitor>(
    visitor: &mut V,
    inherited: &V::Inherited,
    declarator: &Declarator,
) -> Result<(), Memory>
    ensures { IfOk result (λ _. V.found visitor.new ≡ V.found visitor.old ++ visit V.own V.down (V.told inherited.now) (ADeclarator (plain_declarator declarator.now)) (within_declarator V.own V.down (plain_declarator declarator.now))) }
{
    match visitor.visit(inherited, Part::Declarator(declarator))? {
        None => Ok(()),
        Some(below) => {
            of_pattern(visitor, &below, &declarator.pattern)?;
            of_expr_if(visitor, &below, &declarator.initializer)
        }
    }
}

#[cycle(walk)]
#[tactic(auto, using(js_tree::proofs::Equations::tree_rules))]
fn of_case<V: Visitor>(visitor: &mut V, inherited: &V::Inherited, case: &Case) -> Result<(), Memory>
    ensures { IfOk result (λ _. V.found visitor.new ≡ V.found visitor.old ++ visit V.own V.down (V.told inherited.now) (ACase (plain_case case.now)) (within_case V.own V.down (plain_case case.now))) }
{
    match visitor.visit(inherited, Part::Case(case))? {
        None => Ok(()),
        Some(below) => {
            of_expr_if(visitor, &below, &case.test)?;
            of_stmts(visitor, &below, case.statements.as_slice())
        }
    }
}

#[cycle(walk)]
#[tactic(auto, using(js_tree::proofs::Equations::tree_rules))]
fn of_catch<V: Visitor>(
    visitor: &mut V,
    inherited: &V::Inherited,
    catch: &Catch,
) -> Result<(), Memory>
    ensures { IfOk result (λ _. V.found visitor.new ≡ V.found visitor.old ++ visit V.own V.down (V.told inherited.now) (ACatch (plain_catch catch.now)) (within_catch V.own V.down (plain_catch catch.now))) }
{
    match visitor.visit(inherited, Part::Catch(catch))? {
        None => Ok(()),
        Some(below) => {
            of_pattern_if(visitor, &below, &catch.parameter)?;
            of_stmts(visitor, &below, catch.statements.as_slice())
        }
    }
}

#[cycle(walk)]
#[tactic(auto, using(js_tree::proofs::Equations::tree_rules))]
fn of_then<V: Visitor>(visitor: &mut V, inherited: &V::Inherited, stmt: &Stmt) -> Result<(), Memory>
    ensures { IfOk result (λ _. V.found visitor.new ≡ V.found visitor.old ++ visit V.own V.down (V.told inherited.now) (AThen (plain_stmt stmt.now)) (λ b. visit V.own V.down b (AStmt (plain_stmt stmt.now)) (within_stmt V.own V.down (plain_stmt stmt.now)))) }
{
    match visitor.visit(inherited, Part::Then(stmt))? {
        None => Ok(()),
        Some(below) => of_stmt(visitor, &below, stmt),
    }
}

#[cycle(walk)]
#[tactic(auto, using(js_tree::proofs::Equations::tree_rules))]
fn of_else<V: Visitor>(
    visitor: &mut V,
    inherited: &V::Inherited,
    stmt_if: &Option<Boxed<Stmt>>,
) -> Result<(), Memory>
    ensures { IfOk result (λ _. V.found visitor.new ≡ V.found visitor.old ++ visit V.own V.down (V.told inherited.now) (AnElse (plain_stmt_if stmt_if.now)) (within_stmt_if V.own V.down (plain_stmt_if stmt_if.now))) }
{
    match visitor.visit(inherited, Part::Else(stmt_if))? {
        None => Ok(()),
        Some(below) => of_stmt_if(visitor, &below, stmt_if),
    }
}

#[cycle(walk)]
#[tactic(auto, using(js_tree::proofs::Equations::tree_rules))]
fn of_expr_if<V: Visitor>(
    visitor: &mut V,
    inherited: &V::Inherited,
    expr_if: &Option<Boxed<Expr>>,
) -> Result<(), Memory>
    ensures { IfOk result (λ _. V.found visitor.new ≡ V.found visitor.old ++ within_expr_if V.own V.down (plain_expr_if expr_if.now) (V.told inherited.now)) }
{
    match expr_if {
        None => Ok(()),
        Some(expr) => of_expr(visitor, inherited, expr.get()),
    }
}

#[cycle(walk)]
#[tactic(auto, using(js_tree::proofs::Equations::tree_rules))]
fn of_stmt_if<V: Visitor>(
    visitor: &mut V,
    inherited: &V::Inherited,
    stmt_if: &Option<Boxed<Stmt>>,
) -> Result<(), Memory>
    ensures { IfOk result (λ _. V.found visitor.new ≡ V.found visitor.old ++ within_stmt_if V.own V.down (plain_stmt_if stmt_if.now) (V.told inherited.now)) }
{
    match stmt_if {
        None => Ok(()),
        Some(stmt) => of_stmt(visitor, inherited, stmt.get()),
    }
}

#[cycle(walk)]
#[tactic(auto, using(js_tree::proofs::Equations::tree_rules))]
fn of_template_parts<V: Visitor>(
    visitor: &mut V,
    inherited: &V::Inherited,
    template_parts: &[TemplatePart],
) -> Result<(), Memory>
    ensures { IfOk result (λ _. V.found visitor.new ≡ V.found visitor.old ++ within_template_parts V.own V.down (plain_template_parts template_parts.now) (V.told inherited.now)) }
{
    for template_part in template_parts {
        of_template_part(visitor, inherited, template_part)?;
    }
    Ok(())
}

#[cycle(walk)]
#[tactic(auto, using(js_tree::proofs::Equations::tree_rules))]
fn of_properties<V: Visitor>(
    visitor: &mut V,
    inherited: &V::Inherited,
    properties: &[Property],
) -> Result<(), Memory>
    ensures { IfOk result (λ _. V.found visitor.new ≡ V.found visitor.old ++ within_properties V.own V.down (plain_properties properties.now) (V.told inherited.now)) }
{
    for property in properties {
        of_property(visitor, inherited, property)?;
    }
    Ok(())
}

#[cycle(walk)]
#[tactic(auto, using(js_tree::proofs::Equations::tree_rules))]
fn of_params<V: Visitor>(
    visitor: &mut V,
    inherited: &V::Inherited,
    params: &[Param],
) -> Result<(), Memory>
    ensures { IfOk result (λ _. V.found visitor.new ≡ V.found visitor.old ++ within_params V.own V.down (plain_params params.now) (V.told inherited.now)) }
{
    for param in params {
        of_param(visitor, inherited, param)?;
    }
    Ok(())
}

#[cycle(walk)]
#[tactic(auto, using(js_tree::proofs::Equations::tree_rules))]
fn of_exprs<V: Visitor>(
    visitor: &mut V,
    inherited: &V::Inherited,
    exprs: &[Expr],
) -> Result<(), Memory>
    ensures { IfOk result (λ _. V.found visitor.new ≡ V.found visitor.old ++ within_exprs V.own V.down (plain_exprs exprs.now) (V.told inherited.now)) }
{
    for expr in exprs {
        of_expr(visitor, inherited, expr)?;
    }
    Ok(())
}

#[cycle(walk)]
#[tactic(auto, using(js_tree::proofs::Equations::tree_rules))]
fn of_stmts<V: Visitor>(
    visitor: &mut V,
    inherited: &V::Inherited,
    stmts: &[Stmt],
) -> Result<(), Memory>
    ensures { IfOk result (λ _. V.found visitor.new ≡ V.found visitor.old ++ within_stmts V.own V.down (plain_stmts stmts.now) (V.told inherited.now)) }
{
    for stmt in stmts {
        of_stmt(visitor, inherited, stmt)?;
    }
    Ok(())
}

#[cycle(walk)]
#[tactic(auto, using(js_tree::proofs::Equations::tree_rules))]
fn of_declarators<V: Visitor>(
    visitor: &mut V,
    inherited: &V::Inherited,
    declarators: &[Declarator],
) -> Result<(), Memory>
    ensures { IfOk result (λ _. V.found visitor.new ≡ V.found visitor.old ++ within_declarators V.own V.down (plain_declarators declarators.now) (V.told inherited.now)) }
{
    for declarator in declarators {
        of_declarator(visitor, inherited, declarator)?;
    }
    Ok(())
}

#[cycle(walk)]
#[tactic(auto, using(js_tree::proofs::Equations::tree_rules))]
fn of_cases<V: Visitor>(
    visitor: &mut V,
    inherited: &V::Inherited,
    cases: &[Case],
) -> Result<(), Memory>
    ensures { IfOk result (λ _. V.found visitor.new ≡ V.found visitor.old ++ within_cases V.own V.down (plain_cases cases.now) (V.told inherited.now)) }
{
    for case in cases {
        of_case(visitor, inherited, case)?;
    }
    Ok(())
}

#[tactic(auto, using(js_tree::proofs::Equations::tree_rules))]
fn of_pattern<V: Visitor>(
    visitor: &mut V,
    inherited: &V::Inherited,
    pattern: &Pattern,
) -> Result<(), Memory>
    ensures { IfOk result (λ _. V.found visitor.new ≡ V.found visitor.old ++ V.own (V.told inherited.now) (APattern (plain_pattern pattern.now))) }
{
    let _below = visitor.visit(inherited, Part::Pattern(pattern))?;
    Ok(())
}

#[tactic(auto, using(js_tree::proofs::Equations::tree_rules))]
fn of_pattern_if<V: Visitor>(
    visitor: &mut V,
    inherited: &V::Inherited,
    pattern_if: &Option<Pattern>,
) -> Result<(), Memory>
    ensures { IfOk result (λ _. V.found visitor.new ≡ V.found visitor.old ++ within_pattern_if V.own V.down (plain_pattern_if pattern_if.now) (V.told inherited.now)) }
{
    match pattern_if {
        None => Ok(()),
        Some(pattern) => of_pattern(visitor, inherited, pattern),
    }
}
