ghost use Rattle.std.specs.Prelude.{◌≡◌, ◌∷◌, ◌++◌, [], IfOk};
ghost use Rattle.js_scopes.specs.Declarations as spec;
ghost use Rattle.js_scopes.specs.Mentions.{start};
ghost use Rattle.js_scopes.specs.private.Plain.{plain_all};
ghost use Rattle.js_tree.specs.Tree.{plain_case, plain_cases, plain_catch, plain_declarator, plain_declarators, plain_for_init, plain_for_target, plain_param, plain_params, plain_pattern, plain_pattern_if, plain_stmt, plain_stmt_if, plain_stmts};

use crate::binding::Binding;
use crate::place::start_of;
use items::{Boxed, Items, Memory};
use js_tree::{
    Case, Catch, Declarator, ForInit, ForTarget, Identifier, Loc, Name, Param, Pattern,
    PatternNode, Pos, Stmt, StmtNode, VariableKind,
};

/// A name that a scope declares, lent from the tree.
#[derive(Clone, Copy)]
pub(crate) struct Declared<'t> {
    /// How.
    pub how: Binding,
    /// Where its node starts.
    pub at: Pos,
    /// The name.
    pub name: &'t str,
}

fn put<'t>(
    how: Binding,
    loc: &Option<Loc>,
    name: &'t Name,
    out: &mut Items<Declared<'t>>,
) -> Result<(), Memory>
    ensures { IfOk result (λ _. plain_all out.new ≡ plain_all out.old ++ record { how = how; at = start loc.now; name = name.now } ∷ []) }
{
    out.push(Declared {
        how,
        at: start_of(loc),
        name: name.as_str(),
    })
}

#[tactic(auto, using(js_tree::proofs::Equations::tree_rules))]
fn bound<'t>(
    how: Binding,
    pattern: &'t Pattern,
    out: &mut Items<Declared<'t>>,
) -> Result<(), Memory>
    ensures { IfOk result (λ _. plain_all out.new ≡ plain_all out.old ++ spec.bound how (plain_pattern pattern.now)) }
{
    match &pattern.node {
        PatternNode::BindingIdentifier(name) => put(how, &pattern.loc, name, out),
    }
}

/// The name of a `catch`, where it has one.
#[tactic(auto, using(js_tree::proofs::Equations::tree_rules))]
pub(crate) fn bound_if<'t>(
    how: Binding,
    pattern: &'t Option<Pattern>,
    out: &mut Items<Declared<'t>>,
) -> Result<(), Memory>
    ensures { IfOk result (λ _. plain_all out.new ≡ plain_all out.old ++ spec.bound_if how (plain_pattern_if pattern.now)) }
{
    match pattern {
        None => Ok(()),
        Some(pattern) => bound(how, pattern, out),
    }
}

#[tactic(auto, using(js_tree::proofs::Equations::tree_rules))]
fn one_declarator<'t>(
    how: Binding,
    declarator: &'t Declarator,
    out: &mut Items<Declared<'t>>,
) -> Result<(), Memory>
    ensures { IfOk result (λ _. plain_all out.new ≡ plain_all out.old ++ spec.declarator how (plain_declarator declarator.now)) }
{
    bound(how, &declarator.pattern, out)
}

#[tactic(auto, using(js_tree::proofs::Equations::tree_rules))]
fn declarators<'t>(
    how: Binding,
    list: &'t [Declarator],
    out: &mut Items<Declared<'t>>,
) -> Result<(), Memory>
    ensures { IfOk result (λ _. plain_all out.new ≡ plain_all out.old ++ spec.declarators how (plain_declarators list.now)) }
{
    for declarator in list {
        one_declarator(how, declarator, out)?;
    }
    Ok(())
}

#[tactic(auto, using(js_tree::proofs::Equations::tree_rules))]
fn parameter<'t>(param: &'t Param, out: &mut Items<Declared<'t>>) -> Result<(), Memory>
    ensures { IfOk result (λ _. plain_all out.new ≡ plain_all out.old ++ spec.parameter (plain_param param.now)) }
{
    bound(Binding::Parameter, &param.pattern, out)
}

/// The parameters of a function.
#[tactic(auto, using(js_tree::proofs::Equations::tree_rules))]
pub(crate) fn parameters<'t>(list: &'t [Param], out: &mut Items<Declared<'t>>) -> Result<(), Memory>
    ensures { IfOk result (λ _. plain_all out.new ≡ plain_all out.old ++ spec.parameters (plain_params list.now)) }
{
    for param in list {
        parameter(param, out)?;
    }
    Ok(())
}

fn function_binding(top: bool) -> Binding
    ensures { result ≡ spec.function_binding top }
{
    if top { Binding::Var } else { Binding::Lexical }
}

fn var_alone<'t>(
    kind: VariableKind,
    list: &'t [Declarator],
    out: &mut Items<Declared<'t>>,
) -> Result<(), Memory>
    ensures { IfOk result (λ _. plain_all out.new ≡ plain_all out.old ++ spec.var_alone kind (plain_declarators list.now)) }
{
    match kind {
        VariableKind::Var => declarators(Binding::Var, list, out),
        VariableKind::Let => Ok(()),
        VariableKind::Const => Ok(()),
    }
}

fn lexical_alone<'t>(
    kind: VariableKind,
    list: &'t [Declarator],
    out: &mut Items<Declared<'t>>,
) -> Result<(), Memory>
    ensures { IfOk result (λ _. plain_all out.new ≡ plain_all out.old ++ spec.lexical_alone kind (plain_declarators list.now)) }
{
    match kind {
        VariableKind::Var => Ok(()),
        VariableKind::Let => declarators(Binding::Lexical, list, out),
        VariableKind::Const => declarators(Binding::Lexical, list, out),
    }
}

#[tactic(auto, using(js_tree::proofs::Equations::tree_rules))]
fn var_of_init<'t>(init: &'t ForInit, out: &mut Items<Declared<'t>>) -> Result<(), Memory>
    ensures { IfOk result (λ _. plain_all out.new ≡ plain_all out.old ++ spec.var_of_init (plain_for_init init.now)) }
{
    match init {
        ForInit::NoInit => Ok(()),
        ForInit::InitDeclaration(kind, list) => var_alone(*kind, list.as_slice(), out),
        ForInit::InitExpression(_) => Ok(()),
    }
}

#[tactic(auto, using(js_tree::proofs::Equations::tree_rules))]
fn var_of_target<'t>(target: &'t ForTarget, out: &mut Items<Declared<'t>>) -> Result<(), Memory>
    ensures { IfOk result (λ _. plain_all out.new ≡ plain_all out.old ++ spec.var_of_target (plain_for_target target.now)) }
{
    match target {
        ForTarget::TargetDeclaration(VariableKind::Var, pattern) => bound(
            Binding::Var,
            pattern,
            out,
        ),
        ForTarget::TargetDeclaration(VariableKind::Let, _) => Ok(()),
        ForTarget::TargetDeclaration(VariableKind::Const, _) => Ok(()),
        ForTarget::TargetExpression(_) => Ok(()),
    }
}

#[cycle(var_names)]
#[tactic(auto, using(js_tree::proofs::Equations::tree_rules))]
fn var_stmt<'t>(stmt: &'t Stmt, out: &mut Items<Declared<'t>>) -> Result<(), Memory>
    ensures { IfOk result (λ _. plain_all out.new ≡ plain_all out.old ++ spec.var_stmt (plain_stmt stmt.now)) }
{
    match &stmt.node {
        StmtNode::Directive(_) => Ok(()),
        StmtNode::Block(statements) => var_stmts(statements.as_slice(), out),
        StmtNode::VariableDeclaration(kind, list) => var_alone(*kind, list.as_slice(), out),
        StmtNode::Empty => Ok(()),
        StmtNode::Expression(_) => Ok(()),
        StmtNode::If(_, holds, fails) => {
            var_stmt(holds.get(), out)?;
            var_stmt_if(fails, out)
        }
        StmtNode::DoWhile(body, _) => var_stmt(body.get(), out),
        StmtNode::While(_, body) => var_stmt(body.get(), out),
        StmtNode::For(init, _, _, body) => {
            var_of_init(init.get(), out)?;
            var_stmt(body.get(), out)
        }
        StmtNode::ForIn(target, _, body) => {
            var_of_target(target.get(), out)?;
            var_stmt(body.get(), out)
        }
        StmtNode::ForOf(target, _, body) => {
            var_of_target(target.get(), out)?;
            var_stmt(body.get(), out)
        }
        StmtNode::Continue(_) => Ok(()),
        StmtNode::Break(_) => Ok(()),
        StmtNode::Return(_) => Ok(()),
        StmtNode::Switch(_, cases) => var_cases(cases.as_slice(), out),
        StmtNode::Labelled(_, body) => var_stmt(body.get(), out),
        StmtNode::Throw(_) => Ok(()),
        StmtNode::TryCatch(block, catch) => {
            var_stmts(block.as_slice(), out)?;
            var_catch(catch.get(), out)
        }
        StmtNode::TryFinally(block, finally) => {
            var_stmts(block.as_slice(), out)?;
            var_stmts(finally.as_slice(), out)
        }
        StmtNode::TryCatchFinally(block, catch, finally) => {
            var_stmts(block.as_slice(), out)?;
            var_catch(catch.get(), out)?;
            var_stmts(finally.as_slice(), out)
        }
        StmtNode::Debugger => Ok(()),
        StmtNode::FunctionDeclaration(_, _) => Ok(()),
    }
}

#[cycle(var_names)]
#[tactic(auto, using(js_tree::proofs::Equations::tree_rules))]
fn var_stmts<'t>(list: &'t [Stmt], out: &mut Items<Declared<'t>>) -> Result<(), Memory>
    ensures { IfOk result (λ _. plain_all out.new ≡ plain_all out.old ++ spec.var_stmts (plain_stmts list.now)) }
{
    for stmt in list {
        var_stmt(stmt, out)?;
    }
    Ok(())
}

#[cycle(var_names)]
#[tactic(auto, using(js_tree::proofs::Equations::tree_rules))]
fn var_stmt_if<'t>(
    stmt: &'t Option<Boxed<Stmt>>,
    out: &mut Items<Declared<'t>>,
) -> Result<(), Memory>
    ensures { IfOk result (λ _. plain_all out.new ≡ plain_all out.old ++ spec.var_stmt_if (plain_stmt_if stmt.now)) }
{
    match stmt {
        None => Ok(()),
        Some(stmt) => var_stmt(stmt.get(), out),
    }
}

#[cycle(var_names)]
#[tactic(auto, using(js_tree::proofs::Equations::tree_rules))]
fn var_catch<'t>(catch: &'t Catch, out: &mut Items<Declared<'t>>) -> Result<(), Memory>
    ensures { IfOk result (λ _. plain_all out.new ≡ plain_all out.old ++ spec.var_catch (plain_catch catch.now)) }
{
    var_stmts(catch.statements.as_slice(), out)
}

#[cycle(var_names)]
#[tactic(auto, using(js_tree::proofs::Equations::tree_rules))]
fn var_case<'t>(case: &'t Case, out: &mut Items<Declared<'t>>) -> Result<(), Memory>
    ensures { IfOk result (λ _. plain_all out.new ≡ plain_all out.old ++ spec.var_case (plain_case case.now)) }
{
    var_stmts(case.statements.as_slice(), out)
}

#[cycle(var_names)]
#[tactic(auto, using(js_tree::proofs::Equations::tree_rules))]
fn var_cases<'t>(list: &'t [Case], out: &mut Items<Declared<'t>>) -> Result<(), Memory>
    ensures { IfOk result (λ _. plain_all out.new ≡ plain_all out.old ++ spec.var_cases (plain_cases list.now)) }
{
    for case in list {
        var_case(case, out)?;
    }
    Ok(())
}

#[tactic(auto, using(js_tree::proofs::Equations::tree_rules))]
fn own_of_stmt<'t>(top: bool, stmt: &'t Stmt, out: &mut Items<Declared<'t>>) -> Result<(), Memory>
    ensures { IfOk result (λ _. plain_all out.new ≡ plain_all out.old ++ spec.own_of_stmt top (plain_stmt stmt.now)) }
{
    match &stmt.node {
        StmtNode::VariableDeclaration(kind, list) => lexical_alone(*kind, list.as_slice(), out),
        StmtNode::FunctionDeclaration(name, _) => own_name(top, name, out),
        StmtNode::Directive(_)
        | StmtNode::Block(_)
        | StmtNode::Empty
        | StmtNode::Expression(_)
        | StmtNode::If(_, _, _)
        | StmtNode::DoWhile(_, _)
        | StmtNode::While(_, _)
        | StmtNode::For(_, _, _, _)
        | StmtNode::ForIn(_, _, _)
        | StmtNode::ForOf(_, _, _)
        | StmtNode::Continue(_)
        | StmtNode::Break(_)
        | StmtNode::Return(_)
        | StmtNode::Switch(_, _)
        | StmtNode::Labelled(_, _)
        | StmtNode::Throw(_)
        | StmtNode::TryCatch(_, _)
        | StmtNode::TryFinally(_, _)
        | StmtNode::TryCatchFinally(_, _, _)
        | StmtNode::Debugger => Ok(()),
    }
}

fn declared_stmt<'t>(top: bool, stmt: &'t Stmt, out: &mut Items<Declared<'t>>) -> Result<(), Memory>
    ensures { IfOk result (λ _. plain_all out.new ≡ plain_all out.old ++ spec.declared_stmt top (plain_stmt stmt.now)) }
{
    own_of_stmt(top, stmt, out)?;
    var_stmt(stmt, out)
}

fn own_name<'t>(
    top: bool,
    name: &'t Identifier,
    out: &mut Items<Declared<'t>>,
) -> Result<(), Memory>
    ensures { IfOk result (λ _. plain_all out.new ≡ plain_all out.old ++ record { how = spec.function_binding top; at = start name.now.loc; name = name.now.name } ∷ []) }
{
    put(function_binding(top), &name.loc, &name.name, out)
}

/// What statements declare in their own scope, which is the top of a file or of a function's body,
/// or a block.
#[tactic(auto, using(js_tree::proofs::Equations::tree_rules))]
pub(crate) fn declared_stmts<'t>(
    top: bool,
    list: &'t [Stmt],
    out: &mut Items<Declared<'t>>,
) -> Result<(), Memory>
    ensures { IfOk result (λ _. plain_all out.new ≡ plain_all out.old ++ spec.declared_stmts top (plain_stmts list.now)) }
{
    for stmt in list {
        declared_stmt(top, stmt, out)?;
    }
    Ok(())
}

#[tactic(auto, using(js_tree::proofs::Equations::tree_rules))]
fn declared_case<'t>(case: &'t Case, out: &mut Items<Declared<'t>>) -> Result<(), Memory>
    ensures { IfOk result (λ _. plain_all out.new ≡ plain_all out.old ++ spec.declared_case (plain_case case.now)) }
{
    declared_stmts(false, case.statements.as_slice(), out)
}

/// What the clauses of a `switch` declare.
#[tactic(auto, using(js_tree::proofs::Equations::tree_rules))]
pub(crate) fn declared_cases<'t>(
    list: &'t [Case],
    out: &mut Items<Declared<'t>>,
) -> Result<(), Memory>
    ensures { IfOk result (λ _. plain_all out.new ≡ plain_all out.old ++ spec.declared_cases (plain_cases list.now)) }
{
    for case in list {
        declared_case(case, out)?;
    }
    Ok(())
}

/// What the head of a `for` declares, if it is lexical, and the `var` names of the body.
#[tactic(auto, using(js_tree::proofs::Equations::tree_rules))]
pub(crate) fn head_init<'t>(
    init: &'t ForInit,
    body: &'t Stmt,
    out: &mut Items<Declared<'t>>,
) -> Result<(), Memory>
    ensures { IfOk result (λ _. plain_all out.new ≡ plain_all out.old ++ spec.head_init (plain_for_init init.now) (plain_stmt body.now)) }
{
    match init {
        ForInit::NoInit => Ok(()),
        ForInit::InitDeclaration(VariableKind::Var, _) => Ok(()),
        ForInit::InitDeclaration(VariableKind::Let | VariableKind::Const, list) => {
            declarators(Binding::Lexical, list.as_slice(), out)?;
            var_stmt(body, out)
        }
        ForInit::InitExpression(_) => Ok(()),
    }
}

/// What the head of a `for` with `in` or `of` declares, if it is lexical, and the `var` names of the
/// body.
#[tactic(auto, using(js_tree::proofs::Equations::tree_rules))]
pub(crate) fn head_target<'t>(
    target: &'t ForTarget,
    body: &'t Stmt,
    out: &mut Items<Declared<'t>>,
) -> Result<(), Memory>
    ensures { IfOk result (λ _. plain_all out.new ≡ plain_all out.old ++ spec.head_target (plain_for_target target.now) (plain_stmt body.now)) }
{
    match target {
        ForTarget::TargetDeclaration(VariableKind::Var, _) => Ok(()),
        ForTarget::TargetDeclaration(VariableKind::Let | VariableKind::Const, pattern) => {
            bound(Binding::Lexical, pattern, out)?;
            var_stmt(body, out)
        }
        ForTarget::TargetExpression(_) => Ok(()),
    }
}
