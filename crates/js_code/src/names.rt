// The names that parts of a tree declare.

ghost use Rattle.std.specs.Prelude.{◌≡◌, ◌++◌, ℕ, Bool, true, false, List, Some, map, IfOk, OnOk};
ghost use Rattle.js_tree.specs.Tree.{plain_cases, plain_declarators, plain_for_init, plain_for_target, plain_param, plain_params, plain_pattern, plain_stmt, plain_stmts};
ghost use Rattle.js_value.specs.Realm.{undefined};
ghost use Rattle.js_meaning.specs.Scopes as scopes;
ghost use Rattle.js_meaning.specs.Scopes.{bound_names, cases_stmts, lexical_stmt, lexical_stmts, names_of, once, uninitialized as not_initialized, variable_of};
ghost use Rattle.js_meaning.specs.VarNames.{declares, is_var, own_var, var_stmts};
ghost use Rattle.js_walk.specs.Part.{AForInit, AForTarget, APattern, AStmt};
ghost use Rattle.js_code.specs.Scopes.{told_before};
ghost use Rattle.js_code.specs.private.Seen.{defaulted};

use crate::compiling::{bound_name, shared};
use crate::once::once;
use crate::scopes::{BlockScope, BodyScope, Hoisted, NewName};
use items::{Items, Memory};
use js_names::SharedName;
use js_tree::{
    Case, Declarator, ForInit, ForTarget, Param, Pattern, PatternNode, Stmt, StmtNode, VariableKind,
};
use js_walk::{Part, Visitor, visit_stmts};
use std::alloc::Global;

/// What a block begins with that has these statements, and these functions among them.
pub fn block_scope(
    alloc: Global,
    stmts: &[Stmt],
    functions: Items<Hoisted>,
) -> Result<BlockScope, Memory>
    ensures { IfOk result (λ scope. scope ≡ record {
      names = map (variable_of undefined) (names_of functions) ++ lexical_stmts (plain_stmts stmts.now);
      functions = functions;
    }) }
{
    let mut names = Items::new(alloc);
    push_variables(functions.as_slice(), &mut names)?;
    push_lexical(alloc, stmts, &mut names)?;
    Ok(BlockScope { names, functions })
}

/// What the clauses of a `switch` begin with, where these functions are among them.
pub fn case_scope(
    alloc: Global,
    cases: &[Case],
    functions: Items<Hoisted>,
) -> Result<BlockScope, Memory>
    ensures { IfOk result (λ scope. scope ≡ record {
      names = map (variable_of undefined) (names_of functions) ++ lexical_stmts (cases_stmts (plain_cases cases.now));
      functions = functions;
    }) }
{
    let mut names = Items::new(alloc);
    push_variables(functions.as_slice(), &mut names)?;
    for case in cases {
        push_lexical(alloc, case.statements.as_slice(), &mut names)?;
    }
    Ok(BlockScope { names, functions })
}

/// What a body begins with that has these names of parameters, these statements, and these functions among them.
pub fn body_scope(
    alloc: Global,
    apart: bool,
    params: Items<SharedName>,
    stmts: &[Stmt],
    functions: Items<Hoisted>,
) -> Result<BodyScope, Memory>
    ensures { IfOk result (λ scope. scope ≡ record {
      params = params;
      apart = apart;
      variables = once (told_before apart params) (var_stmts (plain_stmts stmts.now) ++ names_of functions);
      lexical = lexical_stmts (plain_stmts stmts.now);
      functions = functions;
    }) }
{
    let mut names = var_names(alloc, stmts)?;
    push_names(functions.as_slice(), &mut names)?;
    let before: &[SharedName] = if apart { &[] } else { params.as_slice() };
    let variables = once(alloc, before, names.as_slice())?;
    let mut lexical = Items::new(alloc);
    push_lexical(alloc, stmts, &mut lexical)?;
    Ok(BodyScope {
        params,
        apart,
        variables,
        lexical,
        functions,
    })
}

/// What the body of a function begins with.
pub fn code_scope(
    alloc: Global,
    params: &[Param],
    stmts: &[Stmt],
    functions: Items<Hoisted>,
) -> Result<BodyScope, Memory>
    ensures { IfOk result (λ scope. scope ≡ record {
      params = scopes.param_names (plain_params params.now);
      apart = scopes.has_defaults (plain_params params.now);
      variables = once (told_before (scopes.has_defaults (plain_params params.now)) (scopes.param_names (plain_params params.now)))
          (var_stmts (plain_stmts stmts.now) ++ names_of functions);
      lexical = lexical_stmts (plain_stmts stmts.now);
      functions = functions;
    }) }
{
    let names = param_names(alloc, params)?;
    body_scope(alloc, has_defaults(params), names, stmts, functions)
}

/// The names of parameters.
fn param_names(alloc: Global, params: &[Param]) -> Result<Items<SharedName>, Memory>
    ensures { IfOk result (λ names. names ≡ scopes.param_names (plain_params params.now)) }
{
    let mut names = Items::new(alloc);
    for param in params {
        names.push(bound_name(alloc, &param.pattern)?)?;
    }
    Ok(names)
}

/// Whether some parameter has a default.
#[tactic(auto, using(crate::proofs::Told::defaults_more))]
fn has_defaults(params: &[Param]) -> bool
    ensures { result ≡ scopes.has_defaults (plain_params params.now) }
{
    for param in params {
        if has_default(param) {
            return true;
        }
    }
    false
}

/// How many parameters stand before the first with a default.
#[tactic(auto, using(crate::proofs::Told::expected_more))]
pub fn expected_arguments(params: &[Param]) -> usize
    ensures { result ≡ scopes.expected_arguments (plain_params params.now) }
{
    for index in 0..params.len() {
        if has_default(&params[index]) {
            return index;
        }
    }
    params.len()
}

/// Whether a parameter has a default.
fn has_default(param: &Param) -> bool
    ensures { result ≡ defaulted (plain_param param.now) }
{
    match &param.default {
        Some(_) => true,
        None => false,
    }
}

/// Puts the names of some functions at the end, as variables.
fn push_variables(functions: &[Hoisted], names: &mut Items<NewName>) -> Result<(), Memory>
    ensures { OnOk result (names.new ≡ names.old ++ map (variable_of undefined) (names_of functions.now)) }
{
    for function in functions {
        let name = function.name().name().copy()?;
        names.push(NewName::variable(name))?;
    }
    Ok(())
}

/// Puts the names of some functions at the end.
fn push_names(functions: &[Hoisted], names: &mut Items<SharedName>) -> Result<(), Memory>
    ensures { OnOk result (names.new ≡ names.old ++ names_of functions.now) }
{
    for function in functions {
        names.push(function.name().name().copy()?)?;
    }
    Ok(())
}

/// Puts the names of `let` and `const` of a list of statements at the end.
fn push_lexical(alloc: Global, stmts: &[Stmt], names: &mut Items<NewName>) -> Result<(), Memory>
    ensures { OnOk result (names.new ≡ names.old ++ lexical_stmts (plain_stmts stmts.now)) }
{
    for stmt in stmts {
        push_lexical_of(alloc, stmt, names)?;
    }
    Ok(())
}

/// Puts the names of `let` and `const` that a statement declares at the end.
#[tactic(auto, using(js_tree::proofs::Equations::tree_rules))]
fn push_lexical_of(alloc: Global, stmt: &Stmt, names: &mut Items<NewName>) -> Result<(), Memory>
    ensures { OnOk result (names.new ≡ names.old ++ lexical_stmt (plain_stmt stmt.now)) }
{
    match &stmt.node {
        StmtNode::VariableDeclaration(kind, declarators) => {
            lexical_names(alloc, *kind, declarators.as_slice(), names)
        }
        _ => Ok(()),
    }
}

/// Puts the names that a declaration declares in its scope at the end.
pub fn lexical_names(
    alloc: Global,
    kind: VariableKind,
    declarators: &[Declarator],
    names: &mut Items<NewName>,
) -> Result<(), Memory>
    ensures { OnOk result (names.new ≡ names.old ++ scopes.lexical_names kind (bound_names (plain_declarators declarators.now))) }
{
    match kind {
        VariableKind::Var => Ok(()),
        VariableKind::Let => push_uninitialized(alloc, false, declarators, names),
        VariableKind::Const => push_uninitialized(alloc, true, declarators, names),
    }
}

/// Puts the names of declarators at the end, without values.
fn push_uninitialized(
    alloc: Global,
    constant: bool,
    declarators: &[Declarator],
    names: &mut Items<NewName>,
) -> Result<(), Memory>
    ensures { OnOk result (names.new ≡ names.old ++ map (not_initialized constant) (bound_names (plain_declarators declarators.now))) }
{
    for declarator in declarators {
        let name = bound_name(alloc, &declarator.pattern)?;
        names.push(NewName::uninitialized(name, constant))?;
    }
    Ok(())
}

/// The names that statements declare by `var`, in the order of the text.
#[tactic(auto, using(js_meaning::proofs::MetNames::met_all))]
fn var_names(alloc: Global, stmts: &[Stmt]) -> Result<Items<SharedName>, Memory>
    ensures { IfOk result (λ names. names ≡ var_stmts (plain_stmts stmts.now)) }
{
    let mut collector = Collector {
        alloc,
        names: Items::new(alloc),
    };
    visit_stmts(&mut collector, &false, stmts)?;
    Ok(collector.names)
}

/// What a walk collects.
#[derive(Drop)]
struct Collector {
    alloc: Global,
    names: Items<SharedName>,
}

impl Visitor for Collector {
    type Inherited = bool;

    ghost Found = { List ℕ };

    ghost Told = { Bool };

    ghost told = { λ declared. declared };

    ghost own = { own_var };

    ghost down = { declares };

    ghost found = { λ collector. collector.names };

    fn visit(&mut self, declared: &bool, part: Part<'_>) -> Result<Option<bool>, Memory> {
        match part {
            Part::Pattern(pattern) => {
                if *declared {
                    push_name(self.alloc, pattern, &mut self.names)?;
                }
                Ok(Some(false))
            }
            Part::Stmt(stmt) => Ok(Some(declares_in_stmt(stmt))),
            Part::ForInit(init) => Ok(Some(declares_in_init(init))),
            Part::ForTarget(target) => Ok(Some(declares_in_target(target))),
            Part::Declarator(_) => Ok(Some(*declared)),
            Part::Function(_) => Ok(None),
            Part::Expr(_) => Ok(None),
            _ => Ok(Some(false)),
        }
    }
}

/// Puts the name of a pattern that `var` declares at the end.
#[tactic(auto, using(crate::proofs::Rules::pattern_rules))]
fn push_name(alloc: Global, pattern: &Pattern, names: &mut Items<SharedName>) -> Result<(), Memory>
    ensures { IfOk result (λ _. names.new ≡ names.old ++ own_var true (APattern (plain_pattern pattern.now))) }
{
    let PatternNode::BindingIdentifier(name) = &pattern.node;
    names.push(shared(alloc, name)?)
}

/// Whether a word declares by `var`.
fn is_the_var(kind: VariableKind) -> bool
    ensures { result ≡ is_var kind }
{
    match kind {
        VariableKind::Var => true,
        VariableKind::Let => false,
        VariableKind::Const => false,
    }
}

/// Whether a statement declares by `var`.
fn declares_in_stmt(stmt: &Stmt) -> bool
    ensures { Some result ≡ declares false (AStmt (plain_stmt stmt.now)) }
{
    match &stmt.node {
        StmtNode::VariableDeclaration(kind, _) => is_the_var(*kind),
        StmtNode::Directive(_) => false,
        StmtNode::Block(_) => false,
        StmtNode::Empty => false,
        StmtNode::Expression(_) => false,
        StmtNode::If(_, _, _) => false,
        StmtNode::DoWhile(_, _) => false,
        StmtNode::While(_, _) => false,
        StmtNode::For(_, _, _, _) => false,
        StmtNode::ForIn(_, _, _) => false,
        StmtNode::ForOf(_, _, _) => false,
        StmtNode::Continue(_) => false,
        StmtNode::Break(_) => false,
        StmtNode::Return(_) => false,
        StmtNode::Switch(_, _) => false,
        StmtNode::Labelled(_, _) => false,
        StmtNode::Throw(_) => false,
        StmtNode::TryCatch(_, _) => false,
        StmtNode::TryFinally(_, _) => false,
        StmtNode::TryCatchFinally(_, _, _) => false,
        StmtNode::Debugger => false,
        StmtNode::FunctionDeclaration(_, _) => false,
    }
}

/// Whether the first part of a `for` declares by `var`.
fn declares_in_init(init: &ForInit) -> bool
    ensures { Some result ≡ declares false (AForInit (plain_for_init init.now)) }
{
    match init {
        ForInit::InitDeclaration(kind, _) => is_the_var(*kind),
        ForInit::NoInit => false,
        ForInit::InitExpression(_) => false,
    }
}

/// Whether the target of a `for` declares by `var`.
fn declares_in_target(target: &ForTarget) -> bool
    ensures { Some result ≡ declares false (AForTarget (plain_for_target target.now)) }
{
    match target {
        ForTarget::TargetDeclaration(kind, _) => is_the_var(*kind),
        ForTarget::TargetExpression(_) => false,
    }
}
