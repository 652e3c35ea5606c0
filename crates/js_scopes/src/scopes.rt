ghost use Rattle.std.specs.Prelude.{◌≡◌, ◌++◌, ℕ, List, None, IfOk, OnOk, if◌then◌else◌};
ghost use Rattle.js_scopes.specs.Mentions.{nothing_told, start};
ghost use Rattle.js_scopes.specs.Scopes as spec;
ghost use Rattle.js_scopes.specs.Targets.{deletes};
ghost use Rattle.js_scopes.specs.declared.fault.ScopeFault.{ScopeFault};
ghost use Rattle.js_scopes.specs.private.Plain.{plain_all};
ghost use Rattle.js_scopes.specs.private.Seen.{found_if, seen_clashes, seen_in, with_binding};
ghost use Rattle.std.specs.Str.{bytes_eq};
ghost use Rattle.js_tree.specs.Tree.{plain_catch, plain_concise_body, plain_expr, plain_file, plain_function, plain_stmt, plain_stmts};
ghost use Rattle.js_walk.specs.Part.{ACatch, AFunction};
ghost use Rattle.js_walk.specs.Walk.{walk_file};

use crate::binding::Binding;
use crate::declarations::{
    Declared, bound_if, declared_cases, declared_stmts, head_init, head_target, parameters,
};
use crate::fault::ScopeFaultKind;
use crate::faults::Faults;
use crate::labels::jumps;
use crate::seen::{Seen, note};
use crate::targets::deleted;
use items::{Items, Memory};
use js_tree::{Catch, ConciseBody, Expr, ExprNode, File, Function, Pos, Stmt, StmtNode};
use js_walk::{Part, Visitor, visit_file};
use std::alloc::Global;
use std::collections::BTreeMap;

// What a walk collects.
#[derive(Drop)]
struct Collector {
    alloc: Global,
    out: Faults,
}

/// The faults of a file's scopes, jumps and targets, after those that are found already.
pub(crate) fn with_scopes(alloc: Global, file: &File, found: Faults) -> Result<Faults, Memory>
    ensures { IfOk result (λ all. all ≡ found ++ spec.own_of_file (plain_file file.now) ++ walk_file spec.own_of_part nothing_told (plain_file file.now) tt) }
{
    let mut collector = Collector { alloc, out: found };
    of_file(alloc, file, &mut collector.out)?;
    visit_file(&mut collector, &(), file)?;
    Ok(collector.out)
}

impl Visitor for Collector {
    type Inherited = ();

    ghost Found = { ScopeFault };

    ghost Told = { Unit {0} };

    ghost told = { λ _. tt };

    ghost own = { spec.own_of_part };

    ghost down = { nothing_told };

    ghost found = { λ collector. collector.out };

    fn visit(&mut self, _inherited: &(), part: Part<'_>) -> Result<Option<()>, Memory> {
        match part {
            Part::Expr(expr) => of_expr(self.alloc, expr, &mut self.out)?,
            Part::Stmt(stmt) => of_stmt(self.alloc, stmt, &mut self.out)?,
            Part::Function(function) => of_function(self.alloc, function, &mut self.out)?,
            Part::Catch(catch) => of_catch(self.alloc, catch, &mut self.out)?,
            _ => (),
        }
        Ok(Some(()))
    }
}

/// The names of a scope that are declared though they may not: a look into a table for each.
fn scope(alloc: Global, names: &[Declared<'_>], out: &mut Faults) -> Result<(), Memory>
    ensures { OnOk result (out.new ≡ out.old ++ spec.scope (plain_all names.now)) }
{
    let mut table = BTreeMap::new(alloc);
    for name in names {
        next(name, &mut table, out)?;
    }
    Ok(())
}

/// One name more.
fn next<'t>(
    name: &Declared<'t>,
    table: &mut BTreeMap<&'t str, Seen>,
    out: &mut Faults,
) -> Result<(), Memory>
    ensures noted { OnOk result ((q : List ℕ) → seen_in table.new q ≡ (if bytes_eq q name.now.name.now then with_binding name.now.how (seen_in table.old q) else seen_in table.old q)) }
    ensures found { OnOk result (out.new ≡ out.old ++ found_if (seen_clashes (seen_in table.old name.now.name.now) name.now.how) name.now.at) }
{
    let seen = note(name, table)?;
    if seen.clashes(name.how) {
        out.put(name.at, ScopeFaultKind::Duplicate)
    } else {
        Ok(())
    }
}

/// A body's faults, its parameters being declared already.
fn body<'t>(
    alloc: Global,
    before: Items<Declared<'t>>,
    statements: &'t [Stmt],
    out: &mut Faults,
) -> Result<(), Memory>
    ensures { OnOk result (out.new ≡ out.old ++ spec.body (plain_all before.entry) (plain_stmts statements.now)) }
{
    let mut names = before;
    declared_stmts(true, statements, &mut names)?;
    scope(alloc, names.as_slice(), out)?;
    jumps(alloc, statements, out)
}

/// The parameters of the function that a file is the body of.
fn module_names<'t>(alloc: Global) -> Result<Items<Declared<'t>>, Memory>
    ensures { IfOk result (λ names. plain_all names ≡ spec.module_names) }
{
    let mut names = Items::new(alloc);
    names.push(module_name("exports"))?;
    names.push(module_name("require"))?;
    names.push(module_name("module"))?;
    Ok(names)
}

fn module_name<'t>(name: &'t str) -> Declared<'t>
    ensures how { result.how ≡ Binding.Parameter }
    ensures at { result.at ≡ start None }
    ensures name { result.name.now ≡ name.now }
{
    Declared {
        how: Binding::Parameter,
        at: Pos { line: 1, column: 0 },
        name,
    }
}

#[tactic(auto, using(js_tree::proofs::Equations::tree_rules))]
fn of_file(alloc: Global, file: &File, out: &mut Faults) -> Result<(), Memory>
    ensures { OnOk result (out.new ≡ out.old ++ spec.own_of_file (plain_file file.now)) }
{
    body(alloc, module_names(alloc)?, file.body.as_slice(), out)
}

fn block(alloc: Global, statements: &[Stmt], out: &mut Faults) -> Result<(), Memory>
    ensures { OnOk result (out.new ≡ out.old ++ spec.block (plain_stmts statements.now)) }
{
    let mut names = Items::new(alloc);
    declared_stmts(false, statements, &mut names)?;
    scope(alloc, names.as_slice(), out)
}

#[tactic(auto, using(js_tree::proofs::Equations::tree_rules))]
fn concise<'t>(
    alloc: Global,
    before: Items<Declared<'t>>,
    inner: &'t ConciseBody,
    out: &mut Faults,
) -> Result<(), Memory>
    ensures { OnOk result (out.new ≡ out.old ++ spec.concise (plain_all before.entry) (plain_concise_body inner.now)) }
{
    match inner {
        ConciseBody::ExpressionBody(_) => scope(alloc, before.as_slice(), out),
        ConciseBody::BlockBody(inner) => body(alloc, before, inner.statements.as_slice(), out),
    }
}

#[tactic(auto, using(js_tree::proofs::Equations::tree_rules))]
fn of_expr(alloc: Global, expr: &Expr, out: &mut Faults) -> Result<(), Memory>
    ensures { OnOk result (out.new ≡ out.old ++ spec.own_of_expr (plain_expr expr.now) ++ deletes (plain_expr expr.now)) }
{
    match &expr.node {
        ExprNode::ArrowFunction(params, inner) => {
            let mut names = Items::new(alloc);
            parameters(params.as_slice(), &mut names)?;
            concise(alloc, names, inner.get(), out)
        }
        ExprNode::Unary(operator, operand) => deleted(*operator, operand.get(), out),
        ExprNode::IdentifierReference(_)
        | ExprNode::This
        | ExprNode::NullLiteral
        | ExprNode::BooleanLiteral(_)
        | ExprNode::NumericLiteral(_)
        | ExprNode::StringLiteral(_)
        | ExprNode::ArrayLiteral(_)
        | ExprNode::ObjectLiteral(_)
        | ExprNode::FunctionExpression(_, _)
        | ExprNode::RegularExpressionLiteral(_, _)
        | ExprNode::TemplateLiteral(_, _)
        | ExprNode::Parenthesized(_)
        | ExprNode::NamedMember(_, _)
        | ExprNode::ComputedMember(_, _)
        | ExprNode::New(_, _)
        | ExprNode::Call(_, _)
        | ExprNode::PostfixUpdate(_, _)
        | ExprNode::PrefixUpdate(_, _)
        | ExprNode::Binary(_, _, _)
        | ExprNode::Logical(_, _, _)
        | ExprNode::Conditional(_, _, _)
        | ExprNode::Assignment(_, _, _)
        | ExprNode::Comma(_, _) => Ok(()),
    }
}

#[tactic(auto, using(js_tree::proofs::Equations::tree_rules))]
fn of_stmt(alloc: Global, stmt: &Stmt, out: &mut Faults) -> Result<(), Memory>
    ensures { OnOk result (out.new ≡ out.old ++ spec.own_of_stmt (plain_stmt stmt.now)) }
{
    match &stmt.node {
        StmtNode::Block(statements) => block(alloc, statements.as_slice(), out),
        StmtNode::For(init, _, _, inner) => {
            let mut names = Items::new(alloc);
            head_init(init.get(), inner.get(), &mut names)?;
            scope(alloc, names.as_slice(), out)
        }
        StmtNode::ForIn(target, _, inner) => {
            let mut names = Items::new(alloc);
            head_target(target.get(), inner.get(), &mut names)?;
            scope(alloc, names.as_slice(), out)
        }
        StmtNode::ForOf(target, _, inner) => {
            let mut names = Items::new(alloc);
            head_target(target.get(), inner.get(), &mut names)?;
            scope(alloc, names.as_slice(), out)
        }
        StmtNode::Switch(_, cases) => {
            let mut names = Items::new(alloc);
            declared_cases(cases.as_slice(), &mut names)?;
            scope(alloc, names.as_slice(), out)
        }
        StmtNode::TryCatch(tried, _) => block(alloc, tried.as_slice(), out),
        StmtNode::TryFinally(tried, finally) => {
            block(alloc, tried.as_slice(), out)?;
            block(alloc, finally.as_slice(), out)
        }
        StmtNode::TryCatchFinally(tried, _, finally) => {
            block(alloc, tried.as_slice(), out)?;
            block(alloc, finally.as_slice(), out)
        }
        StmtNode::Directive(_)
        | StmtNode::VariableDeclaration(_, _)
        | StmtNode::Empty
        | StmtNode::Expression(_)
        | StmtNode::If(_, _, _)
        | StmtNode::DoWhile(_, _)
        | StmtNode::While(_, _)
        | StmtNode::Continue(_)
        | StmtNode::Break(_)
        | StmtNode::Return(_)
        | StmtNode::Labelled(_, _)
        | StmtNode::Throw(_)
        | StmtNode::Debugger
        | StmtNode::FunctionDeclaration(_, _) => Ok(()),
    }
}

#[tactic(auto, using(js_tree::proofs::Equations::tree_rules))]
fn of_function(alloc: Global, function: &Function, out: &mut Faults) -> Result<(), Memory>
    ensures { OnOk result (out.new ≡ out.old ++ spec.own_of_part tt (AFunction (plain_function function.now))) }
{
    let mut names = Items::new(alloc);
    parameters(function.params.as_slice(), &mut names)?;
    body(alloc, names, function.body.statements.as_slice(), out)
}

/// A `catch`'s name and what its block declares.
#[tactic(auto, using(js_tree::proofs::Equations::tree_rules))]
fn of_catch(alloc: Global, catch: &Catch, out: &mut Faults) -> Result<(), Memory>
    ensures { OnOk result (out.new ≡ out.old ++ spec.own_of_part tt (ACatch (plain_catch catch.now))) }
{
    let mut names = Items::new(alloc);
    bound_if(Binding::CatchName, &catch.parameter, &mut names)?;
    declared_stmts(false, catch.statements.as_slice(), &mut names)?;
    scope(alloc, names.as_slice(), out)
}
