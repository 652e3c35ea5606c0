ghost use Rattle.std.specs.Prelude.{◌≡◌, ◌∷◌, ◌++◌, [], true, map, ◌&&◌, IfOk, OnOk};
ghost use Rattle.js_scopes.specs.Labels as spec;
ghost use Rattle.js_scopes.specs.private.Plain.{plain_around, plain_round};
ghost use Rattle.std.specs.List.{list_any};
ghost use Rattle.std.specs.Str.{bytes_eq};
ghost use Rattle.js_scopes.specs.private.Rules.{is_rule};
ghost use Rattle.js_tree.specs.Tree.{plain_case, plain_cases, plain_catch, plain_stmt, plain_stmt_if, plain_stmts};

use crate::fault::ScopeFaultKind;
use crate::faults::Faults;
use crate::place::start_of;
use items::{Boxed, Memory};
use js_tree::{Case, Catch, Identifier, Loc, Stmt, StmtNode};
use std::alloc::Global;

/// A label round a statement, lent from the tree.
#[derive(Clone, Copy)]
pub(crate) struct Round<'t> {
    /// Its name.
    name: &'t str,
    /// Whether it is a loop's.
    is_loop: bool,
}

/// What stands round a statement beside labels.
#[derive(Clone, Copy)]
pub(crate) struct Inside {
    /// A loop.
    in_loop: bool,
    /// A loop or a `switch`.
    breakable: bool,
}

/// The faults of the jumps and labels of a function's body, or of a file. It goes no deeper into
/// itself than statements stand in statements.
pub(crate) fn jumps(alloc: Global, statements: &[Stmt], out: &mut Faults) -> Result<(), Memory>
    ensures { IfOk result (λ _. out.new ≡ out.old ++ spec.jumps_stmts (plain_stmts statements.now) spec.nothing_around) }
{
    let mut labels = Vec::new(alloc);
    let inside = Inside {
        in_loop: false,
        breakable: false,
    };
    in_stmts(statements, inside, &mut labels, out)
}

fn in_a_loop() -> Inside
    ensures in_loop { result.in_loop ≡ true }
    ensures breakable { result.breakable ≡ true }
{
    Inside {
        in_loop: true,
        breakable: true,
    }
}

fn in_a_switch(inside: Inside) -> Inside
    ensures in_loop { result.in_loop ≡ inside.in_loop }
    ensures breakable { result.breakable ≡ true }
{
    Inside {
        in_loop: inside.in_loop,
        breakable: true,
    }
}

fn has_label(name: &str, labels: &[Round<'_>]) -> bool
    ensures { result ≡ list_any (λ round. bytes_eq name.now round.name) (map plain_round labels.now) }
{
    for round in labels {
        if name == round.name {
            return true;
        }
    }
    false
}

fn has_loop_label(name: &str, labels: &[Round<'_>]) -> bool
    ensures { result ≡ list_any (λ round. bytes_eq name.now round.name && round.is_loop) (map plain_round labels.now) }
{
    for round in labels {
        if name == round.name && round.is_loop {
            return true;
        }
    }
    false
}

/// Whether a statement is a loop, labels notwithstanding.
#[tactic(auto, using(js_tree::proofs::Equations::tree_rules))]
#[cycle(loops)]
fn is_loop(stmt: &Stmt) -> bool
    ensures { result ≡ spec.is_loop (plain_stmt stmt.now) }
{
    match &stmt.node {
        StmtNode::DoWhile(_, _) => true,
        StmtNode::While(_, _) => true,
        StmtNode::For(_, _, _, _) => true,
        StmtNode::ForIn(_, _, _) => true,
        StmtNode::ForOf(_, _, _) => true,
        StmtNode::Labelled(_, body) => is_loop(body.get()),
        StmtNode::Directive(_) => false,
        StmtNode::Block(_) => false,
        StmtNode::VariableDeclaration(_, _) => false,
        StmtNode::Empty => false,
        StmtNode::Expression(_) => false,
        StmtNode::If(_, _, _) => false,
        StmtNode::Continue(_) => false,
        StmtNode::Break(_) => false,
        StmtNode::Return(_) => false,
        StmtNode::Switch(_, _) => false,
        StmtNode::Throw(_) => false,
        StmtNode::TryCatch(_, _) => false,
        StmtNode::TryFinally(_, _) => false,
        StmtNode::TryCatchFinally(_, _, _) => false,
        StmtNode::Debugger => false,
        StmtNode::FunctionDeclaration(_, _) => false,
    }
}

fn unless(
    holds: bool,
    loc: &Option<Loc>,
    rule: ScopeFaultKind,
    out: &mut Faults,
) -> Result<(), Memory>
    requires { is_rule rule ≡ true }
    ensures { OnOk result (out.new ≡ out.old ++ spec.unless holds loc.now rule) }
{
    if holds {
        Ok(())
    } else {
        out.put(start_of(loc), rule)
    }
}

fn breaks(
    loc: &Option<Loc>,
    target: &Option<Identifier>,
    inside: Inside,
    labels: &[Round<'_>],
    out: &mut Faults,
) -> Result<(), Memory>
    ensures { OnOk result (out.new ≡ out.old ++ spec.breaks (plain_around labels.now inside) loc.now target.now) }
{
    match target {
        None => unless(inside.breakable, loc, ScopeFaultKind::BreakOutside, out),
        Some(label) => unless(
            has_label(label.name.as_str(), labels),
            &label.loc,
            ScopeFaultKind::Label,
            out,
        ),
    }
}

fn continues(
    loc: &Option<Loc>,
    target: &Option<Identifier>,
    inside: Inside,
    labels: &[Round<'_>],
    out: &mut Faults,
) -> Result<(), Memory>
    ensures { OnOk result (out.new ≡ out.old ++ spec.continues (plain_around labels.now inside) loc.now target.now) }
{
    match target {
        None => unless(inside.in_loop, loc, ScopeFaultKind::ContinueOutside, out),
        Some(label) => unless(
            has_loop_label(label.name.as_str(), labels),
            &label.loc,
            ScopeFaultKind::Label,
            out,
        ),
    }
}

fn repeats(
    label: &Identifier,
    inside: Inside,
    labels: &[Round<'_>],
    out: &mut Faults,
) -> Result<(), Memory>
    ensures { OnOk result (out.new ≡ out.old ++ spec.repeats (plain_around labels.now inside) label.now) }
{
    if has_label(label.name.as_str(), labels) {
        out.put(start_of(&label.loc), ScopeFaultKind::Label)
    } else {
        Ok(())
    }
}

#[cycle(jumps)]
#[tactic(auto, using(js_tree::proofs::Equations::tree_rules))]
fn in_stmt<'t>(
    stmt: &'t Stmt,
    inside: Inside,
    labels: &mut Vec<Round<'t>>,
    out: &mut Faults,
) -> Result<(), Memory>
    ensures found { OnOk result (out.new ≡ out.old ++ spec.jumps_stmt (plain_stmt stmt.now) (plain_around labels.old.items inside)) }
    ensures labels { OnOk result (labels.new.items ≡ labels.old.items) }
{
    match &stmt.node {
        StmtNode::Directive(_) => Ok(()),
        StmtNode::Block(statements) => in_stmts(statements.as_slice(), inside, labels, out),
        StmtNode::VariableDeclaration(_, _) => Ok(()),
        StmtNode::Empty => Ok(()),
        StmtNode::Expression(_) => Ok(()),
        StmtNode::If(_, holds, fails) => {
            in_stmt(holds.get(), inside, labels, out)?;
            in_stmt_if(fails, inside, labels, out)
        }
        StmtNode::DoWhile(body, _) => in_stmt(body.get(), in_a_loop(), labels, out),
        StmtNode::While(_, body) => in_stmt(body.get(), in_a_loop(), labels, out),
        StmtNode::For(_, _, _, body) => in_stmt(body.get(), in_a_loop(), labels, out),
        StmtNode::ForIn(_, _, body) => in_stmt(body.get(), in_a_loop(), labels, out),
        StmtNode::ForOf(_, _, body) => in_stmt(body.get(), in_a_loop(), labels, out),
        StmtNode::Continue(target) => continues(&stmt.loc, target, inside, labels, out),
        StmtNode::Break(target) => breaks(&stmt.loc, target, inside, labels, out),
        StmtNode::Return(_) => Ok(()),
        StmtNode::Switch(_, cases) => in_cases(cases.as_slice(), in_a_switch(inside), labels, out),
        StmtNode::Labelled(label, body) => in_label(label, body.get(), inside, labels, out),
        StmtNode::Throw(_) => Ok(()),
        StmtNode::TryCatch(block, catch) => {
            in_stmts(block.as_slice(), inside, labels, out)?;
            in_catch(catch.get(), inside, labels, out)
        }
        StmtNode::TryFinally(block, finally) => {
            in_stmts(block.as_slice(), inside, labels, out)?;
            in_stmts(finally.as_slice(), inside, labels, out)
        }
        StmtNode::TryCatchFinally(block, catch, finally) => {
            in_stmts(block.as_slice(), inside, labels, out)?;
            in_catch(catch.get(), inside, labels, out)?;
            in_stmts(finally.as_slice(), inside, labels, out)
        }
        StmtNode::Debugger => Ok(()),
        StmtNode::FunctionDeclaration(_, _) => Ok(()),
    }
}

#[cycle(jumps)]
#[tactic(auto, using(crate::proofs::Rounds::label_rules))]
fn in_label<'t>(
    label: &'t Identifier,
    body: &'t Stmt,
    inside: Inside,
    labels: &mut Vec<Round<'t>>,
    out: &mut Faults,
) -> Result<(), Memory>
    ensures found { OnOk result (out.new ≡ out.old ++ spec.repeats (plain_around labels.old.items inside) label.now ++ spec.jumps_stmt (plain_stmt body.now) (spec.in_a_label label.now.name (spec.is_loop (plain_stmt body.now)) (plain_around labels.old.items inside))) }
    ensures labels { OnOk result (labels.new.items ≡ labels.old.items) }
{
    repeats(label, inside, labels, out)?;
    let outside = labels.len();
    labels.push(Round {
        name: label.name.as_str(),
        is_loop: is_loop(body),
    })?;
    in_stmt(body, inside, labels, out)?;
    labels.truncate(outside);
    Ok(())
}

#[cycle(jumps)]
#[tactic(auto, using(js_tree::proofs::Equations::tree_rules))]
fn in_stmts<'t>(
    list: &'t [Stmt],
    inside: Inside,
    labels: &mut Vec<Round<'t>>,
    out: &mut Faults,
) -> Result<(), Memory>
    ensures found { OnOk result (out.new ≡ out.old ++ spec.jumps_stmts (plain_stmts list.now) (plain_around labels.old.items inside)) }
    ensures labels { OnOk result (labels.new.items ≡ labels.old.items) }
{
    for stmt in list {
        in_stmt(stmt, inside, labels, out)?;
    }
    Ok(())
}

#[cycle(jumps)]
#[tactic(auto, using(js_tree::proofs::Equations::tree_rules))]
fn in_stmt_if<'t>(
    stmt: &'t Option<Boxed<Stmt>>,
    inside: Inside,
    labels: &mut Vec<Round<'t>>,
    out: &mut Faults,
) -> Result<(), Memory>
    ensures found { OnOk result (out.new ≡ out.old ++ spec.jumps_stmt_if (plain_stmt_if stmt.now) (plain_around labels.old.items inside)) }
    ensures labels { OnOk result (labels.new.items ≡ labels.old.items) }
{
    match stmt {
        None => Ok(()),
        Some(stmt) => in_stmt(stmt.get(), inside, labels, out),
    }
}

#[cycle(jumps)]
#[tactic(auto, using(js_tree::proofs::Equations::tree_rules))]
fn in_catch<'t>(
    catch: &'t Catch,
    inside: Inside,
    labels: &mut Vec<Round<'t>>,
    out: &mut Faults,
) -> Result<(), Memory>
    ensures found { OnOk result (out.new ≡ out.old ++ spec.jumps_catch (plain_catch catch.now) (plain_around labels.old.items inside)) }
    ensures labels { OnOk result (labels.new.items ≡ labels.old.items) }
{
    in_stmts(catch.statements.as_slice(), inside, labels, out)
}

#[cycle(jumps)]
#[tactic(auto, using(js_tree::proofs::Equations::tree_rules))]
fn in_case<'t>(
    case: &'t Case,
    inside: Inside,
    labels: &mut Vec<Round<'t>>,
    out: &mut Faults,
) -> Result<(), Memory>
    ensures found { OnOk result (out.new ≡ out.old ++ spec.jumps_case (plain_case case.now) (plain_around labels.old.items inside)) }
    ensures labels { OnOk result (labels.new.items ≡ labels.old.items) }
{
    in_stmts(case.statements.as_slice(), inside, labels, out)
}

#[cycle(jumps)]
#[tactic(auto, using(js_tree::proofs::Equations::tree_rules))]
fn in_cases<'t>(
    list: &'t [Case],
    inside: Inside,
    labels: &mut Vec<Round<'t>>,
    out: &mut Faults,
) -> Result<(), Memory>
    ensures found { OnOk result (out.new ≡ out.old ++ spec.jumps_cases (plain_cases list.now) (plain_around labels.old.items inside)) }
    ensures labels { OnOk result (labels.new.items ≡ labels.old.items) }
{
    for case in list {
        in_case(case, inside, labels, out)?;
    }
    Ok(())
}
