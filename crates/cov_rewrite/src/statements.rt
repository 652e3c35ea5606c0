ghost use Rattle.std.specs.Prelude.{◌≡◌, ◌++◌, true, false, IfOk};
ghost use Rattle.js_terms.specs.declared.construct.ConstructKind.TheVariants as construct_kind;
ghost use Rattle.js_tree.specs.Hints.{heed};
ghost use Rattle.js_tree.specs.Linked.{Counts};
ghost use Rattle.js_tree.specs.Places.{stmt_place};
ghost use Rattle.js_tree.specs.Tree.{plain_case, plain_cases, plain_catch, plain_for_init, plain_for_target, plain_stmt, plain_stmt_if, plain_stmt_node, plain_stmts};
ghost use Rattle.cov_rewritten.specs.Rewritten.{counts};
ghost use Rattle.cov_rewrite.specs.Made as made;
ghost use Rattle.cov_rewrite.specs.Numbers.{counts_of};
ghost use Rattle.cov_rewrite.specs.Site.{counter_of, heed_of};

use crate::arms::{Arm, Arms, Opened, both_arms};
use crate::blocks::{append, block_unless};
use crate::counters::{counting, own_counter};
use crate::declarations::{Declared, declarators};
use crate::expressions::{expression_if, part};
use crate::functions::function;
use crate::numbering::{Numbers, declared_place, in_branch, past};
use crate::site::Site;
use cov_hints::{place_of_arm, place_of_body, place_of_case, place_of_stmt};
use items::{Boxed, Items, Memory};
use js_tree::{Case, Catch, ConstructKind, ForInit, ForTarget, Hint, Loc, Stmt, StmtNode};

// What a statement is, and the counters that stand before it.
#[derive(Drop)]
struct OpenedNode {
    counters: Items<Stmt>,
    node: StmtNode,
}

// A statement, and the counters that stand before it: `home` says whether it stands directly in a
// file, a function's body or a block of the source.
#[cycle(rewriting)]
#[tactic(auto, using(js_tree::proofs::Equations::tree_rules))]
fn statement(site: Site<'_>, numbers: &mut Numbers, home: bool, x: Stmt) -> Result<Opened, Memory>
    ensures before { IfOk result (λ r. plain_stmts r.counters ≡ counts (counter_of site.entry) (made.marks_before home (heed_of site.entry) (plain_stmt x) (counts_of numbers.old))) }
    ensures tree { IfOk result (λ r. plain_stmt r.statement ≡ made.made_stmt (counter_of site.entry) home (heed_of site.entry) (plain_stmt x) (counts_of numbers.old)) }
    ensures next { IfOk result (λ _. counts_of numbers.new ≡ made.next_stmt (heed_of site.entry) (plain_stmt x) (counts_of numbers.old)) }
{
    let (loc, node) = x.into_parts();
    let OpenedNode { counters, node } = statement_node(site, numbers, home, loc, node)?;
    Ok(Opened {
        counters,
        statement: Stmt { loc, node },
    })
}

// What a statement that stands here is.
#[cycle(rewriting)]
#[tactic(auto, using(js_tree::proofs::Equations::tree_rules))]
fn statement_node(
    site: Site<'_>,
    numbers: &mut Numbers,
    home: bool,
    loc: Option<Loc>,
    node: StmtNode,
) -> Result<OpenedNode, Memory>
    ensures before { IfOk result (λ r. plain_stmts r.counters ≡ counts (counter_of site.entry) (made.marks_before home (heed_of site.entry) (plain_stmt_node node loc) (counts_of numbers.old))) }
    ensures tree { IfOk result (λ r. plain_stmt_node r.node loc ≡ made.made_stmt (counter_of site.entry) home (heed_of site.entry) (plain_stmt_node node loc) (counts_of numbers.old)) }
    ensures next { IfOk result (λ _. counts_of numbers.new ≡ made.next_stmt (heed_of site.entry) (plain_stmt_node node loc) (counts_of numbers.old)) }
{
    match node {
        StmtNode::Directive(string) => {
            let counters = Items::new(site.alloc);
            let node = StmtNode::Directive(string);
            Ok(OpenedNode { counters, node })
        }
        StmtNode::Block(list) => {
            let counters = Items::new(site.alloc);
            let list = statements(site, numbers, true, list)?;
            let node = StmtNode::Block(list);
            Ok(OpenedNode { counters, node })
        }
        StmtNode::VariableDeclaration(kind, list) => {
            let Declared {
                counters,
                declarators: list,
            } = declarators(site, numbers, home, list)?;
            let node = StmtNode::VariableDeclaration(kind, list);
            Ok(OpenedNode { counters, node })
        }
        StmtNode::Empty => {
            let counters = Items::new(site.alloc);
            let node = StmtNode::Empty;
            Ok(OpenedNode { counters, node })
        }
        StmtNode::Labelled(label, inner) => {
            let mut counters = own_counter(site, numbers, ConstructKind::Statement, loc)?;
            let within = site.within(place_of_stmt(inner.get()));
            let made = statement(within, numbers, false, inner.into_inner())?;
            append(&mut counters, made.counters)?;
            let inner = Boxed::new(site.alloc, made.statement)?;
            let node = StmtNode::Labelled(label, inner);
            Ok(OpenedNode { counters, node })
        }
        StmtNode::FunctionDeclaration(own, inner) => {
            let counters = Items::new(site.alloc);
            let place = declared_place(loc, &own, place_of_body(inner.get()));
            let inner = function(site, numbers, place, inner)?;
            let node = StmtNode::FunctionDeclaration(own, inner);
            Ok(OpenedNode { counters, node })
        }
        node => counted_node(site, numbers, loc, node),
    }
}

// One that is counted as a statement, with its counter.
#[cycle(rewriting)]
#[tactic(auto, using(js_tree::proofs::Equations::tree_rules))]
fn counted_node(
    site: Site<'_>,
    numbers: &mut Numbers,
    loc: Option<Loc>,
    node: StmtNode,
) -> Result<OpenedNode, Memory>
    requires { made.is_counted (plain_stmt_node node loc) ≡ true }
    ensures before { IfOk result (λ r. plain_stmts r.counters ≡ counts (counter_of site.entry) (made.marks_before false (heed_of site.entry) (plain_stmt_node node loc) (counts_of numbers.old))) }
    ensures tree { IfOk result (λ r. plain_stmt_node r.node loc ≡ made.made_stmt (counter_of site.entry) false (heed_of site.entry) (plain_stmt_node node loc) (counts_of numbers.old)) }
    ensures next { IfOk result (λ _. counts_of numbers.new ≡ made.next_stmt (heed_of site.entry) (plain_stmt_node node loc) (counts_of numbers.old)) }
{
    match own_counter(site, numbers, ConstructKind::Statement, loc) {
        Err(error) => {
            discard(node);
            Err(error)
        }
        Ok(counters) => {
            let node = numbered_node(site, numbers, loc, node)?;
            Ok(OpenedNode { counters, node })
        }
    }
}

// Lets what a statement is go, as a statement, whose drop is proved with the tree.
fn discard(node: StmtNode) {
    drop(Stmt { loc: None, node });
}

// The same after its number: `k` are the next numbers before it.
#[cycle(rewriting)]
#[tactic(auto, using(js_tree::proofs::Equations::tree_rules))]
fn numbered_node(
    site: Site<'_>,
    numbers: &mut Numbers,
    loc: Option<Loc>,
    node: StmtNode,
) -> Result<StmtNode, Memory>
    requires { made.is_counted (plain_stmt_node node loc) ≡ true }
    ensures before { IfOk result (λ _. (k : Counts) → made.marks_before false (heed_of site.entry) (plain_stmt_node node loc) k ≡ made.own_marks construct_kind.Statement (heed_of site.entry) loc k) }
    ensures tree { IfOk result (λ r. (k : Counts) → counts_of numbers.old ≡ made.after construct_kind.Statement (heed_of site.entry) loc k → plain_stmt_node r loc ≡ made.made_stmt (counter_of site.entry) false (heed_of site.entry) (plain_stmt_node node loc) k) }
    ensures next { IfOk result (λ _. (k : Counts) → counts_of numbers.old ≡ made.after construct_kind.Statement (heed_of site.entry) loc k → counts_of numbers.new ≡ made.next_stmt (heed_of site.entry) (plain_stmt_node node loc) k) }
{
    match node {
        StmtNode::Expression(value) => {
            let value = part(site, numbers, value)?;
            Ok(StmtNode::Expression(value))
        }
        StmtNode::DoWhile(inner, test) => {
            let inner = body(site, numbers, inner)?;
            let test = part(site, numbers, test)?;
            Ok(StmtNode::DoWhile(inner, test))
        }
        StmtNode::While(test, inner) => {
            let test = part(site, numbers, test)?;
            let inner = body(site, numbers, inner)?;
            Ok(StmtNode::While(test, inner))
        }
        StmtNode::For(init, test, step, inner) => {
            let init = for_init(site, numbers, init)?;
            let test = expression_if(site, numbers, test)?;
            let step = expression_if(site, numbers, step)?;
            let inner = body(site, numbers, inner)?;
            Ok(StmtNode::For(init, test, step, inner))
        }
        StmtNode::ForIn(target, value, inner) => {
            let target = for_target(site, numbers, target)?;
            let value = part(site, numbers, value)?;
            let inner = body(site, numbers, inner)?;
            Ok(StmtNode::ForIn(target, value, inner))
        }
        StmtNode::ForOf(target, value, inner) => {
            let target = for_target(site, numbers, target)?;
            let value = part(site, numbers, value)?;
            let inner = body(site, numbers, inner)?;
            Ok(StmtNode::ForOf(target, value, inner))
        }
        StmtNode::Continue(label) => Ok(StmtNode::Continue(label)),
        StmtNode::Break(label) => Ok(StmtNode::Break(label)),
        StmtNode::Return(value) => {
            let value = expression_if(site, numbers, value)?;
            Ok(StmtNode::Return(value))
        }
        StmtNode::Throw(value) => {
            let value = part(site, numbers, value)?;
            Ok(StmtNode::Throw(value))
        }
        StmtNode::Debugger => Ok(StmtNode::Debugger),
        node => branching_node(site, numbers, loc, node),
    }
}

// An `if`, a `switch` or a `try`, after its number.
#[cycle(rewriting)]
#[tactic(auto, using(js_tree::proofs::Equations::tree_rules))]
fn branching_node(
    site: Site<'_>,
    numbers: &mut Numbers,
    loc: Option<Loc>,
    node: StmtNode,
) -> Result<StmtNode, Memory>
    requires { made.is_branching (plain_stmt_node node loc) ≡ true }
    ensures before { IfOk result (λ _. (k : Counts) → made.marks_before false (heed_of site.entry) (plain_stmt_node node loc) k ≡ made.own_marks construct_kind.Statement (heed_of site.entry) loc k) }
    ensures tree { IfOk result (λ r. (k : Counts) → counts_of numbers.old ≡ made.after construct_kind.Statement (heed_of site.entry) loc k → plain_stmt_node r loc ≡ made.made_stmt (counter_of site.entry) false (heed_of site.entry) (plain_stmt_node node loc) k) }
    ensures next { IfOk result (λ _. (k : Counts) → counts_of numbers.old ≡ made.after construct_kind.Statement (heed_of site.entry) loc k → counts_of numbers.new ≡ made.next_stmt (heed_of site.entry) (plain_stmt_node node loc) k) }
{
    match node {
        StmtNode::If(test, then, otherwise) => {
            let branch = numbers.take(site.left, ConstructKind::Branch, loc)?;
            let test = part(site, numbers, test)?;
            let holds = site
                .within_arm(Hint::If, loc)
                .within(place_of_stmt(then.get()));
            let fails = site
                .within_arm(Hint::Else, loc)
                .within(place_of_arm(&otherwise));
            let then = then_arm(holds, numbers, branch, then)?;
            let otherwise = else_arm(fails, numbers, branch, past(holds.left, 0)?, otherwise)?;
            let Arms { then, otherwise } = both_arms(site.alloc, then, otherwise)?;
            Ok(StmtNode::If(test, then, otherwise))
        }
        StmtNode::Switch(value, list) => {
            let branch = numbers.take(site.left, ConstructKind::Branch, loc)?;
            let value = part(site, numbers, value)?;
            let list = cases(site, numbers, branch, list)?;
            Ok(StmtNode::Switch(value, list))
        }
        StmtNode::TryCatch(list, clause) => {
            let list = statements(site, numbers, true, list)?;
            let clause = catch(site, numbers, clause)?;
            Ok(StmtNode::TryCatch(list, clause))
        }
        StmtNode::TryFinally(list, last) => {
            let list = statements(site, numbers, true, list)?;
            let last = statements(site, numbers, true, last)?;
            Ok(StmtNode::TryFinally(list, last))
        }
        StmtNode::TryCatchFinally(list, clause, last) => {
            let list = statements(site, numbers, true, list)?;
            let clause = catch(site, numbers, clause)?;
            let last = statements(site, numbers, true, last)?;
            Ok(StmtNode::TryCatchFinally(list, clause, last))
        }
        _ => unreachable!(),
    }
}

// A list of statements.
#[cycle(rewriting)]
#[tactic(auto, using(js_tree::proofs::Equations::tree_rules))]
pub(crate) fn statements(
    site: Site<'_>,
    numbers: &mut Numbers,
    home: bool,
    list: Items<Stmt>,
) -> Result<Items<Stmt>, Memory>
    ensures tree { IfOk result (λ r. plain_stmts r ≡ made.made_stmts (counter_of site.entry) home (heed_of site.entry) (plain_stmts list) (counts_of numbers.old)) }
    ensures next { IfOk result (λ _. counts_of numbers.new ≡ made.next_stmts (heed_of site.entry) (plain_stmts list) (counts_of numbers.old)) }
{
    let mut out = Items::new(site.alloc);
    for each in list.into_vec() {
        let inner = site.within(place_of_stmt(&each));
        let made = statement(inner, numbers, home, each)?;
        append(&mut out, made.counters)?;
        out.push(made.statement)?;
    }
    Ok(out)
}

// The body of a loop: a block, where it counts.
#[cycle(rewriting)]
#[tactic(auto, using(js_tree::proofs::Equations::tree_rules))]
fn body(site: Site<'_>, numbers: &mut Numbers, x: Boxed<Stmt>) -> Result<Boxed<Stmt>, Memory>
    ensures tree { IfOk result (λ r. plain_stmt r ≡ made.made_looped (counter_of site.entry) (heed (heed_of site.entry) (stmt_place (plain_stmt x))) (plain_stmt x) (counts_of numbers.old)) }
    ensures next { IfOk result (λ _. counts_of numbers.new ≡ made.next_stmt (heed (heed_of site.entry) (stmt_place (plain_stmt x))) (plain_stmt x) (counts_of numbers.old)) }
{
    let inner = site.within(place_of_stmt(x.get()));
    let opened = statement(inner, numbers, false, x.into_inner())?;
    let made = block_unless(opened.counters, opened.statement)?;
    Boxed::new(site.alloc, made)
}

// The arm of an `if` where its condition holds, with the counter of its path.
#[cycle(rewriting)]
#[tactic(auto, using(js_tree::proofs::Equations::tree_rules))]
fn then_arm(
    site: Site<'_>,
    numbers: &mut Numbers,
    branch: Option<u64>,
    x: Boxed<Stmt>,
) -> Result<Opened, Memory>
    ensures before { IfOk result (λ r. plain_stmts r.counters ≡ counts (counter_of site.entry) (made.path_marks (heed_of site.entry) branch 0 ++ made.marks_before false (heed_of site.entry) (plain_stmt x) (counts_of numbers.old))) }
    ensures tree { IfOk result (λ r. plain_stmt r.statement ≡ made.made_stmt (counter_of site.entry) false (heed_of site.entry) (plain_stmt x) (counts_of numbers.old)) }
    ensures next { IfOk result (λ _. counts_of numbers.new ≡ made.next_stmt (heed_of site.entry) (plain_stmt x) (counts_of numbers.old)) }
{
    let number = in_branch(site.left, branch);
    let mut counters = counting(site, ConstructKind::Branch, number, 0)?;
    let made = statement(site, numbers, false, x.into_inner())?;
    append(&mut counters, made.counters)?;
    Ok(Opened {
        counters,
        statement: made.statement,
    })
}

// The other arm, which may be missing.
#[cycle(rewriting)]
#[tactic(auto, using(js_tree::proofs::Equations::tree_rules))]
fn else_arm(
    site: Site<'_>,
    numbers: &mut Numbers,
    branch: Option<u64>,
    path: u64,
    x: Option<Boxed<Stmt>>,
) -> Result<Arm, Memory>
    ensures before { IfOk result (λ r. plain_stmts r.counters ≡ counts (counter_of site.entry) (made.path_marks (heed_of site.entry) branch path ++ made.arm_before (heed_of site.entry) (plain_stmt_if x) (counts_of numbers.old))) }
    ensures tree { IfOk result (λ r. plain_stmt_if r.statement ≡ made.bare_arm (counter_of site.entry) (heed_of site.entry) (plain_stmt_if x) (counts_of numbers.old)) }
    ensures next { IfOk result (λ _. counts_of numbers.new ≡ made.next_arm (heed_of site.entry) (plain_stmt_if x) (counts_of numbers.old)) }
{
    let number = in_branch(site.left, branch);
    let mut counters = counting(site, ConstructKind::Branch, number, path)?;
    match x {
        None => Ok(Arm {
            counters,
            statement: None,
        }),
        Some(x) => {
            let made = statement(site, numbers, false, x.into_inner())?;
            append(&mut counters, made.counters)?;
            let statement = Boxed::new(site.alloc, made.statement)?;
            Ok(Arm {
                counters,
                statement: Some(statement),
            })
        }
    }
}

// The first part of a `for`.
#[cycle(rewriting)]
#[tactic(auto, using(js_tree::proofs::Equations::tree_rules))]
fn for_init(
    site: Site<'_>,
    numbers: &mut Numbers,
    x: Boxed<ForInit>,
) -> Result<Boxed<ForInit>, Memory>
    ensures tree { IfOk result (λ r. plain_for_init r ≡ made.made_init (counter_of site.entry) (heed_of site.entry) (plain_for_init x) (counts_of numbers.old)) }
    ensures next { IfOk result (λ _. counts_of numbers.new ≡ made.next_init (heed_of site.entry) (plain_for_init x) (counts_of numbers.old)) }
{
    match x.into_inner() {
        ForInit::NoInit => Boxed::new(site.alloc, ForInit::NoInit),
        ForInit::InitDeclaration(kind, list) => {
            let list = declarators(site, numbers, false, list)?;
            Boxed::new(site.alloc, ForInit::InitDeclaration(kind, list.declarators))
        }
        ForInit::InitExpression(value) => {
            let value = part(site, numbers, value)?;
            Boxed::new(site.alloc, ForInit::InitExpression(value))
        }
    }
}

// The target of a `for`.
#[cycle(rewriting)]
#[tactic(auto, using(js_tree::proofs::Equations::tree_rules))]
fn for_target(
    site: Site<'_>,
    numbers: &mut Numbers,
    x: Boxed<ForTarget>,
) -> Result<Boxed<ForTarget>, Memory>
    ensures tree { IfOk result (λ r. plain_for_target r ≡ made.made_target (counter_of site.entry) (heed_of site.entry) (plain_for_target x) (counts_of numbers.old)) }
    ensures next { IfOk result (λ _. counts_of numbers.new ≡ made.next_target (heed_of site.entry) (plain_for_target x) (counts_of numbers.old)) }
{
    match x.into_inner() {
        ForTarget::TargetDeclaration(kind, pattern) => {
            Boxed::new(site.alloc, ForTarget::TargetDeclaration(kind, pattern))
        }
        ForTarget::TargetExpression(value) => {
            let value = part(site, numbers, value)?;
            Boxed::new(site.alloc, ForTarget::TargetExpression(value))
        }
    }
}

// The clauses of a `switch`, with its branch.
#[cycle(rewriting)]
#[tactic(auto, using(js_tree::proofs::Equations::tree_rules))]
fn cases(
    site: Site<'_>,
    numbers: &mut Numbers,
    branch: Option<u64>,
    list: Items<Case>,
) -> Result<Items<Case>, Memory>
    ensures tree { IfOk result (λ r. plain_cases r ≡ made.made_cases (counter_of site.entry) (heed_of site.entry) branch 0 (plain_cases list) (counts_of numbers.old)) }
    ensures next { IfOk result (λ _. counts_of numbers.new ≡ made.next_cases (heed_of site.entry) (plain_cases list) (counts_of numbers.old)) }
{
    let mut out = Items::new(site.alloc);
    let mut path = 0;
    for each in list.into_vec() {
        let inner = site.within(place_of_case(&each));
        let number = in_branch(inner.left, branch);
        let counters = counting(site, ConstructKind::Branch, number, path)?;
        let made = case(inner, numbers, each, counters)?;
        out.push(made)?;
        path = past(inner.left, path)?;
    }
    Ok(out)
}

// One of them, with the counter of its path.
#[cycle(rewriting)]
#[tactic(auto, using(js_tree::proofs::Equations::tree_rules))]
fn case(
    site: Site<'_>,
    numbers: &mut Numbers,
    x: Case,
    counters: Items<Stmt>,
) -> Result<Case, Memory>
    ensures tree { IfOk result (λ r. plain_case r ≡ made.made_case (counter_of site.entry) (heed_of site.entry) (plain_stmts counters) (plain_case x) (counts_of numbers.old)) }
    ensures next { IfOk result (λ _. counts_of numbers.new ≡ made.next_case (heed_of site.entry) (plain_case x) (counts_of numbers.old)) }
{
    let Case {
        loc,
        test,
        statements: list,
    } = x;
    let test = expression_if(site, numbers, test)?;
    let list = statements(site, numbers, false, list)?;
    let mut counters = counters;
    append(&mut counters, list)?;
    Ok(Case {
        loc,
        test,
        statements: counters,
    })
}

// A `catch` clause.
#[cycle(rewriting)]
#[tactic(auto, using(js_tree::proofs::Equations::tree_rules))]
fn catch(site: Site<'_>, numbers: &mut Numbers, x: Boxed<Catch>) -> Result<Boxed<Catch>, Memory>
    ensures tree { IfOk result (λ r. plain_catch r ≡ made.made_catch (counter_of site.entry) (heed_of site.entry) (plain_catch x) (counts_of numbers.old)) }
    ensures next { IfOk result (λ _. counts_of numbers.new ≡ made.next_catch (heed_of site.entry) (plain_catch x) (counts_of numbers.old)) }
{
    let Catch {
        parameter,
        statements: list,
    } = x.into_inner();
    let list = statements(site, numbers, true, list)?;
    Boxed::new(
        site.alloc,
        Catch {
            parameter,
            statements: list,
        },
    )
}
