ghost use Rattle.std.specs.Prelude.{◌≡◌, None, IfOk, codes};
ghost use Rattle.js_terms.specs.declared.construct.ConstructKind.TheVariants as construct_kind;
ghost use Rattle.js_terms.specs.declared.operators.UpdateOperator.TheVariants as update;
ghost use Rattle.js_tree.specs.Linked.{mark};
ghost use Rattle.js_tree.specs.Plain as tree;
ghost use Rattle.js_tree.specs.Tree.{plain_expr, plain_pattern, plain_stmt, plain_stmts};
ghost use Rattle.cov_rewritten.specs.Counters as spec;
ghost use Rattle.cov_rewritten.specs.Rewritten as rewritten;
ghost use Rattle.cov_rewrite.specs.Made as made;
ghost use Rattle.cov_rewrite.specs.Made.{marks_of};
ghost use Rattle.cov_rewrite.specs.Numbers.{counts_of};
ghost use Rattle.cov_rewrite.specs.Site.{counter_of, heed_of};

use crate::numbering::Numbers;
use crate::site::Site;
use items::{Boxed, Items, Memory, Text};
use js_tree::{
    ConstructKind, Expr, ExprNode, Loc, Name, Pattern, PatternNode, Stmt, StmtNode, UpdateOperator,
};
use name_hold::{after_counter, hold};
use std::alloc::Global;

// A call of the file's function.
#[tactic(auto, using(js_tree::proofs::Equations::tree_rules))]
fn held(alloc: Global, name: &str) -> Result<Expr, Memory>
    ensures { IfOk result (λ e. plain_expr e ≡ tree.Call None (spec.name name.now) tree.no_expr) }
{
    let callee = Expr {
        loc: None,
        node: ExprNode::IdentifierReference(Text::from_str(alloc, name)?),
    };
    Ok(Expr {
        loc: None,
        node: ExprNode::Call(Boxed::new(alloc, callee)?, Items::new(alloc)),
    })
}

// A member of it by this name.
#[tactic(auto, using(js_tree::proofs::Equations::tree_rules))]
fn member(alloc: Global, object: Expr, name: &str) -> Result<Expr, Memory>
    ensures { IfOk result (λ e. plain_expr e ≡ tree.NamedMember None (plain_expr object) name.now) }
{
    let name = Text::from_str(alloc, name)?;
    Ok(Expr {
        loc: None,
        node: ExprNode::NamedMember(Boxed::new(alloc, object)?, name),
    })
}

// A number in decimal.
#[tactic(auto, using(crate::proofs::Small::small_rules))]
fn numeral(alloc: Global, number: u64) -> Result<Expr, Memory>
    ensures { IfOk result (λ e. plain_expr e ≡ spec.numeral number) }
{
    Ok(Expr {
        loc: None,
        node: ExprNode::NumericLiteral(Text::from_string(format!(in alloc; "{number}")?)),
    })
}

// An element of it.
#[tactic(auto, using(js_tree::proofs::Equations::tree_rules))]
fn element(alloc: Global, object: Expr, number: u64) -> Result<Expr, Memory>
    ensures { IfOk result (λ e. plain_expr e ≡ tree.ComputedMember None (plain_expr object) (spec.numeral number)) }
{
    let object = Boxed::new(alloc, object)?;
    let key = Boxed::new(alloc, numeral(alloc, number)?)?;
    Ok(Expr {
        loc: None,
        node: ExprNode::ComputedMember(object, key),
    })
}

// It is raised by one.
#[tactic(auto, using(js_tree::proofs::Equations::tree_rules))]
fn raised(alloc: Global, place: Expr) -> Result<Expr, Memory>
    ensures { IfOk result (λ e. plain_expr e ≡ tree.PostfixUpdate None update.Increment (plain_expr place)) }
{
    Ok(Expr {
        loc: None,
        node: ExprNode::PostfixUpdate(UpdateOperator::Increment, Boxed::new(alloc, place)?),
    })
}

// The place of the count of a construct with this number, or of a path of it.
#[tactic(auto, using(js_tree::proofs::Equations::tree_rules))]
fn place(
    alloc: Global,
    name: &str,
    kind: ConstructKind,
    number: u64,
    path: u64,
) -> Result<Expr, Memory>
    ensures { IfOk result (λ e. plain_expr e ≡ spec.counted_in (tree.Call None (spec.name name.now) tree.no_expr) (mark 0 kind number path) kind) }
{
    let held = held(alloc, name)?;
    match kind {
        ConstructKind::Statement => {
            let list = member(alloc, held, "s")?;
            element(alloc, list, number)
        }
        ConstructKind::Function => {
            let list = member(alloc, held, "f")?;
            element(alloc, list, number)
        }
        ConstructKind::Branch => {
            let list = member(alloc, held, "b")?;
            let paths = element(alloc, list, number)?;
            element(alloc, paths, path)
        }
    }
}

// What counts a construct with this number, or a path of it.
#[tactic(auto, using(js_tree::proofs::Equations::tree_rules))]
fn counter(
    alloc: Global,
    name: &str,
    kind: ConstructKind,
    number: u64,
    path: u64,
) -> Result<Expr, Memory>
    ensures { IfOk result (λ e. plain_expr e ≡ spec.counter name.now (mark 0 kind number path)) }
{
    let place = place(alloc, name, kind, number, path)?;
    raised(alloc, place)
}

// A statement that counts.
#[tactic(auto, using(js_tree::proofs::Equations::tree_rules))]
fn statement(alloc: Global, counter: Expr) -> Result<Stmt, Memory>
    ensures { IfOk result (λ x. plain_stmt x ≡ tree.Expression None (plain_expr counter)) }
{
    Ok(Stmt {
        loc: None,
        node: StmtNode::Expression(Boxed::new(alloc, counter)?),
    })
}

// The statement that counts a construct, or a path of it, if it has a number.
#[tactic(auto, using(crate::proofs::Joined::counted_rules))]
pub(crate) fn counting(
    site: Site<'_>,
    kind: ConstructKind,
    number: Option<u64>,
    path: u64,
) -> Result<Items<Stmt>, Memory>
    ensures { IfOk result (λ list. plain_stmts list ≡ rewritten.counts (counter_of site.entry) (marks_of kind path number)) }
{
    let mut list = Items::new(site.alloc);
    match number {
        None => Ok(list),
        Some(number) => {
            let counter = counter(site.alloc, site.name, kind, number, path)?;
            list.push(statement(site.alloc, counter)?)?;
            Ok(list)
        }
    }
}

// The statement that counts a construct that stands here, if it is counted: its number is taken.
pub(crate) fn own_counter(
    site: Site<'_>,
    numbers: &mut Numbers,
    kind: ConstructKind,
    place: Option<Loc>,
) -> Result<Items<Stmt>, Memory>
    ensures counters { IfOk result (λ list. plain_stmts list ≡ rewritten.counts (counter_of site.entry) (made.own_marks kind (heed_of site.entry) place (counts_of numbers.old))) }
    ensures next { IfOk result (λ _. counts_of numbers.new ≡ made.after kind (heed_of site.entry) place (counts_of numbers.old)) }
{
    let number = numbers.take(site.left, kind, place)?;
    counting(site, kind, number, 0)
}

// A value that is counted, if it has a number.
pub(crate) fn counted(
    site: Site<'_>,
    kind: ConstructKind,
    number: Option<u64>,
    path: u64,
    value: Expr,
) -> Result<Expr, Memory>
    ensures { IfOk result (λ r. plain_expr r ≡ rewritten.counted (counter_of site.entry) (marks_of kind path number) (plain_expr value)) }
{
    match number {
        None => Ok(value),
        Some(number) => {
            let counter = counter(site.alloc, site.name, kind, number, path)?;
            after_counter(site.alloc, counter, value)
        }
    }
}

// The same of an initializer or a default, which gives its name to an anonymous function.
pub(crate) fn held_by_name(
    site: Site<'_>,
    kind: ConstructKind,
    number: Option<u64>,
    anonymous: bool,
    bound: &Pattern,
    value: Expr,
) -> Result<Expr, Memory>
    ensures { IfOk result (λ r. plain_expr r ≡ rewritten.held (counter_of site.entry) anonymous (rewritten.bound_name (plain_pattern bound.now)) (marks_of kind 0 number) (plain_expr value)) }
{
    match number {
        None => Ok(value),
        Some(number) => {
            let counter = counter(site.alloc, site.name, kind, number, 0)?;
            if anonymous {
                hold(site.alloc, counter, name_of(bound), value)
            } else {
                after_counter(site.alloc, counter, value)
            }
        }
    }
}

// An initializer, and the counter that stands before its declaration.
#[derive(Drop)]
pub(crate) struct Initial {
    pub(crate) counters: Items<Stmt>,
    pub(crate) value: Expr,
}

// An initializer with its counter, which stands before the declaration where that is said and the
// initializer is an anonymous function.
pub(crate) fn with_counter(
    site: Site<'_>,
    hoists: bool,
    number: Option<u64>,
    anonymous: bool,
    bound: &Pattern,
    value: Expr,
) -> Result<Initial, Memory>
    ensures before { IfOk result (λ r. plain_stmts r.counters ≡ rewritten.counts (counter_of site.entry) (made.hoisted_marks hoists anonymous (marks_of construct_kind.Statement 0 number))) }
    ensures value { IfOk result (λ r. plain_expr r.value ≡ rewritten.initial (counter_of site.entry) hoists anonymous (rewritten.bound_name (plain_pattern bound.now)) (marks_of construct_kind.Statement 0 number) (plain_expr value)) }
{
    if hoists && anonymous {
        let counters = counting(site, ConstructKind::Statement, number, 0)?;
        Ok(Initial { counters, value })
    } else {
        let value = held_by_name(
            site,
            ConstructKind::Statement,
            number,
            anonymous,
            bound,
            value,
        )?;
        Ok(Initial {
            counters: Items::new(site.alloc),
            value,
        })
    }
}

// The name that is bound.
#[tactic(auto, using(js_tree::proofs::Equations::tree_rules))]
fn name_of(bound: &Pattern) -> &Name
    ensures { result.now ≡ rewritten.bound_name (plain_pattern bound.now) }
{
    match &bound.node {
        PatternNode::BindingIdentifier(name) => name,
    }
}
