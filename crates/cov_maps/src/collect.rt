ghost use Rattle.std.specs.Prelude.{◌≡◌, ◌++◌, IfOk};
ghost use Rattle.cov_hints.specs.Left.{left_of};
ghost use Rattle.cov_maps.specs.private.Told.{told_of};
ghost use Rattle.js_terms.specs.declared.construct.Construct.{Construct};
ghost use Rattle.js_tree.specs.Tree.{plain_expr, plain_file, plain_stmt};
ghost use Rattle.cov_hints.specs.Table.{hint_in_table};
ghost use Rattle.js_tree.specs.Comments.{hint_before};
ghost use Rattle.js_tree.specs.Hints.{heed_comments};
ghost use Rattle.js_terms.specs.declared.place.Pos.{Pos};
ghost use Rattle.js_walk.specs.Constructs.{Told, constructs_file, left_in, own_construct, own_expr, own_stmt, tell, told};
ghost use Rattle.js_walk.specs.Part.{AnExpr};
ghost use Rattle.js_walk.specs.Walk.{walk_file};

use crate::counts::{count, count_body, count_branch, count_default, count_initializer};
use crate::functions::{count_function, count_method, count_named, count_nameless};
use crate::inherited::{Inherited, tell_expr, tell_stmt};
use crate::names::all_named;
use crate::paths::{push_case_paths, push_expr_path, push_if_paths, push_operand_paths};
use cov_hints::{
    Hints, Left, ignores_file, place_as_written, place_of_body, place_of_case, place_of_concise,
    place_of_declarator, place_of_param, place_of_property, place_of_stmt,
};
use items::{Items, Memory};
use js_scopes::Checked;
use js_tree::{BranchKind, Construct, Expr, ExprNode, File, Stmt, StmtNode};
use js_walk::{Part, Visitor, visit_file};
use std::alloc::Global;
use std::marker::PhantomData;

// What a walk collects.
#[derive(Drop)]
struct Collector<'h> {
    alloc: Global,
    out: Items<Construct>,
    of: PhantomData<&'h Hints>,
}

/// What is counted in a file, in the order of its text: a parent before what is in it, and from
/// left to right. A node that was inserted is not counted, nor is what a hint takes out. A function
/// without a name is called `(anonymous_N)`, where N is its number among the file's functions, from
/// 0. It takes time linear in the file, but for the chains of logical operators, whose leaves are
/// sought once a chain, and for the hints, which are sought in a sorted table.
pub fn constructs(alloc: Global, file: &Checked) -> Result<Vec<Construct>, Memory>
    ensures { IfOk result (λ list. list.items ≡ constructs_file (plain_file file.now)) }
{
    let tree = file.file();
    let hints = Hints::of(alloc, tree.comments.as_slice())?;
    all_named(alloc, collected(alloc, &hints, tree)?)
}

// What is counted in a file of these hints, before functions without a name get one.
fn collected(alloc: Global, hints: &Hints, file: &File) -> Result<Items<Construct>, Memory>
    requires { (token : Pos) → hint_in_table hints.now.held token ≡ hint_before file.now.comments token }
    ensures { IfOk result (λ out. out ≡ walk_file own_construct tell (plain_file file.now) (told (heed_comments file.now.comments))) }
{
    let left = Left {
        hints,
        ignored: ignores_file(file),
    };
    let mut collector = Collector {
        alloc,
        out: Items::new(alloc),
        of: PhantomData,
    };
    visit_file(&mut collector, &Inherited::of(left), file)?;
    let Collector {
        alloc: _,
        out,
        of: _,
    } = collector;
    Ok(out)
}

impl<'h> Visitor for Collector<'h> {
    type Inherited = Inherited<'h>;

    ghost Found = { Construct };

    ghost Told = { Told };

    ghost told = { told_of };

    ghost own = { own_construct };

    ghost down = { tell };

    ghost found = { λ collector. collector.out };

    #[tactic(auto, using(js_tree::proofs::Equations::tree_rules))]
    fn visit(
        &mut self,
        told: &Inherited<'h>,
        part: Part<'_>,
    ) -> Result<Option<Inherited<'h>>, Memory> {
        match part {
            Part::Expr(expr) => {
                let left = left_in_expr(told, expr);
                count_expr(self.alloc, left, told.chained, expr, &mut self.out)?;
                Ok(Some(tell_expr(left, told.chained, expr)))
            }
            Part::Stmt(stmt) => {
                let left = told.left.within(place_of_stmt(stmt));
                count_stmt(self.alloc, left, stmt, &mut self.out)?;
                Ok(Some(tell_stmt(left, stmt)))
            }
            Part::Property(property) => {
                let left = told.left.within(place_of_property(property));
                count_method(self.alloc, left, property, &mut self.out)?;
                Ok(Some(Inherited::of(left)))
            }
            Part::Declarator(declarator) => {
                let left = told.left.within(place_of_declarator(declarator));
                count_initializer(left, declarator, &mut self.out)?;
                Ok(Some(Inherited::of(left)))
            }
            Part::Param(param) => {
                let left = told.left.within(place_of_param(param));
                count_default(self.alloc, left, param, &mut self.out)?;
                Ok(Some(Inherited::of(left)))
            }
            Part::ConciseBody(body) => {
                count_body(told.left, body, &mut self.out)?;
                Ok(Some(Inherited::of(told.left)))
            }
            Part::Case(case) => {
                let left = told.left.within(place_of_case(case));
                Ok(Some(Inherited::of(left)))
            }
            Part::Then(_) => Ok(Some(Inherited::of(told.holds))),
            Part::Else(_) => Ok(Some(Inherited::of(told.fails))),
            _ => Ok(Some(Inherited::of(told.left))),
        }
    }
}

// What hints have left in an expression.
fn left_in_expr<'h>(told: &Inherited<'h>, expr: &Expr) -> Left<'h>
    ensures { left_of result ≡ left_in (told_of told.now) (AnExpr (plain_expr expr.now)) }
{
    if told.inner {
        told.left
    } else {
        told.left.within(place_as_written(expr))
    }
}

// Counts a function, or the branch of an expression.
#[tactic(auto, using(js_tree::proofs::Equations::tree_rules))]
fn count_expr(
    alloc: Global,
    left: Left<'_>,
    chained: bool,
    expr: &Expr,
    out: &mut Items<Construct>,
) -> Result<(), Memory>
    ensures { IfOk result (λ _. out.new ≡ out.old ++ own_expr (left_of left.entry) chained (plain_expr expr.now)) }
{
    match &expr.node {
        ExprNode::FunctionExpression(name, function) => count_function(
            alloc,
            &left.place(expr.loc),
            name,
            place_of_body(function.get()),
            out,
        ),
        ExprNode::ArrowFunction(_, body) => count_nameless(
            alloc,
            &left.place(expr.loc),
            place_of_concise(body.get()),
            out,
        ),
        ExprNode::Conditional(_, then, otherwise) => {
            let mut paths = Items::new(alloc);
            push_expr_path(left, then.get(), &mut paths)?;
            push_expr_path(left, otherwise.get(), &mut paths)?;
            count_branch(BranchKind::Conditional, &left.place(expr.loc), paths, out)
        }
        ExprNode::Logical(_, first, second) => {
            if chained {
                Ok(())
            } else {
                let mut paths = Items::new(alloc);
                push_operand_paths(left, first.get(), &mut paths)?;
                push_operand_paths(left, second.get(), &mut paths)?;
                count_branch(BranchKind::Logical, &left.place(expr.loc), paths, out)
            }
        }
        ExprNode::Parenthesized(_)
        | ExprNode::IdentifierReference(_)
        | ExprNode::This
        | ExprNode::NullLiteral
        | ExprNode::BooleanLiteral(_)
        | ExprNode::NumericLiteral(_)
        | ExprNode::StringLiteral(_)
        | ExprNode::ArrayLiteral(_)
        | ExprNode::ObjectLiteral(_)
        | ExprNode::RegularExpressionLiteral(_, _)
        | ExprNode::TemplateLiteral(_, _)
        | ExprNode::NamedMember(_, _)
        | ExprNode::ComputedMember(_, _)
        | ExprNode::New(_, _)
        | ExprNode::Call(_, _)
        | ExprNode::PostfixUpdate(_, _)
        | ExprNode::PrefixUpdate(_, _)
        | ExprNode::Unary(_, _)
        | ExprNode::Binary(_, _, _)
        | ExprNode::Assignment(_, _, _)
        | ExprNode::Comma(_, _) => Ok(()),
    }
}

// Counts a statement, and the branch of an `if` and of a `switch`, or a function.
#[tactic(auto, using(js_tree::proofs::Equations::tree_rules))]
fn count_stmt(
    alloc: Global,
    left: Left<'_>,
    stmt: &Stmt,
    out: &mut Items<Construct>,
) -> Result<(), Memory>
    ensures { IfOk result (λ _. out.new ≡ out.old ++ own_stmt (left_of left.entry) (plain_stmt stmt.now)) }
{
    match &stmt.node {
        StmtNode::Directive(_)
        | StmtNode::Block(_)
        | StmtNode::VariableDeclaration(_, _)
        | StmtNode::Empty => Ok(()),
        StmtNode::FunctionDeclaration(name, function) => count_named(
            alloc,
            &left.place(stmt.loc),
            name,
            place_of_body(function.get()),
            out,
        ),
        StmtNode::If(_, holds, fails) => {
            let place = left.place(stmt.loc);
            count(&place, out)?;
            let mut paths = Items::new(alloc);
            push_if_paths(left, stmt.loc, holds.get(), fails, &mut paths)?;
            count_branch(BranchKind::If, &place, paths, out)
        }
        StmtNode::Switch(_, cases) => {
            let place = left.place(stmt.loc);
            count(&place, out)?;
            let mut paths = Items::new(alloc);
            push_case_paths(left, cases.as_slice(), &mut paths)?;
            count_branch(BranchKind::Switch, &place, paths, out)
        }
        StmtNode::Expression(_)
        | StmtNode::DoWhile(_, _)
        | StmtNode::While(_, _)
        | StmtNode::For(_, _, _, _)
        | StmtNode::ForIn(_, _, _)
        | StmtNode::ForOf(_, _, _)
        | StmtNode::Continue(_)
        | StmtNode::Break(_)
        | StmtNode::Return(_)
        | StmtNode::Labelled(_, _)
        | StmtNode::Throw(_)
        | StmtNode::TryCatch(_, _)
        | StmtNode::TryFinally(_, _)
        | StmtNode::TryCatchFinally(_, _, _)
        | StmtNode::Debugger => count(&left.place(stmt.loc), out),
    }
}
