ghost use Rattle.std.specs.Prelude.{◌≡◌, ◌++◌, Option, IfOk};
ghost use Rattle.js_terms.specs.declared.place.Loc.{Loc};
ghost use Rattle.js_tree.specs.Tree.{plain_expr, plain_stmts};
ghost use Rattle.js_walk.specs.Part.{AnExpr};
ghost use Rattle.js_reading.specs.Outside.{own_this, outside_functions, is_there, this_stmts};

use items::{Items, Memory};
use js_tree::{Expr, ExprNode, Loc, Stmt};
use js_walk::{Part, Visitor, visit_stmts};
use std::alloc::Global;

// The places of `this` that a walk comes to.
#[derive(Drop)]
struct Places {
    found: Items<Option<Loc>>,
}

/// Whether `this` stands in statements outside every function but arrows (ECMA-262, 13.2.1), or want of memory.
pub(crate) fn this_outside(alloc: Global, statements: &[Stmt]) -> Result<bool, Memory>
    ensures { IfOk result (λ outside. outside ≡ this_stmts (plain_stmts statements.now)) }
{
    let mut places = Places {
        found: Items::new(alloc),
    };
    visit_stmts(&mut places, &(), statements)?;
    Ok(has_any(places.found.as_slice()))
}

impl Visitor for Places {
    type Inherited = ();

    ghost Found = { Option Loc };

    ghost Told = { Unit {0} };

    ghost told = { λ _. tt };

    ghost own = { own_this };

    ghost down = { outside_functions };

    ghost found = { λ places. places.found };

    fn visit(&mut self, _inherited: &(), part: Part<'_>) -> Result<Option<()>, Memory> {
        match part {
            Part::Function(_) => Ok(None),
            Part::Expr(expr) => {
                of_expr(expr, &mut self.found)?;
                Ok(Some(()))
            }
            _ => Ok(Some(())),
        }
    }
}

/// The place of an expression that is `this`.
#[tactic(auto, using(js_tree::proofs::Equations::tree_rules))]
fn of_expr(expr: &Expr, found: &mut Items<Option<Loc>>) -> Result<(), Memory>
    ensures { IfOk result (λ _. found.new ≡ found.old ++ own_this tt (AnExpr (plain_expr expr.now))) }
{
    match &expr.node {
        ExprNode::This => found.push(expr.loc),
        _ => Ok(()),
    }
}

/// Whether there is one.
fn has_any(places: &[Option<Loc>]) -> bool
    ensures { result ≡ is_there places.now }
{
    match places {
        [] => false,
        _ => true,
    }
}
