ghost use Rattle.std.specs.Prelude.{◌≡◌, IfOk};
ghost use Rattle.js_tree.specs.Plain as tree;
ghost use Rattle.js_tree.specs.Tree.{plain_expr, plain_exprs, plain_stmt, plain_stmts};
ghost use Rattle.js_build.specs.Growing.{joined_more};

use crate::make::above;
use crate::{Body, List, Operand, Statements};
use items::{Items, Memory};
use std::alloc::Global;

impl Statements {
    /// No statements.
    pub fn new(alloc: Global) -> Statements
        ensures { plain_stmts result.items ≡ tree.no_stmt }
    {
        Statements {
            items: Items::new(alloc),
            height: 0,
        }
    }

    /// One more statement.
    #[tactic(auto, using(js_tree::proofs::Equations::stmts_push, crate::proofs::GrowingLaws::max_push_stmts))]
    pub fn with(self, body: Body) -> Result<Statements, Memory>
        ensures { IfOk result (λ made. plain_stmts made.items ≡ tree.push_stmts (plain_stmts self.items) (plain_stmt body.tree)) }
    {
        let height = body.height.max(self.height);
        let mut items = self.items;
        items.push(body.tree.into_inner())?;
        Ok(Statements { items, height })
    }
}

impl List {
    /// No expressions.
    pub fn new(alloc: Global) -> List
        ensures { plain_exprs result.items ≡ tree.no_expr }
    {
        List {
            items: Items::new(alloc),
            height: 0,
            joined: 0,
        }
    }

    /// One more expression.
    #[tactic(auto, using(js_tree::proofs::Equations::exprs_push, crate::proofs::GrowingLaws::growing_rules))]
    pub fn with(self, operand: Operand) -> Result<List, Memory>
        ensures { IfOk result (λ made. plain_exprs made.items ≡ tree.push_exprs (plain_exprs self.items) (plain_expr operand.tree)) }
    {
        let height = operand.height.max(self.height);
        let joined = joined_height(self.joined, operand.height)?;
        let mut items = self.items;
        items.push(operand.tree.into_inner())?;
        Ok(List {
            items,
            height,
            joined,
        })
    }
}

/// The height with a comma between every two, with one more. No expression has height 0.
fn joined_height(joined: u64, height: u64) -> Result<u64, Memory>
    ensures { IfOk result (λ made. made ≡ joined_more joined height) }
{
    if joined == 0 {
        return Ok(height);
    }
    above(joined.max(height))
}
