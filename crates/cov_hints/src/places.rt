ghost use Rattle.std.specs.Prelude.{◌≡◌};
ghost use Rattle.js_tree.specs.Tree.{plain_case, plain_concise_body, plain_declarator, plain_expr, plain_function, plain_function_body, plain_param, plain_property, plain_stmt, plain_stmt_if};
ghost use Rattle.js_tree.specs.Places.{bare_place, body_place, braced_place, case_place, concise_place, declarator_place, expr_place, param_place, property_place, stmt_if_place, stmt_place};

use items::Boxed;
use js_tree::{
    Case, ConciseBody, Declarator, Expr, ExprNode, Function, FunctionBody, Loc, Param, Property,
    PropertyNode, Stmt,
};

/// Where a statement stands. It takes no memory.
#[tactic(auto, using(crate::proofs::NodePlaces::stmt_place_same))]
pub fn place_of_stmt(stmt: &Stmt) -> Option<Loc>
    ensures { result ≡ stmt_place (plain_stmt stmt.now) }
{
    stmt.loc
}

/// Where the arm after an `else` stands, if there is one with a place. It takes no memory.
#[tactic(auto, using(js_tree::proofs::Equations::tree_rules))]
pub fn place_of_arm(otherwise: &Option<Boxed<Stmt>>) -> Option<Loc>
    ensures { result ≡ stmt_if_place (plain_stmt_if otherwise.now) }
{
    match otherwise {
        None => None,
        Some(stmt) => place_of_stmt(stmt.get()),
    }
}

/// Where an expression stands, without parentheses round it. It takes no memory.
#[tactic(auto, using(js_tree::proofs::Equations::tree_rules))]
pub fn place_of_expr(expr: &Expr) -> Option<Loc>
    ensures { result ≡ bare_place (plain_expr expr.now) }
{
    match &expr.node {
        ExprNode::Parenthesized(inner) => place_of_expr(inner.get()),
        _ => expr.loc,
    }
}

// Where a body in braces stands.
#[tactic(auto, using(js_tree::proofs::Equations::tree_rules))]
fn place_of_braces(body: &FunctionBody) -> Option<Loc>
    ensures { result ≡ braced_place (plain_function_body body.now) }
{
    body.loc
}

/// Where the body of a function stands. It takes no memory.
#[tactic(auto, using(js_tree::proofs::Equations::tree_rules))]
pub fn place_of_body(function: &Function) -> Option<Loc>
    ensures { result ≡ body_place (plain_function function.now) }
{
    place_of_braces(&function.body)
}

/// Where the body of an arrow stands. It takes no memory.
#[tactic(auto, using(js_tree::proofs::Equations::tree_rules))]
pub fn place_of_concise(body: &ConciseBody) -> Option<Loc>
    ensures { result ≡ concise_place (plain_concise_body body.now) }
{
    match body {
        ConciseBody::ExpressionBody(value) => place_of_expr(value),
        ConciseBody::BlockBody(body) => place_of_braces(body),
    }
}

/// Where a case of a `switch` stands. It takes no memory.
#[tactic(auto, using(js_tree::proofs::Equations::tree_rules))]
pub fn place_of_case(case: &Case) -> Option<Loc>
    ensures { result ≡ case_place (plain_case case.now) }
{
    case.loc
}

/// Where an expression stands, with the parentheses round it. It takes no memory.
#[tactic(auto, using(crate::proofs::ExprPlaces::expr_place_same))]
pub fn place_as_written(expr: &Expr) -> Option<Loc>
    ensures { result ≡ expr_place (plain_expr expr.now) }
{
    expr.loc
}

/// Where a property stands. It takes no memory.
#[tactic(auto, using(js_tree::proofs::Equations::tree_rules))]
pub fn place_of_property(property: &Property) -> Option<Loc>
    ensures { result ≡ property_place (plain_property property.now) }
{
    match &property.node {
        PropertyNode::Shorthand(_) => property.loc,
        PropertyNode::KeyValue(_, _) => property.loc,
        PropertyNode::Method(_, _) => property.loc,
    }
}

/// Where a parameter stands. It takes no memory.
#[tactic(auto, using(js_tree::proofs::Equations::tree_rules))]
pub fn place_of_param(param: &Param) -> Option<Loc>
    ensures { result ≡ param_place (plain_param param.now) }
{
    param.loc
}

/// Where a declarator stands. It takes no memory.
#[tactic(auto, using(js_tree::proofs::Equations::tree_rules))]
pub fn place_of_declarator(declarator: &Declarator) -> Option<Loc>
    ensures { result ≡ declarator_place (plain_declarator declarator.now) }
{
    declarator.loc
}
