ghost use Rattle.std.specs.Prelude.{◌≡◌, ◌≤◌, ◌∷◌, IfOk, None, Some, length};
ghost use Rattle.std.specs.Option.{option_map};
ghost use Rattle.js_tree.specs.Plain as tree;
ghost use Rattle.js_tree.specs.Tree.{plain_expr, plain_function, plain_function_body, plain_param, plain_params, plain_stmts};
ghost use Rattle.js_reading.specs.Spans as spans;
ghost use Rattle.js_reading.specs.Makes as makes;
ghost use Rattle.js_reading.specs.Slots.{APlace};
ghost use Rattle.js_build.specs.Callables.{braces_of, braces_view, callable_view, function_view, initializer_of, initializer_view, param_with, plain_initializer, prepend};
ghost use Rattle.js_build.specs.DeclaratorPieces.{cons_if};
ghost use Rattle.js_build.specs.View.{plain_pieces};

use crate::make::above;
use crate::names::bound;
use crate::parts::{Initializer, MadeBody, MadeFunction, MadeParam, MadeParams};
use crate::piece::discard;
use crate::place::through;
use crate::prologue::with_directives;
use crate::queue::{Pieces, taken};
use crate::shapes::{is_over, maybe, take_place, take_statements};
use crate::{Piece, Statements};
use items::{Boxed, Items, Memory};
use js_tree::{Expr, Function, FunctionBody, Loc, Name, Param};
use std::alloc::Global;

/// What stands after a name that is bound, whose first piece is taken.
#[tactic(auto, using(crate::proofs::CallableLaws::initializer_first))]
pub(crate) fn initializer_after(next: Option<Piece>, pieces: &mut Pieces) -> Option<Initializer>
    ensures read { initializer_view result (plain_pieces pieces.new) ≡ initializer_of (cons_if next (plain_pieces pieces.old)) }
    ensures shorter { length pieces.new ≤ length pieces.old }
{
    match maybe(next) {
        None => None,
        Some(None) => Some(Initializer::Without),
        Some(Some(value)) => match take_place(pieces) {
            None => None,
            Some(end) => Some(Initializer::With(value, end)),
        },
    }
}

/// What stands after a name that is bound.
pub(crate) fn initializer(pieces: &mut Pieces) -> Option<Initializer>
    ensures read { initializer_view result (plain_pieces pieces.new) ≡ initializer_of (plain_pieces pieces.old) }
    ensures shorter { length pieces.new ≤ length pieces.old }
{
    let next = taken(pieces);
    initializer_after(next, pieces)
}

/// A parameter without a default.
#[tactic(auto, using(js_tree::proofs::Equations::param_rolled, js_tree::proofs::Equations::expr_if_none))]
fn bare_param(name: Name, place: Loc) -> Param
    ensures { plain_param result ≡ param_with name place None }
{
    Param {
        loc: Some(place),
        pattern: bound(name, place),
        default: None,
    }
}

/// A parameter with a default, and where that ends.
#[tactic(auto, using(js_tree::proofs::Equations::param_rolled, js_tree::proofs::Equations::expr_if_some))]
fn default_param(name: Name, place: Loc, value: Boxed<Expr>, end: Loc) -> Param
    ensures { plain_param result ≡ param_with name place (Some (plain_expr value, end)) }
{
    Param {
        loc: Some(through(place, end)),
        pattern: bound(name, place),
        default: Some(value),
    }
}

/// A parameter.
fn param(name: Name, place: Loc, initializer: Initializer) -> Result<MadeParam, Memory>
    ensures { IfOk result (λ made. plain_param made.tree ≡ param_with name place (plain_initializer initializer)) }
{
    match initializer {
        Initializer::Without => Ok(MadeParam {
            tree: bare_param(name, place),
            height: 1,
        }),
        Initializer::With(value, end) => {
            let height = above(value.height.max(1))?;
            let tree = default_param(name, place, value.tree, end);
            Ok(MadeParam { tree, height })
        }
    }
}

/// A body in braces, which stand at these places.
#[tactic(auto, using(js_tree::proofs::Equations::function_body_rolled))]
pub(crate) fn body(
    alloc: Global,
    opening: Loc,
    statements: Statements,
    closing: Loc,
) -> Result<MadeBody, Memory>
    ensures { IfOk result (λ made. plain_function_body made.tree ≡ tree.MakeFunctionBody (Some (spans.through opening closing)) (makes.with_directives (plain_stmts statements.items))) }
{
    let statements = with_directives(alloc, statements)?;
    Ok(MadeBody {
        tree: FunctionBody {
            loc: Some(through(opening, closing)),
            statements: statements.items,
        },
        height: statements.height,
    })
}

/// A function of these parameters and this body.
#[tactic(auto, using(js_tree::proofs::Equations::function_rolled))]
fn function_node(alloc: Global, params: MadeParams, body: MadeBody) -> Result<MadeFunction, Memory>
    ensures { IfOk result (λ made. plain_function made.tree ≡ tree.MakeFunction 0 (plain_params params.items) (plain_function_body body.tree)) }
{
    let parts = params.height.max(body.height);
    let tree = Function {
        params: params.items,
        body: body.tree,
    };
    let tree = Boxed::new(alloc, tree)?;
    Ok(MadeFunction { tree, parts })
}

/// Statements in braces after the place of the `{`, and where the `}` stands.
#[tactic(auto, using(crate::proofs::CallableLaws::braces_first))]
pub(crate) fn braces(pieces: &mut Pieces) -> Option<(Statements, Loc)>
    ensures read { braces_view result (plain_pieces pieces.new) ≡ braces_of (plain_pieces pieces.old) }
    ensures shorter { length pieces.new ≤ length pieces.old }
{
    match take_statements(pieces) {
        None => None,
        Some(statements) => match take_place(pieces) {
            None => None,
            Some(closing) => Some((statements, closing)),
        },
    }
}

/// The body of a function, after the place of its `{`, and where its `}` stands.
#[tactic(auto, using(crate::proofs::CallableLaws::ending_rules))]
fn ending(
    alloc: Global,
    params: MadeParams,
    opening: Loc,
    pieces: &mut Pieces,
) -> Result<Option<(MadeFunction, Loc)>, Memory>
    ensures { IfOk result (λ made. callable_view made (plain_pieces pieces.new) ≡ prepend (plain_params params.items) (makes.method_of (APlace opening ∷ plain_pieces pieces.old))) }
{
    match braces(pieces) {
        None => Ok(None),
        Some((statements, closing)) => {
            let body = body(alloc, opening, statements, closing)?;
            Ok(Some((function_node(alloc, params, body)?, closing)))
        }
    }
}

/// The parameters and the body of a function, and where its `}` stands.
#[tactic(auto, using(js_tree::proofs::Equations::params_push, crate::proofs::CallableLaws::callable_rules))]
pub(crate) fn callable(
    alloc: Global,
    pieces: &mut Pieces,
) -> Result<Option<(MadeFunction, Loc)>, Memory>
    ensures { IfOk result (λ made. callable_view made (plain_pieces pieces.new) ≡ makes.method_of (plain_pieces pieces.old)) }
{
    let mut items = Items::new(alloc);
    let mut height = 0;
    'each: loop {
        match pieces.next() {
            Some(Piece::Word(name, place)) => match initializer(pieces) {
                None => return Ok(None),
                Some(initializer) => {
                    let param = param(name, place, initializer)?;
                    height = param.height.max(height);
                    items.push(param.tree)?;
                }
            },
            Some(Piece::Place(opening)) => {
                let params = MadeParams { items, height };
                return ending(alloc, params, opening, pieces);
            }
            other => {
                discard(other);
                return Ok(None);
            }
        }
    }
}

/// The parameters and the body of a function, and nothing else.
#[tactic(auto, using(crate::proofs::CallableLaws::function_whole))]
pub(crate) fn function(alloc: Global, mut pieces: Pieces) -> Result<Option<MadeFunction>, Memory>
    ensures { IfOk result (λ made. option_map function_view made ≡ makes.function_of (plain_pieces pieces)) }
{
    match callable(alloc, &mut pieces)? {
        None => Ok(None),
        Some((function, _)) => {
            if is_over(pieces) {
                Ok(Some(function))
            } else {
                Ok(None)
            }
        }
    }
}
