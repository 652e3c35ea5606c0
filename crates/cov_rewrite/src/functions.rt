ghost use Rattle.std.specs.Prelude.{◌≡◌, IfOk};
ghost use Rattle.js_tree.specs.Tree.{plain_concise_body, plain_function, plain_function_body, plain_param, plain_params, plain_stmts};
ghost use Rattle.cov_rewrite.specs.Made as made;
ghost use Rattle.cov_rewrite.specs.Numbers.{counts_of};
ghost use Rattle.cov_rewrite.specs.Site.{counter_of, heed_of};

use crate::blocks::{after_directives, returning};
use crate::counters::{held_by_name, own_counter};
use crate::expressions::expression;
use crate::numbering::{Numbers, in_branch};
use crate::site::Site;
use crate::statements::statements;
use cov_hints::{place_as_written, place_of_expr, place_of_param};
use items::{Boxed, Items, Memory};
use js_tree::{ConciseBody, ConstructKind, Function, FunctionBody, Loc, Param, Stmt};
use name_hold::needs_hold;

// A function, the construct of which stands here.
#[cycle(rewriting)]
#[tactic(auto, using(js_tree::proofs::Equations::tree_rules))]
pub(crate) fn function(
    site: Site<'_>,
    numbers: &mut Numbers,
    place: Option<Loc>,
    x: Boxed<Function>,
) -> Result<Boxed<Function>, Memory>
    ensures tree { IfOk result (λ r. plain_function r ≡ made.made_function (counter_of site.entry) (heed_of site.entry) place (plain_function x) (counts_of numbers.old)) }
    ensures next { IfOk result (λ _. counts_of numbers.new ≡ made.next_function (heed_of site.entry) place (plain_function x) (counts_of numbers.old)) }
{
    let counters = own_counter(site, numbers, ConstructKind::Function, place)?;
    inside(site, numbers, x, counters)
}

// A function after its own number, with its counter.
#[cycle(rewriting)]
#[tactic(auto, using(js_tree::proofs::Equations::tree_rules))]
pub(crate) fn inside(
    site: Site<'_>,
    numbers: &mut Numbers,
    x: Boxed<Function>,
    counters: Items<Stmt>,
) -> Result<Boxed<Function>, Memory>
    ensures tree { IfOk result (λ r. plain_function r ≡ made.made_inside (counter_of site.entry) (heed_of site.entry) (plain_stmts counters) (plain_function x) (counts_of numbers.old)) }
    ensures next { IfOk result (λ _. counts_of numbers.new ≡ made.next_inside (heed_of site.entry) (plain_function x) (counts_of numbers.old)) }
{
    let Function { params: list, body } = x.into_inner();
    let list = params(site, numbers, list)?;
    let body = function_body(site, numbers, body, counters)?;
    Boxed::new(site.alloc, Function { params: list, body })
}

// The body of a function, with the function's counter.
#[cycle(rewriting)]
#[tactic(auto, using(js_tree::proofs::Equations::tree_rules))]
fn function_body(
    site: Site<'_>,
    numbers: &mut Numbers,
    x: FunctionBody,
    counters: Items<Stmt>,
) -> Result<FunctionBody, Memory>
    ensures tree { IfOk result (λ r. plain_function_body r ≡ made.made_body (counter_of site.entry) (heed_of site.entry) (plain_stmts counters) (plain_function_body x) (counts_of numbers.old)) }
    ensures next { IfOk result (λ _. counts_of numbers.new ≡ made.next_body (heed_of site.entry) (plain_function_body x) (counts_of numbers.old)) }
{
    let FunctionBody {
        loc,
        statements: list,
    } = x;
    let list = statements(site, numbers, true, list)?;
    let list = after_directives(site.alloc, counters, list)?;
    Ok(FunctionBody {
        loc,
        statements: list,
    })
}

// The body of an arrow, with the function's counter.
#[cycle(rewriting)]
#[tactic(auto, using(js_tree::proofs::Equations::tree_rules))]
pub(crate) fn concise_body(
    site: Site<'_>,
    numbers: &mut Numbers,
    x: Boxed<ConciseBody>,
    counters: Items<Stmt>,
) -> Result<Boxed<ConciseBody>, Memory>
    ensures tree { IfOk result (λ r. plain_concise_body r ≡ made.made_concise (counter_of site.entry) (heed_of site.entry) (plain_stmts counters) (plain_concise_body x) (counts_of numbers.old)) }
    ensures next { IfOk result (λ _. counts_of numbers.new ≡ made.next_concise (heed_of site.entry) (plain_concise_body x) (counts_of numbers.old)) }
{
    match x.into_inner() {
        ConciseBody::ExpressionBody(value) => {
            let inner = site.within(place_as_written(&value));
            let place = place_of_expr(&value);
            let more = own_counter(inner, numbers, ConstructKind::Statement, place)?;
            let value = expression(inner, numbers, value)?;
            Boxed::new(site.alloc, returning(site.alloc, counters, more, value)?)
        }
        ConciseBody::BlockBody(body) => {
            let body = function_body(site, numbers, body, counters)?;
            Boxed::new(site.alloc, ConciseBody::BlockBody(body))
        }
    }
}

// Parameters.
#[cycle(rewriting)]
#[tactic(auto, using(js_tree::proofs::Equations::tree_rules))]
pub(crate) fn params(
    site: Site<'_>,
    numbers: &mut Numbers,
    list: Items<Param>,
) -> Result<Items<Param>, Memory>
    ensures tree { IfOk result (λ r. plain_params r ≡ made.made_params (counter_of site.entry) (heed_of site.entry) (plain_params list) (counts_of numbers.old)) }
    ensures next { IfOk result (λ _. counts_of numbers.new ≡ made.next_params (heed_of site.entry) (plain_params list) (counts_of numbers.old)) }
{
    let mut out = Items::new(site.alloc);
    for each in list.into_vec() {
        let inner = site.within(place_of_param(&each));
        let made = param(inner, numbers, each)?;
        out.push(made)?;
    }
    Ok(out)
}

// One of them.
#[cycle(rewriting)]
#[tactic(auto, using(js_tree::proofs::Equations::tree_rules))]
fn param(site: Site<'_>, numbers: &mut Numbers, x: Param) -> Result<Param, Memory>
    ensures tree { IfOk result (λ r. plain_param r ≡ made.made_param (counter_of site.entry) (heed_of site.entry) (plain_param x) (counts_of numbers.old)) }
    ensures next { IfOk result (λ _. counts_of numbers.new ≡ made.next_param (heed_of site.entry) (plain_param x) (counts_of numbers.old)) }
{
    let Param {
        loc,
        pattern,
        default,
    } = x;
    match default {
        None => Ok(Param {
            loc,
            pattern,
            default: None,
        }),
        Some(value) => {
            let branch = numbers.take(site.left, ConstructKind::Branch, loc)?;
            let inner = site.within(place_as_written(value.get()));
            let anonymous = needs_hold(value.get());
            let value = expression(inner, numbers, value.into_inner())?;
            let number = in_branch(inner.left, branch);
            let value = held_by_name(
                site,
                ConstructKind::Branch,
                number,
                anonymous,
                &pattern,
                value,
            )?;
            let value = Boxed::new(site.alloc, value)?;
            Ok(Param {
                loc,
                pattern,
                default: Some(value),
            })
        }
    }
}
