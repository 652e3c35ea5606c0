ghost use Rattle.std.specs.Prelude.{◌≡◌, ◌++◌, Some, None, IfOk};
ghost use Rattle.cov_hints.specs.Left.{left_of};
ghost use Rattle.js_tree.specs.Tree.{plain_property};
ghost use Rattle.js_walk.specs.Constructs as spec;

use cov_hints::{Left, place_of_body};
use items::{Items, Memory, Text};
use js_tree::{Construct, Identifier, Loc, Pos, Property, PropertyNode};
use std::alloc::Global;

// The one column from a place.
fn one_column(start: Pos) -> Loc
    ensures { result ≡ spec.one_column start }
{
    Loc {
        start,
        end: Pos {
            line: start.line,
            column: start.column.saturating_add(1),
        },
    }
}

// Counts a function that is declared and has its body in these places.
fn count_at(
    alloc: Global,
    name: &str,
    declared: Option<Loc>,
    body: Option<Loc>,
    out: &mut Items<Construct>,
) -> Result<(), Memory>
    ensures { IfOk result (λ _. out.new ≡ out.old ++ spec.function_at name.now declared body) }
{
    match declared {
        None => Ok(()),
        Some(decl) => {
            match body {
                None => Ok(()),
                Some(loc) => {
                    let name = Text::from_str(alloc, name)?;
                    out.push(Construct::Function { name, decl, loc })
                }
            }
        }
    }
}

// Counts a function with a name.
pub(crate) fn count_named(
    alloc: Global,
    loc: &Option<Loc>,
    name: &Identifier,
    body: Option<Loc>,
    out: &mut Items<Construct>,
) -> Result<(), Memory>
    ensures { IfOk result (λ _. out.new ≡ out.old ++ spec.counted_function loc.now (Some name.now) body) }
{
    match loc {
        None => Ok(()),
        Some(_) => count_at(alloc, name.name.as_str(), name.loc, body, out),
    }
}

// Counts a function without a name.
pub(crate) fn count_nameless(
    alloc: Global,
    loc: &Option<Loc>,
    body: Option<Loc>,
    out: &mut Items<Construct>,
) -> Result<(), Memory>
    ensures { IfOk result (λ _. out.new ≡ out.old ++ spec.counted_function loc.now None body) }
{
    match loc {
        None => Ok(()),
        Some(loc) => count_at(alloc, "", Some(one_column(loc.start)), body, out),
    }
}

// Counts a function that may have a name.
pub(crate) fn count_function(
    alloc: Global,
    loc: &Option<Loc>,
    name: &Option<Identifier>,
    body: Option<Loc>,
    out: &mut Items<Construct>,
) -> Result<(), Memory>
    ensures { IfOk result (λ _. out.new ≡ out.old ++ spec.counted_function loc.now name.now body) }
{
    match name {
        None => count_nameless(alloc, loc, body, out),
        Some(name) => count_named(alloc, loc, name, body, out),
    }
}

// Counts the function of a method.
#[tactic(auto, using(js_tree::proofs::Equations::tree_rules))]
pub(crate) fn count_method(
    alloc: Global,
    left: Left<'_>,
    property: &Property,
    out: &mut Items<Construct>,
) -> Result<(), Memory>
    ensures { IfOk result (λ _. out.new ≡ out.old ++ spec.own_property (left_of left.entry) (plain_property property.now)) }
{
    match &property.node {
        PropertyNode::Shorthand(_) => Ok(()),
        PropertyNode::KeyValue(_, _) => Ok(()),
        PropertyNode::Method(_, function) => count_nameless(
            alloc,
            &left.place(property.loc),
            place_of_body(function.get()),
            out,
        ),
    }
}
