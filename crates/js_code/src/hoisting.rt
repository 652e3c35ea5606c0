// The functions that stand in a list, found at their places.

ghost use Rattle.std.specs.Prelude.{◌≡◌, ◌<◌, ◌++◌, true, IfOk, OnOk, MatchOption};
ghost use Rattle.js_tree.specs.Plain.{no_case, no_stmt, more_case, more_stmt};
ghost use Rattle.js_tree.specs.Codes.{Ordinary};
ghost use Rattle.js_meaning.specs.Scopes.{case_stmts, cases_stmts, function_stmt, function_stmts, shape_of};
ghost use Rattle.js_code.specs.Node.{function_of};
ghost use Rattle.js_code.specs.Code.{reader};
ghost use Rattle.js_code.specs.Part.{as_case, as_cases, as_code, as_stmt, as_stmts};

use crate::compiling::Compiling;
use crate::literal::Word;
use crate::node::{ListKind, Node};
use crate::scopes::Hoisted;
use items::{Items, Memory};
use std::alloc::Global;

/// The functions in the list of statements at a place.
pub fn hoisted(alloc: Global, code: &Compiling, list: usize) -> Result<Items<Hoisted>, Memory>
    ensures { IfOk result (λ functions. functions ≡ function_stmts (as_stmts (reader code.now.nodes list))) }
{
    let mut functions = Items::new(alloc);
    hoist_list(alloc, code, list, &mut functions)?;
    Ok(functions)
}

/// The functions in the clauses at a place.
pub fn hoisted_of_cases(
    alloc: Global,
    code: &Compiling,
    list: usize,
) -> Result<Items<Hoisted>, Memory>
    ensures { IfOk result (λ functions. functions ≡ function_stmts (cases_stmts (as_cases (reader code.now.nodes list)))) }
{
    let mut functions = Items::new(alloc);
    let mut rest = list;
    while let Some((first, next)) = cases_at(code, rest) {
        hoist_case(alloc, code, first, &mut functions)?;
        rest = next;
    }
    Ok(functions)
}

/// Puts the functions in the list of statements at a place at the end.
fn hoist_list(
    alloc: Global,
    code: &Compiling,
    list: usize,
    functions: &mut Items<Hoisted>,
) -> Result<(), Memory>
    ensures { OnOk result (functions.new ≡ functions.old ++ function_stmts (as_stmts (reader code.now.nodes list))) }
{
    let mut rest = list;
    while let Some((first, next)) = stmts_at(code, rest) {
        hoist(alloc, code, first, functions)?;
        rest = next;
    }
    Ok(())
}

/// Puts the functions in a clause at the end.
fn hoist_case(
    alloc: Global,
    code: &Compiling,
    place: usize,
    functions: &mut Items<Hoisted>,
) -> Result<(), Memory>
    ensures { OnOk result (functions.new ≡ functions.old ++ function_stmts (case_stmts (as_case (reader code.now.nodes place)))) }
{
    match case_list(code, place) {
        Some(list) => hoist_list(alloc, code, list, functions),
        None => Ok(()),
    }
}

/// Puts the function that a statement declares, if it does, at the end.
fn hoist(
    alloc: Global,
    code: &Compiling,
    place: usize,
    functions: &mut Items<Hoisted>,
) -> Result<(), Memory>
    ensures { OnOk result (functions.new ≡ functions.old ++ function_stmt (as_stmt (reader code.now.nodes place))) }
{
    if let Node::FunctionDeclaration {
        loc: _,
        name,
        function,
    } = code.node(place)
    {
        let (number, length) = shape_at(code, *function);
        let name = Word::new(alloc, name.name().as_str())?;
        functions.push(Hoisted::new(name, number, length))?;
    }
    Ok(())
}

/// The first statement of a list, and the list of the others.
fn stmts_at(code: &Compiling, place: usize) -> Option<(usize, usize)>
    ensures { MatchOption result (as_stmts (reader code.now.nodes place) ≡ no_stmt) (λ at. (at.1 < place) ×
        (as_stmts (reader code.now.nodes place) ≡ more_stmt (as_stmt (reader code.now.nodes at.0)) (as_stmts (reader code.now.nodes at.1)))) }
{
    match code.node(place) {
        Node::More {
            kind: ListKind::Stmts,
            first,
            rest,
        } => Some((*first, *rest)),
        _ => None,
    }
}

/// The first clause of a list, and the list of the others.
fn cases_at(code: &Compiling, place: usize) -> Option<(usize, usize)>
    ensures { MatchOption result (as_cases (reader code.now.nodes place) ≡ no_case) (λ at. (at.1 < place) ×
        (as_cases (reader code.now.nodes place) ≡ more_case (as_case (reader code.now.nodes at.0)) (as_cases (reader code.now.nodes at.1)))) }
{
    match code.node(place) {
        Node::More {
            kind: ListKind::Cases,
            first,
            rest,
        } => Some((*first, *rest)),
        _ => None,
    }
}

/// The list of the statements of a clause.
fn case_list(code: &Compiling, place: usize) -> Option<usize>
    ensures { MatchOption result (case_stmts (as_case (reader code.now.nodes place)) ≡ no_stmt)
        (λ list. case_stmts (as_case (reader code.now.nodes place)) ≡ as_stmts (reader code.now.nodes list)) }
{
    match code.node(place) {
        Node::Case {
            loc: _,
            test: _,
            statements,
        } => Some(*statements),
        _ => None,
    }
}

/// The number of the function whose code is at a place, and how many arguments it expects.
fn shape_at(code: &Compiling, place: usize) -> (u64, usize)
    ensures { shape_of (Ordinary (function_of (as_code (reader code.now.nodes place)))) ≡ record { number = result.0; length = result.1; constructs = true } }
{
    match code.node(place) {
        Node::Function { number, length, .. } => (*number, *length),
        Node::ArrowExpression { number, length, .. } => (*number, *length),
        Node::ArrowBlock { number, length, .. } => (*number, *length),
        _ => (0, 0),
    }
}
