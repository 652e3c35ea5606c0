// What stands around lists of parts: scopes, and the codes of functions.

ghost use Rattle.std.specs.Prelude.{◌≡◌, ◌<◌, length};
ghost use Rattle.js_tree.specs.Plain as P;
ghost use Rattle.js_tree.specs.Tree.{plain_cases, plain_declarators, plain_params, plain_stmts};
ghost use Rattle.js_code.specs.Part.{ACaseScope, AForInit, AScope, as_cases, as_declarators, as_stmts};
ghost use Rattle.js_meaning.specs.Scopes.{is_fresh as fresh_init};
ghost use Rattle.js_code.specs.private.Compiled.{IfWhole, Kept, Pushed, ReadsCases, ReadsDeclarators, ReadsParams, ReadsStmts, arrow_block_part, arrow_expression_part, code_part};

use crate::compiling::{Compiling, lack, push};
use crate::hoisting::{hoisted, hoisted_of_cases};
use crate::names::{block_scope, case_scope, code_scope, expected_arguments, lexical_names};
use crate::node::Node;
use items::Items;
use js_tree::{Case, Declarator, Loc, Param, Stmt, VariableKind};
use std::alloc::Global;

/// A function's number, and where its parts stand.
#[derive(Clone, Copy)]
pub struct Parts {
    /// Its number in the program.
    pub number: u64,
    /// The list of its parameters.
    pub params: usize,
    /// The place of its body in the text, with the braces.
    pub body_loc: Option<Loc>,
    /// Its body: a list of statements, or an expression.
    pub body: usize,
}

/// Puts a scope before the list of some statements.
pub fn put_scope(alloc: Global, stmts: &[Stmt], list: usize, code: &mut Compiling) -> usize
    requires reads { IfWhole code.old (ReadsStmts code.old.nodes list (plain_stmts stmts.now)) }
    ensures { Kept code.old code.new (Pushed code.old code.new result (λ t. AScope (as_stmts (t list)))) }
{
    let Ok(functions) = hoisted(alloc, code, list) else {
        return lack(code);
    };
    let Ok(scope) = block_scope(alloc, stmts, functions) else {
        return lack(code);
    };
    push(
        code,
        Node::Scope {
            scope,
            statements: list,
        },
    )
}

/// Puts a scope before the list of some clauses.
pub fn put_case_scope(alloc: Global, cases: &[Case], list: usize, code: &mut Compiling) -> usize
    requires reads { IfWhole code.old (ReadsCases code.old.nodes list (plain_cases cases.now)) }
    ensures { Kept code.old code.new (Pushed code.old code.new result (λ t. ACaseScope (as_cases (t list)))) }
{
    let Ok(functions) = hoisted_of_cases(alloc, code, list) else {
        return lack(code);
    };
    let Ok(scope) = case_scope(alloc, cases, functions) else {
        return lack(code);
    };
    push(code, Node::CaseScope { scope, cases: list })
}

/// Puts the declaration that a `for` begins with before the list of its declarators.
pub fn put_init(
    alloc: Global,
    kind: VariableKind,
    declarators: &[Declarator],
    list: usize,
    code: &mut Compiling,
) -> usize
    requires reads { IfWhole code.old (ReadsDeclarators code.old.nodes list (plain_declarators declarators.now)) }
    ensures { Kept code.old code.new (Pushed code.old code.new result (λ t. AForInit (P.InitDeclaration kind (as_declarators (t list))))) }
{
    let mut names = Items::new(alloc);
    let Ok(()) = lexical_names(alloc, kind, declarators, &mut names) else {
        return lack(code);
    };
    push(
        code,
        Node::InitDeclaration {
            kind,
            names,
            fresh: is_fresh(kind, declarators),
            declarators: list,
        },
    )
}

/// Whether the names of a declaration are fresh in each turn of a `for`.
fn is_fresh(kind: VariableKind, declarators: &[Declarator]) -> bool
    ensures { result ≡ fresh_init (P.InitDeclaration kind (plain_declarators declarators.now)) }
{
    match kind {
        VariableKind::Let => !declarators.is_empty(),
        VariableKind::Const => false,
        VariableKind::Var => false,
    }
}

/// Puts the code of a function or a method after its parts.
pub fn put_function(
    alloc: Global,
    is_method: bool,
    parts: Parts,
    params: &[Param],
    stmts: &[Stmt],
    code: &mut Compiling,
) -> usize
    requires params { IfWhole code.old (ReadsParams code.old.nodes parts.params (plain_params params.now)) }
    requires body { IfWhole code.old (ReadsStmts code.old.nodes parts.body (plain_stmts stmts.now)) }
    ensures { Kept code.old code.new (Pushed code.old code.new result (code_part is_method parts.number parts.params parts.body_loc parts.body)) }
{
    let Ok(functions) = hoisted(alloc, code, parts.body) else {
        return lack(code);
    };
    let Ok(scope) = code_scope(alloc, params, stmts, functions) else {
        return lack(code);
    };
    push(
        code,
        Node::Function {
            is_method,
            number: parts.number,
            length: expected_arguments(params),
            scope,
            params: parts.params,
            body_loc: parts.body_loc,
            body: parts.body,
        },
    )
}

/// Puts the code of an arrow function whose body is an expression after its parts.
pub fn put_arrow_expression(
    alloc: Global,
    parts: Parts,
    params: &[Param],
    code: &mut Compiling,
) -> usize
    requires params { IfWhole code.old (ReadsParams code.old.nodes parts.params (plain_params params.now)) }
    requires body { IfWhole code.old (parts.body < length code.old.nodes) }
    ensures { Kept code.old code.new (Pushed code.old code.new result (arrow_expression_part parts.number parts.params parts.body)) }
{
    let Ok(scope) = code_scope(alloc, params, &[], Items::new(alloc)) else {
        return lack(code);
    };
    push(
        code,
        Node::ArrowExpression {
            number: parts.number,
            length: expected_arguments(params),
            scope,
            params: parts.params,
            value: parts.body,
        },
    )
}

/// Puts the code of an arrow function with a body in braces after its parts.
pub fn put_arrow_block(
    alloc: Global,
    parts: Parts,
    params: &[Param],
    stmts: &[Stmt],
    code: &mut Compiling,
) -> usize
    requires params { IfWhole code.old (ReadsParams code.old.nodes parts.params (plain_params params.now)) }
    requires body { IfWhole code.old (ReadsStmts code.old.nodes parts.body (plain_stmts stmts.now)) }
    ensures { Kept code.old code.new (Pushed code.old code.new result (arrow_block_part parts.number parts.params parts.body_loc parts.body)) }
{
    let Ok(functions) = hoisted(alloc, code, parts.body) else {
        return lack(code);
    };
    let Ok(scope) = code_scope(alloc, params, stmts, functions) else {
        return lack(code);
    };
    push(
        code,
        Node::ArrowBlock {
            number: parts.number,
            length: expected_arguments(params),
            scope,
            params: parts.params,
            body_loc: parts.body_loc,
            body: parts.body,
        },
    )
}
