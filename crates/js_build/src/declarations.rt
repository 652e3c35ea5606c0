ghost use Rattle.std.specs.Prelude.{◌≡◌, ◌<◌, ◌≤◌, ◌∷◌, IfErr, IfOk, None, OnOk, Some, false, length};
ghost use Rattle.js_tree.specs.Height.{height_declarator};
ghost use Rattle.js_tree.specs.Plain as tree;
ghost use Rattle.js_tree.specs.Tree.{plain_declarator, plain_declarators, plain_expr};
ghost use Rattle.js_reading.specs.Makes as makes;
ghost use Rattle.js_reading.specs.Slots.{AWord};
ghost use Rattle.js_reading.specs.declared.form.Form.TheVariants as form;
ghost use Rattle.js_build.specs.Callables.{initializer_of, plain_initializer};
ghost use Rattle.js_build.specs.DeclaratorPieces as declared;
ghost use Rattle.js_build.specs.View.{plain_pieces, Makes, MakesStmt};

use crate::Piece;
use crate::callables::initializer;
use crate::lists::{MadeDeclarator, MadeDeclarators};
use crate::make::{above, nothing, statement};
use crate::names::bound;
use crate::parts::Initializer;
use crate::piece::discard;
use crate::place::through;
use crate::queue::Pieces;
use items::{Boxed, Items, Memory};
use js_tree::{Declarator, Expr, Loc, Name, StmtNode, VariableKind};
use std::alloc::Global;

/// A declarator without an initializer.
#[tactic(auto, using(js_tree::proofs::Equations::declarator_rolled, js_tree::proofs::Equations::expr_if_none))]
fn bare_declarator(name: Name, place: Loc) -> Declarator
    ensures { plain_declarator result ≡ declared.declarator_with name place None }
{
    Declarator {
        loc: Some(place),
        pattern: bound(name, place),
        initializer: None,
    }
}

/// A declarator with an initializer, and where that ends.
#[tactic(auto, using(js_tree::proofs::Equations::declarator_rolled, js_tree::proofs::Equations::expr_if_some))]
fn initialized_declarator(name: Name, place: Loc, value: Boxed<Expr>, end: Loc) -> Declarator
    ensures { plain_declarator result ≡ declared.declarator_with name place (Some (plain_expr value, end)) }
{
    Declarator {
        loc: Some(through(place, end)),
        pattern: bound(name, place),
        initializer: Some(value),
    }
}

/// A declarator, and its height.
pub(crate) fn declarator(
    name: Name,
    place: Loc,
    initializer: Initializer,
) -> Result<(Declarator, u64), Memory>
    ensures tree { IfOk result (λ made. plain_declarator made.0 ≡ declared.declarator_with name place (plain_initializer initializer)) }
    ensures height { IfOk result (λ made. made.1 ≡ height_declarator (plain_declarator made.0)) }
{
    match initializer {
        Initializer::Without => Ok((bare_declarator(name, place), 2)),
        Initializer::With(value, end) => {
            let height = above(value.height.max(1))?;
            Ok((initialized_declarator(name, place, value.tree, end), height))
        }
    }
}

/// Whether an initializer is wanting.
pub(crate) fn refuses(strict: bool, initializer: &Initializer) -> bool
    ensures { result ≡ declared.refuses strict (plain_initializer initializer.now) }
{
    match initializer {
        Initializer::Without => strict,
        Initializer::With(_, _) => false,
    }
}

/// The name that is next and its place, or else the piece that is next.
fn take_word(pieces: &mut Pieces) -> Result<(Name, Loc), Option<Piece>>
    ensures word { IfOk result (λ word. plain_pieces pieces.old ≡ AWord word.0 word.1 ∷ plain_pieces pieces.new) }
    ensures other { IfErr result (λ other. plain_pieces pieces.old ≡ declared.cons_if other (plain_pieces pieces.new)) }
    ensures no_word { IfErr result (λ other. declared.is_word other ≡ false) }
    ensures shorter { OnOk result (length pieces.new < length pieces.old) }
{
    match pieces.next() {
        Some(Piece::Word(name, place)) => Ok((name, place)),
        other => Err(other),
    }
}

/// A declarator after its name, or none where an initializer is wanting.
fn declared_next(
    strict: bool,
    name: Name,
    place: Loc,
    pieces: &mut Pieces,
) -> Result<Option<MadeDeclarator>, Memory>
    ensures read { IfOk result (λ made. declared.one_view made (plain_pieces pieces.new) ≡ declared.one_declared strict name place (initializer_of (plain_pieces pieces.old))) }
    ensures shorter { length pieces.new ≤ length pieces.old }
{
    match initializer(pieces) {
        None => Ok(None),
        Some(initializer) => {
            if refuses(strict, &initializer) {
                return Ok(None);
            }
            let (tree, height) = declarator(name, place, initializer)?;
            Ok(Some(MadeDeclarator { tree, height }))
        }
    }
}

/// Declarators after those that are made, and the piece after them.
#[tactic(auto, using(js_tree::proofs::Equations::declarators_push, crate::proofs::DeclarationLaws::declared_rules))]
pub(crate) fn declarators(
    strict: bool,
    made: MadeDeclarators,
    pieces: &mut Pieces,
) -> Result<Option<(MadeDeclarators, Option<Piece>)>, Memory>
    ensures { IfOk result (λ found. declared.declared_view found (plain_pieces pieces.new) ≡ declared.front (plain_declarators made.items) (declared.settled (makes.declarators_of strict (plain_pieces pieces.old)))) }
{
    let mut height = made.height;
    let mut items = made.items;
    'each: loop {
        match take_word(pieces) {
            Err(other) => return Ok(Some((MadeDeclarators { items, height }, other))),
            Ok((name, place)) => match declared_next(strict, name, place, pieces)? {
                None => return Ok(None),
                Some(made) => {
                    height = made.height.max(height);
                    items.push(made.tree)?;
                }
            },
        }
    }
}

/// No declarators.
pub(crate) fn no_declarators(alloc: Global) -> MadeDeclarators
    ensures { plain_declarators result.items ≡ tree.no_declarator }
{
    MadeDeclarators {
        items: Items::new(alloc),
        height: 0,
    }
}

/// Whether each declarator must have an initializer (14.3.1).
pub(crate) fn is_const(kind: VariableKind) -> bool
    ensures { result ≡ makes.is_const kind }
{
    match kind {
        VariableKind::Const => true,
        _ => false,
    }
}

/// A declaration of variables.
#[tactic(auto, using(js_tree::proofs::Equations::stmt_variable_declaration))]
fn variables_node(
    alloc: Global,
    place: Loc,
    kind: VariableKind,
    made: MadeDeclarators,
) -> Result<Option<Piece>, Memory>
    ensures { MakesStmt result (tree.VariableDeclaration (Some place) kind (plain_declarators made.items)) }
{
    let parts = made.height;
    let node = StmtNode::VariableDeclaration(kind, made.items);
    statement(alloc, place, node, parts)
}

/// A declaration of variables (14.3.1, 14.3.2).
#[tactic(auto, using(crate::proofs::DeclarationLaws::variables_form))]
pub(crate) fn variables(
    alloc: Global,
    place: Loc,
    kind: VariableKind,
    mut pieces: Pieces,
) -> Result<Option<Piece>, Memory>
    ensures { Makes result (makes.build (form.Variables kind) place (plain_pieces pieces)) }
{
    match declarators(is_const(kind), no_declarators(alloc), &mut pieces)? {
        None => nothing(),
        Some((made, next)) => match next {
            None => variables_node(alloc, place, kind, made),
            other => {
                discard(other);
                Ok(None)
            }
        },
    }
}
