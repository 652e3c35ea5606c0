ghost use Rattle.std.specs.Prelude.{◌≡◌, ◌∷◌, IfErr, IfOk, None, OnErr, Some};
ghost use Rattle.js_tree.specs.Plain as tree;
ghost use Rattle.js_tree.specs.Tree.{plain_declarators};
ghost use Rattle.js_reading.specs.Makes as makes;
ghost use Rattle.js_reading.specs.Slots.{AKind, AWord};
ghost use Rattle.js_reading.specs.declared.form.Form.TheVariants as form;
ghost use Rattle.js_build.specs.Callables.{plain_initializer};
ghost use Rattle.js_build.specs.DeclaratorPieces as declared;
ghost use Rattle.js_build.specs.Fors.{first_word};
ghost use Rattle.js_build.specs.View.{plain_pieces, Makes};

use crate::Piece;
use crate::callables::initializer_after;
use crate::declarations::{declarator, declarators, is_const, no_declarators, refuses};
use crate::fors::{each_next, for_each, for_expression, for_rest};
use crate::lists::MadeDeclarators;
use crate::make::nothing;
use crate::names::bound;
use crate::parts::Initializer;
use crate::piece::discard;
use crate::queue::{Pieces, taken};
use items::{Items, Memory};
use js_tree::{ForInit, ForTarget, Loc, Name, VariableKind};
use std::alloc::Global;

/// One declarator.
fn one_declarator(
    alloc: Global,
    name: Name,
    at: Loc,
    initializer: Initializer,
) -> Result<MadeDeclarators, Memory>
    ensures { IfOk result (λ made. plain_declarators made.items ≡ tree.more_declarator (declared.declarator_with name at (plain_initializer initializer)) tree.no_declarator) }
{
    let (made, height) = declarator(name, at, initializer)?;
    let mut items = Items::new(alloc);
    items.push(made)?;
    Ok(MadeDeclarators { items, height })
}

/// A `for` with declarators after those that are made.
#[tactic(auto, using(js_tree::proofs::Equations::for_init_init_declaration))]
fn for_variables(
    alloc: Global,
    place: Loc,
    kind: VariableKind,
    made: MadeDeclarators,
    mut pieces: Pieces,
) -> Result<Option<Piece>, Memory>
    ensures { Makes result (makes.for_declared place kind (declared.front (plain_declarators made.items) (declared.settled (makes.declarators_of (makes.is_const kind) (plain_pieces pieces))))) }
{
    match declarators(is_const(kind), made, &mut pieces)? {
        None => nothing(),
        Some((made, next)) => {
            let height = made.height;
            let init = ForInit::InitDeclaration(kind, made.items);
            for_rest(alloc, place, init, height, next, pieces)
        }
    }
}

/// A `for` with declarators, after the first name; the piece that follows it is taken.
#[tactic(auto, using(crate::proofs::DeclarationLaws::declared_word))]
fn for_named(
    alloc: Global,
    place: Loc,
    kind: VariableKind,
    name: Name,
    at: Loc,
    next: Option<Piece>,
    mut pieces: Pieces,
) -> Result<Option<Piece>, Memory>
    ensures { Makes result (makes.for_declared place kind (declared.settled (makes.declarators_of (makes.is_const kind) (AWord name at ∷ declared.cons_if next (plain_pieces pieces))))) }
{
    match initializer_after(next, &mut pieces) {
        None => nothing(),
        Some(initializer) => {
            if refuses(is_const(kind), &initializer) {
                return nothing();
            }
            let made = one_declarator(alloc, name, at, initializer)?;
            for_variables(alloc, place, kind, made, pieces)
        }
    }
}

/// A `for` whose first part declares variables, after the first name.
#[tactic(auto, using(js_tree::proofs::Equations::for_target_target_declaration, crate::proofs::HeadLaws::name_form))]
fn for_name(
    alloc: Global,
    place: Loc,
    kind: VariableKind,
    name: Name,
    at: Loc,
    mut pieces: Pieces,
) -> Result<Option<Piece>, Memory>
    ensures { Makes result (makes.for_parts place (AKind kind ∷ AWord name at ∷ plain_pieces pieces)) }
{
    match each_next(&mut pieces) {
        Ok(of) => {
            let target = ForTarget::TargetDeclaration(kind, bound(name, at));
            for_each(alloc, place, of, target, 1, pieces)
        }
        Err(next) => for_named(alloc, place, kind, name, at, next, pieces),
    }
}

/// The name that is next, and its place, or else the piece.
fn word_next(pieces: &mut Pieces) -> Result<(Name, Loc), Option<Piece>>
    ensures word { IfOk result (λ word. first_word (plain_pieces pieces.old) ≡ Some (word, plain_pieces pieces.new)) }
    ensures same { IfErr result (λ other. plain_pieces pieces.old ≡ declared.cons_if other (plain_pieces pieces.new)) }
    ensures other { OnErr result (first_word (plain_pieces pieces.old) ≡ None) }
{
    match pieces.next() {
        None => Err(None),
        Some(Piece::Word(name, place)) => Ok((name, place)),
        Some(other) => Err(Some(other)),
    }
}

/// A `for` whose first part declares variables.
#[tactic(auto, using(js_tree::proofs::Equations::for_init_init_declaration, crate::proofs::HeadLaws::kind_form))]
fn for_declaration(
    alloc: Global,
    place: Loc,
    kind: VariableKind,
    mut pieces: Pieces,
) -> Result<Option<Piece>, Memory>
    ensures { Makes result (makes.for_parts place (AKind kind ∷ plain_pieces pieces)) }
{
    match word_next(&mut pieces) {
        Ok((name, at)) => for_name(alloc, place, kind, name, at, pieces),
        Err(next) => {
            let made = no_declarators(alloc);
            let init = ForInit::InitDeclaration(kind, made.items);
            for_rest(alloc, place, init, 0, next, pieces)
        }
    }
}

/// A `for` without a first part.
#[tactic(auto, using(js_tree::proofs::Equations::for_init_no_init))]
fn for_without(alloc: Global, place: Loc, mut pieces: Pieces) -> Result<Option<Piece>, Memory>
    ensures { Makes result (makes.for_of place tree.NoInit (plain_pieces pieces)) }
{
    let next = taken(&mut pieces);
    for_rest(alloc, place, ForInit::NoInit, 0, next, pieces)
}

/// `for`, each kind of it (14.7.4, 14.7.5).
pub(crate) fn for_statement(
    alloc: Global,
    place: Loc,
    mut pieces: Pieces,
) -> Result<Option<Piece>, Memory>
    ensures { Makes result (makes.build form.For place (plain_pieces pieces)) }
{
    match pieces.next() {
        Some(Piece::Kind(kind)) => for_declaration(alloc, place, kind, pieces),
        Some(Piece::Expression(operand)) => for_expression(alloc, place, operand, pieces),
        Some(Piece::Missing) => for_without(alloc, place, pieces),
        other => {
            discard(other);
            Ok(None)
        }
    }
}
