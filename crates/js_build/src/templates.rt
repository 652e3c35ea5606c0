ghost use Rattle.std.specs.Prelude.{◌≡◌, ◌≤◌, IfOk, Some, length};
ghost use Rattle.std.specs.Option.{option_map};
ghost use Rattle.js_tree.specs.Plain as tree;
ghost use Rattle.js_tree.specs.Tree.{plain_expr, plain_template_part, plain_template_parts};
ghost use Rattle.js_reading.specs.Makes.{build, template_parts};
ghost use Rattle.js_reading.specs.declared.form.Form.TheVariants as form;
ghost use Rattle.js_build.specs.Lists.{parts_view};
ghost use Rattle.js_build.specs.TemplatePieces as spec;
ghost use Rattle.js_build.specs.View.{plain_piece, plain_pieces, Makes, MakesExpr};

use crate::lists::{MadePart, MadeParts};
use crate::make::{expression, nothing};
use crate::piece::discard;
use crate::queue::Pieces;
use crate::{Operand, Piece};
use items::{Items, Memory};
use js_tree::{ExprNode, Loc, Spelled, TemplatePart};
use std::alloc::Global;

/// The part of a template's text that is next.
fn take_text(pieces: &mut Pieces) -> Option<Spelled>
    ensures read { spec.text_taken result (plain_pieces pieces.new) ≡ spec.first_text (plain_pieces pieces.old) }
    ensures shorter { length pieces.new ≤ length pieces.old }
{
    match pieces.next() {
        Some(Piece::Text(text)) => Some(text),
        other => {
            discard(other);
            None
        }
    }
}

/// A substitution, and the text after it.
#[tactic(auto, using(crate::proofs::TemplateLaws::part_tree))]
fn part_node(value: Operand, text: Spelled) -> MadePart
    ensures { plain_template_part result.tree ≡ tree.MakeTemplatePart (plain_expr value.tree) text }
{
    let height = value.height;
    let tree = TemplatePart {
        value: value.tree.into_inner(),
        text,
    };
    MadePart { tree, height }
}

/// The substitution that begins with a piece, and the text after it.
fn part(first: Piece, pieces: &mut Pieces) -> Option<MadePart>
    ensures read { spec.part_view result (plain_pieces pieces.new) ≡ spec.part_of (plain_piece first) (spec.first_text (plain_pieces pieces.old)) }
    ensures shorter { length pieces.new ≤ length pieces.old }
{
    match first {
        Piece::Expression(value) => match take_text(pieces) {
            None => None,
            Some(text) => Some(part_node(value, text)),
        },
        other => {
            discard(Some(other));
            None
        }
    }
}

/// The substitutions of a template, each with the text after it.
#[tactic(auto, using(js_tree::proofs::Equations::template_parts_push, crate::proofs::TemplateLaws::template_rules))]
fn parts(alloc: Global, pieces: &mut Pieces) -> Result<Option<MadeParts>, Memory>
    ensures { IfOk result (λ made. option_map parts_view made ≡ template_parts (plain_pieces pieces.old)) }
{
    let mut items = Items::new(alloc);
    let mut height = 0;
    'each: loop {
        match pieces.next() {
            None => return Ok(Some(MadeParts { items, height })),
            Some(first) => match part(first, pieces) {
                None => return Ok(None),
                Some(made) => {
                    height = made.height.max(height);
                    items.push(made.tree)?;
                }
            },
        }
    }
}

/// A template.
#[tactic(auto, using(js_tree::proofs::Equations::expr_template_literal))]
fn template_node(
    alloc: Global,
    place: Loc,
    first: Spelled,
    parts: MadeParts,
) -> Result<Option<Piece>, Memory>
    ensures { MakesExpr result 22 (tree.TemplateLiteral (Some place) first (plain_template_parts parts.items)) }
{
    let height = parts.height;
    let node = ExprNode::TemplateLiteral(first, parts.items);
    expression(alloc, 22, place, node, height, 22, false)
}

/// A template with substitutions (13.2.8).
#[tactic(auto, using(crate::proofs::TemplateLaws::template_form))]
pub(crate) fn template(
    alloc: Global,
    place: Loc,
    mut pieces: Pieces,
) -> Result<Option<Piece>, Memory>
    ensures { Makes result (build form.Template place (plain_pieces pieces)) }
{
    match take_text(&mut pieces) {
        None => nothing(),
        Some(first) => match parts(alloc, &mut pieces)? {
            None => nothing(),
            Some(parts) => template_node(alloc, place, first, parts),
        },
    }
}
