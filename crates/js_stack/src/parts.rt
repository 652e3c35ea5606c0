ghost use Rattle.std.specs.Prelude.{◌≡◌, [], ◌∷◌, ◌++◌, OnOk};
ghost use Rattle.js_build.specs.View.{plain_piece, plain_pieces};
ghost use Rattle.js_reading.specs.Open as spec;
ghost use Rattle.js_reading.specs.Unsupported.{in_own};
ghost use Rattle.js_stack.specs.Own as own;
ghost use Rattle.js_stack.specs.Own.{no_part};

use items::Memory;
use js_build::Piece;
use std::alloc::Global;
use std::marker::Model;

/// The parts of a production that are read, and what is asked of them together. Contracts see them as a list, in order.
#[derive(Drop)]
pub(crate) struct Parts {
    pieces: Vec<Piece>,
    /// How high the highest is.
    height: u64,
    /// Whether what comes next is a function's own, where these are a function's.
    own_in_function: bool,
    /// Whether it is a method's own, where they are not.
    own_elsewhere: bool,
}

impl Model for Parts {
    ghost use Rattle.std.specs.Prelude.{◌≡◌, List};
    ghost use Rattle.std.specs.Coded.{codes};
    ghost use Rattle.js_build.specs.declared.piece.Piece.{Piece};
    ghost use Rattle.js_build.specs.View.{plain_pieces};
    ghost use Rattle.js_reading.specs.Open.{heights};
    ghost use Rattle.js_reading.specs.Unsupported.{in_own};
    ghost use Rattle.std.specs.Prelude.{true, false};
    ghost use Rattle.js_tree.specs.contracts.tree.Expr as expr;
    ghost use Rattle.js_tree.specs.contracts.tree.Stmt as stmt;
    ghost use Rattle.js_tree.specs.contracts.tree.PropertyKey as key;

    ghost Value = { List Piece };

    ghost coded = { Prim.hlevel (codes, expr.the_row.coded, stmt.the_row.coded, key.the_row.coded) };

    ghost view = { λ parts. parts.pieces.items };

    ghost invariant = { λ parts. (parts.height ≡ heights (plain_pieces parts.pieces.items)) × (parts.own_in_function ≡ in_own true (plain_pieces parts.pieces.items)) × (parts.own_elsewhere ≡ in_own false (plain_pieces parts.pieces.items)) };
}

impl Parts {
    /// No part is read.
    pub(crate) fn new(alloc: Global) -> Parts
        ensures { result ≡ [] }
    {
        Parts {
            pieces: Vec::new(alloc),
            height: 0,
            own_in_function: true,
            own_elsewhere: false,
        }
    }

    /// Puts a part after the others.
    #[tactic(auto, using(crate::proofs::PartsLemmas::parts_rules))]
    pub(crate) fn push(&mut self, piece: Piece) -> Result<(), Memory>
        ensures { OnOk result (self.new ≡ self.old ++ piece ∷ []) }
    {
        let height = self.height.max(height(&piece));
        let own_in_function = own_after(&piece, self.own_in_function);
        let own_elsewhere = own_after(&piece, self.own_elsewhere);
        self.pieces.push(piece)?;
        self.height = height;
        self.own_in_function = own_in_function;
        self.own_elsewhere = own_elsewhere;
        Ok(())
    }

    /// How high the highest is.
    pub(crate) fn height(&self) -> u64
        ensures { result ≡ spec.heights (plain_pieces self.now) }
    {
        self.height
    }

    /// Whether what comes next is a function's or a method's own.
    pub(crate) fn own(&self, is_function: bool) -> bool
        ensures { result ≡ in_own is_function (plain_pieces self.now) }
    {
        if is_function {
            self.own_in_function
        } else {
            self.own_elsewhere
        }
    }

    /// Whether no part is read.
    #[tactic(auto, using(crate::proofs::PartsLemmas::no_part_is))]
    pub(crate) fn is_empty(&self) -> bool
        ensures { result ≡ no_part (plain_pieces self.now) }
    {
        self.pieces.is_empty()
    }

    /// The parts, lent.
    pub(crate) fn as_slice(&self) -> &[Piece]
        ensures { result.now ≡ self.now }
    {
        self.pieces.as_slice()
    }

    /// The parts themselves.
    pub(crate) fn into_vec(self) -> Vec<Piece>
        ensures { result.items ≡ self }
    {
        self.pieces
    }
}

/// How high a part is.
fn height(piece: &Piece) -> u64
    ensures { result ≡ spec.height (plain_piece piece.now) }
{
    match piece {
        Piece::Expression(operand) => operand.height,
        Piece::Statement(body) => body.height,
        Piece::Statements(statements) => statements.height,
        Piece::Expressions(_, list) => list.height,
        _ => 0,
    }
}

/// Whether what comes after a part is a function's own: a method's begins with its mark, and both end with their body.
fn own_after(piece: &Piece, before: bool) -> bool
    ensures { result ≡ own.own_after (plain_piece piece.now) before }
{
    match piece {
        Piece::Method => true,
        Piece::Statements(_) => false,
        _ => before,
    }
}
