// Lists of parts, and parts that may be missing.

ghost use Rattle.std.specs.Prelude.{◌≡◌, ◌≤◌, ℕ, None, IfSome};
ghost use Rattle.js_code.specs.Code.{reader};
ghost use Rattle.js_code.specs.Part.{as_expr_if, as_stmt_if};
ghost use Rattle.js_meaning.specs.Program.{Sources};
ghost use Rattle.js_machine.specs.private.Config.{view_of, expr_or, stmt_or};
ghost use Rattle.js_machine.specs.private.Weight.{clause_weight, place_weight};

use js_code::{Code, ListKind, Node};

/// The first part of a list of this kind and the list of the others, if a node is one that is not at its end.
pub fn list_of(node: &Node, kind: ListKind) -> Option<(usize, usize)>
    ensures more { IfSome result (λ list. node.now ≡ Node.More kind list.0 list.1) }
    ensures end { result ≡ None → (first rest : ℕ) → node.now ≡ Node.More kind first rest → ⊥ }
{
    match node {
        Node::More {
            kind: of,
            first,
            rest,
        } if *of == kind => Some((*first, *rest)),
        _ => None,
    }
}

/// The place, if there is a part at it.
pub fn there(code: &Code, place: usize) -> Option<usize>
    ensures expr { (p : Sources) → as_expr_if (reader code.now.nodes place) ≡ expr_or (view_of p code.now.nodes) result }
    ensures stmt { (p : Sources) → as_stmt_if (reader code.now.nodes place) ≡ stmt_or (view_of p code.now.nodes) result }
    ensures weight { clause_weight place_weight result ≤ place_weight place }
{
    match code.node(place) {
        Node::Missing => None,
        _ => Some(place),
    }
}
