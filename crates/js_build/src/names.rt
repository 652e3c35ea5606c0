ghost use Rattle.std.specs.Prelude.{◌≡◌};
ghost use Rattle.js_tree.specs.Tree.{plain_expr, plain_pattern};
ghost use Rattle.js_reading.specs.Makes as makes;
ghost use Rattle.js_build.specs.Names.{identifier_of};

use items::Boxed;
use js_tree::{Expr, ExprNode, Identifier, Loc, Name, Pattern, PatternNode};

/// Lets a node go, as an expression, whose drop is proved with the tree.
pub(crate) fn discard_node(node: ExprNode) {
    drop(Expr { loc: None, node });
}

/// The name that an expression is alone, if it is one.
#[tactic(auto, using(js_tree::proofs::Equations::tree_rules))]
pub(crate) fn into_identifier(expression: Boxed<Expr>) -> Option<Identifier>
    ensures { result ≡ identifier_of (plain_expr expression) }
{
    let (loc, node) = expression.into_inner().into_parts();
    match node {
        ExprNode::IdentifierReference(name) => Some(Identifier { loc, name }),
        other => {
            discard_node(other);
            None
        }
    }
}

/// What a name binds.
#[tactic(auto, using(js_tree::proofs::Equations::tree_rules))]
pub(crate) fn bound(name: Name, place: Loc) -> Pattern
    ensures { plain_pattern result ≡ makes.bound name place }
{
    Pattern {
        loc: Some(place),
        node: PatternNode::BindingIdentifier(name),
    }
}
