ghost use Rattle.std.specs.Prelude.{◌≡◌};
ghost use Rattle.js_build.specs.Measures.{expr_height, exprs_height, joined_height, key_height, stmt_height, stmts_height, ends_at, has_bare_in};

use items::{Boxed, Items};
use js_tree::{Expr, PropertyKey, Stmt};

/// An expression that is read, in the box in which a node around it holds it, and what the reader asks of it. Each is known
/// without a walk through the tree.
#[derive(Drop)]
pub struct Operand {
    /// The expression.
    pub tree: Boxed<Expr>,
    /// How tightly it binds (ECMA-262, 13).
    pub level: u8,
    /// How tightly the operand binds with which it ends.
    pub last_level: u8,
    /// Whether it has an `in` that no brackets enclose (14.7.4).
    pub bare_in: bool,
    /// How high it is.
    pub height: u64,
    ghost last_exact: { last_level ≡ ends_at tree },
    ghost bare_exact: { bare_in ≡ has_bare_in tree },
    ghost height_exact: { height ≡ expr_height tree },
}

/// A statement that is read, in such a box, and its height.
#[derive(Drop)]
pub struct Body {
    /// The statement.
    pub tree: Boxed<Stmt>,
    /// How high it is.
    pub height: u64,
    ghost height_exact: { height ≡ stmt_height tree },
}

/// Statements that are read, and the height of the highest.
#[derive(Drop)]
pub struct Statements {
    /// The statements.
    pub items: Items<Stmt>,
    /// How high the highest is.
    pub height: u64,
    ghost height_exact: { height ≡ stmts_height items },
}

/// Arguments or items that are read, and the height of the highest.
#[derive(Drop)]
pub struct List {
    /// The expressions.
    pub items: Items<Expr>,
    /// How high the highest is.
    pub height: u64,
    /// How high they are with a comma between every two.
    pub joined: u64,
    ghost height_exact: { height ≡ exprs_height items },
    ghost joined_exact: { joined ≡ joined_height items },
}

/// The key of a property, and its height.
#[derive(Drop)]
pub struct Key {
    /// The key.
    pub tree: PropertyKey,
    /// How high it is: 0 where it isn't computed.
    pub height: u64,
    ghost height_exact: { height ≡ key_height tree },
}
