ghost use Rattle.std.specs.Prelude.{◌≡◌, ◌+◌};
ghost use Rattle.js_build.specs.Concise as concise;
ghost use Rattle.js_build.specs.Measures.{body_height, concise_height, function_height, param_height, params_height};

use crate::Operand;
use items::{Boxed, Items};
use js_tree::{ConciseBody, Function, FunctionBody, Loc, Param};

/// What stands after a name that is bound.
#[derive(Drop)]
pub(crate) enum Initializer {
    /// Nothing.
    Without,
    /// An initializer, and its place.
    With(Operand, Loc),
}

/// A parameter, and its height.
#[derive(Drop)]
pub(crate) struct MadeParam {
    pub(crate) tree: Param,
    pub(crate) height: u64,
    ghost height_exact: { height ≡ param_height tree },
}

/// Parameters, and the height of the highest.
#[derive(Drop)]
pub(crate) struct MadeParams {
    pub(crate) items: Items<Param>,
    pub(crate) height: u64,
    ghost height_exact: { height ≡ params_height items },
}

/// A function's body in braces, and its height.
#[derive(Drop)]
pub(crate) struct MadeBody {
    pub(crate) tree: FunctionBody,
    pub(crate) height: u64,
    ghost height_exact: { height ≡ body_height tree },
}

/// A function, and the height of its highest part.
#[derive(Drop)]
pub(crate) struct MadeFunction {
    pub(crate) tree: Boxed<Function>,
    pub(crate) parts: u64,
    ghost height_exact: { function_height tree ≡ parts + 1 },
}

/// An arrow's body, with what an operand says of itself.
#[derive(Drop)]
pub(crate) struct MadeConcise {
    pub(crate) tree: Boxed<ConciseBody>,
    pub(crate) height: u64,
    pub(crate) last_level: u8,
    pub(crate) bare_in: bool,
    ghost height_exact: { height ≡ concise_height tree },
    ghost last_exact: { last_level ≡ concise.ends_at tree },
    ghost bare_exact: { bare_in ≡ concise.has_bare_in tree },
}
