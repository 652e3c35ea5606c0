ghost use Rattle.std.specs.Prelude.{◌≡◌};
ghost use Rattle.js_build.specs.Heights.{case_height, cases_height, declarator_height, declarators_height, part_height, parts_height};

use items::Items;
use js_tree::{Case, Declarator, TemplatePart};

/// A part of a template, and its height.
#[derive(Drop)]
pub(crate) struct MadePart {
    pub(crate) tree: TemplatePart,
    pub(crate) height: u64,
    ghost height_exact: { height ≡ part_height tree },
}

/// Parts of a template, and the height of the highest.
#[derive(Drop)]
pub(crate) struct MadeParts {
    pub(crate) items: Items<TemplatePart>,
    pub(crate) height: u64,
    ghost height_exact: { height ≡ parts_height items },
}

/// A clause of a `switch`, and its height.
#[derive(Drop)]
pub(crate) struct MadeCase {
    pub(crate) tree: Case,
    pub(crate) height: u64,
    ghost height_exact: { height ≡ case_height tree },
}

/// Clauses of a `switch`, and the height of the highest.
#[derive(Drop)]
pub(crate) struct MadeCases {
    pub(crate) items: Items<Case>,
    pub(crate) height: u64,
    ghost height_exact: { height ≡ cases_height items },
}

/// A declarator, and its height.
#[derive(Drop)]
pub(crate) struct MadeDeclarator {
    pub(crate) tree: Declarator,
    pub(crate) height: u64,
    ghost height_exact: { height ≡ declarator_height tree },
}

/// Declarators, and the height of the highest.
#[derive(Drop)]
pub(crate) struct MadeDeclarators {
    pub(crate) items: Items<Declarator>,
    pub(crate) height: u64,
    ghost height_exact: { height ≡ declarators_height items },
}
