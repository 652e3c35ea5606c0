ghost use Rattle.std.specs.Prelude.{◌≡◌};
ghost use Rattle.js_build.specs.PropertyHeights.{properties_height, property_height};

use crate::Operand;
use items::Items;
use js_tree::{Loc, Property};

/// What stands after the key of a property.
#[derive(Drop)]
pub(crate) enum Definition {
    /// Nothing: the name is the value's too.
    Shorthand,
    /// A value, and its place.
    Value(Operand, Loc),
    /// The mark of a method, whose parameters and body follow.
    Method,
}

/// A property, and its height.
#[derive(Drop)]
pub(crate) struct MadeProperty {
    pub(crate) tree: Property,
    pub(crate) height: u64,
    ghost height_exact: { height ≡ property_height tree },
}

/// Properties, and the height of the highest.
#[derive(Drop)]
pub(crate) struct MadeProperties {
    pub(crate) items: Items<Property>,
    pub(crate) height: u64,
    ghost height_exact: { height ≡ properties_height items },
}
