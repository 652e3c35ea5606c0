//! What the comments of a file take out of what coverage counts, and where the parts of a tree stand.
#![tactic(auto)]

mod hints;
mod left;
mod pattern;
mod places;
mod table;

pub use hints::{hint_of, ignores_file};
pub use js_tree::Hint;
pub use left::Left;
pub use places::{
    place_as_written, place_of_arm, place_of_body, place_of_case, place_of_concise,
    place_of_declarator, place_of_expr, place_of_param, place_of_property, place_of_stmt,
};
pub use table::Hints;
