//! What each production of the grammar makes of its parts: the code of `build`. What one token leaves: an expression, or the piece of a production.
#![tactic(auto)]

mod arrows;
mod callables;
mod calls;
mod declarations;
mod fors;
mod functions;
mod growing;
mod heads;
mod jumps;
mod leaves;
mod level;
mod lists;
mod make;
mod names;
mod objects;
mod operand;
mod operators;
mod parentheses;
mod parts;
mod piece;
mod pieces;
mod place;
mod productions;
mod prologue;
mod properties;
mod queue;
mod regular_expressions;
mod shapes;
mod statements;
mod strings;
mod switches;
mod templates;
mod tests;
mod tries;
mod words;

pub use leaves::leaf;
pub use objects::{is_keyword, is_proto, is_proto_string};
pub use operand::{Body, Key, List, Operand, Statements};
pub use piece::Piece;
pub use pieces::piece_of;
pub use productions::build;
pub use prologue::with_directives;
pub use tests::{is_declaration, is_target};
