//! Source texts: their UTF-8, their places and positions, and the words and punctuators in them.
#![tactic(auto)]

mod cursor;
mod goal;
mod limits;
mod punctuator;
mod text;
mod word;

pub use cursor::Cursor;
pub use goal::Goal;
pub use limits::Limits;
pub use punctuator::Punctuator;
pub use text::{Text, TextFault};
pub use word::{RESERVED_WORDS, ReservedWord, reserved_word};
