//! The tables of the grammar, as code: the rows of slots, which production a token begins or goes on with, what the next token
//! chooses, and where an expression and a statement end.
#![tactic(auto)]

mod choices;
mod ends;
mod forms;
mod functions;
mod heads;
mod levels;
mod properties;
mod rows;
mod sign;
mod slot;
mod statements;

pub use choices::branch;
pub use ends::{bans, closes, continues, fits, goes_on, stops};
pub use forms::{join, prefix, statement};
pub use levels::{strength, wants};
pub use rows::rest;
pub use sign::{is_mark, is_sign, is_word};
pub use slot::{Branch, Marker, ProductionWord, Sign, Slot, Wanted};
