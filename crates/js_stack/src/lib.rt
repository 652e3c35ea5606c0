//! The reader's stack and its turn: the machine of the grammar, as code.
#![tactic(auto)]

mod goal;
mod groups;
mod have;
mod leave;
mod left;
mod objects;
mod outside;
mod parameters;
mod parts;
mod pass;
mod place;
mod production;
mod reader;
mod refused;
mod sight;
mod stack;
mod start;
mod take;
mod turn;

pub use reader::Reader;
pub use refused::Refusal;
pub use sight::Sight;
