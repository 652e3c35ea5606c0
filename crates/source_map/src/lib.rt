//! Source maps (ECMA-426, version 3): read, written, traced and composed.
#![tactic(auto)]

mod composed;
mod digit;
mod fault;
mod fit;
mod kept;
mod laws;
mod line;
mod map;
mod number;
mod place;
mod reader;
mod rows;
mod search;
mod segment;
mod sort;
mod state;
mod steps;
mod written;

pub use fault::MapFault;
pub use laws::{keeping, reading};
pub use map::{InputMap, SourceMap, compose, kept_text, look_at, read, write};
pub use place::{Origin, Parts, Segment, Traced};
pub use rows::worked_maps;
pub use steps::Steps;
