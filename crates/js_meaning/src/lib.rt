//! What a program does, as a definition apart from all code that runs: the steps that it is charged for, what it prints, how it
//! ends, and which constructs it enters. Nothing here runs a program; the types are those that a machine speaks of, and each
//! law on the definition is the contract of a small function.
#![tactic(auto)]

mod laws;
mod outcome;
mod program;
mod rows;

pub use laws::{
    charging, composition, forms, marks, more_steps, names, points, shapes, without_counting,
};
pub use outcome::{Completion, End, Outcome, Shown};
pub use program::{Program, ProgramFile};
pub use rows::worked_rows;
