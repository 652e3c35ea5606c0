//! The built-in functions of the small language that look at no object.
#![tactic(auto)]

mod math;
mod number_text;
mod on_data;
mod parts;
mod print;
mod rows;
mod search;
mod texts;
mod view;

pub use on_data::of_data;
pub use rows::rows_hold;
pub use view::{
    boolean_receiver, clamped, number, number_at, number_at_or, number_at_or_end, number_receiver,
    ranged_number, relative, text, text_at, text_receiver, this_text,
};
