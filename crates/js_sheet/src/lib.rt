//! The text of tokens that are put one after another, with its marks, and which parts of a tree stand in parentheses.
#![tactic(auto)]

mod bare;
mod fault;
mod first;
mod left;
mod level;
mod marks;
mod opening;
mod sheet;
mod way;
mod words;

pub use bare::{has_bare_in, stands_in_pair_as_initializer};
pub use fault::PrintFault;
pub use first::{stands_in_pair, stands_in_pair_as_body, stands_in_pair_as_statement};
pub use left::{Left, Sort};
pub use level::{is_looser, left_level, logical_right, right_level};
pub use marks::place_marks;
pub use opening::Opening;
pub use sheet::Sheet;
pub use way::Way;
pub use words::{
    label, own_place, pair_place, pattern, put_assignment_sign, put_binary_sign, put_continue,
    put_debugger, put_for_head, put_function, put_logical_sign, put_unary_sign, put_update_sign,
    put_variable_word, truth,
};
