//! Reports on a coverage map: as JSON, as sums in JSON, as an LCOV tracefile and as a table.
#![tactic(auto)]

mod cell;
mod fault;
mod json_report;
mod lcov_report;
mod missed;
mod percent;
mod piece;
mod put;
mod summary_report;
mod table;

pub use fault::ReportFault;
pub use json_report::{json, json_to};
pub use lcov_report::{lcov, lcov_to};
pub use percent::percent_of;
pub use summary_report::{json_summary, json_summary_to};
pub use table::{text, text_to};
