//! What the counts of a coverage map come to: its lines, how many of everything ran, percentages,
//! and which of them are below a threshold.
#![tactic(auto)]

mod line_counts;
mod shortfall;
mod summarize;
mod sums;
mod totals;

pub use line_counts::lines;
pub use shortfall::{Metric, Shortfall, Thresholds, hundredths, shortfalls};
pub use summarize::summary;
pub use sums::{FileSums, Summary, Sums, file_sums};
pub use totals::Totals;
