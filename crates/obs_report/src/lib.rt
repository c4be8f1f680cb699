//! The printed text: lines of words, appended to a sink.
#![tactic(auto)]

mod counts;
mod islands;
mod items;
mod line_buffer;
mod lines;
mod meters;
mod names;
mod nodes;
mod placements;
mod totals;
mod trees;
mod words;

pub use counts::{count_energised, print_counts, verdict_word};
pub use islands::print_islands;
pub use line_buffer::LineBuffer;
pub use lines::{print_count, print_fault, print_last_line, print_ok, print_refused};
pub use meters::{print_bound, print_critical};
pub use names::{branch_name, meter_name, node_name};
pub use nodes::print_nodes;
pub use placements::print_placement;
pub use totals::{print_flaw, print_totals, print_trial, print_valid};
pub use trees::print_tree;
pub use words::{print_end, print_number, print_word};
