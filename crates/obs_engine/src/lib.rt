//! All that the program does, over any files, input and output.
#![tactic(auto)]

mod ask_answers;
mod blocks;
mod command;
mod input;
mod judged;
pub mod laws;
mod line_answers;
mod pair_reply;
mod print_asks;
mod print_claims;
mod print_outages;
mod program;
mod refused;
mod serving;
mod station_reply;
mod stays;
mod studies;
mod summary;
mod tasks;
mod topology;
mod trial;
mod verify;

pub use obs_files::{Limits, Status};
pub use obs_notice::Summary;
pub use program::{run, run_with_summary, run_within};
pub use serving::serve;
pub use stays::{answer_one, begin_session, begin_session_within};
