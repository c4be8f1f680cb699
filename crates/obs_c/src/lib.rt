//! obs for programs in C: one call, `obs_run`, over blocks of bytes that the caller lends, and a session that stays between
//! calls.
#![tactic(auto)]

mod block_words;
mod call;
mod deliver;
mod front;
mod handle;
pub mod laws;
mod lengths;
mod limits;
mod loose;
mod slot;
mod stay;
mod version;

pub use call::{obs_run, obs_run_within};
pub use handle::Handle;
pub use slot::Slot;
pub use stay::{obs_session_begin, obs_session_begin_within, obs_session_end, obs_session_line};
pub use version::obs_version;
