//! Session lines: from bytes to lines, and from a line to a command or its refusal. Nothing here
//! takes memory.
#![tactic(auto)]

mod command;
mod fault;
mod gather;
pub mod laws;
mod read;
mod words;

pub use command::{Ask, Command};
pub use fault::LineFault;
pub use gather::Gather;
pub use read::read_line;
