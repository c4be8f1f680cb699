//! The outside: files, a source of input and a sink of output as traits with a written meaning, how
//! they are read and written whole, their forms in memory and over lent
//! blocks, and adapters over the real things.
#![tactic(auto)]

mod blocks;
pub mod laws;
mod memory;
mod outside;
mod real;
mod whole;

pub use blocks::files::BlockFiles;
pub use blocks::source::BlockSource;
pub use memory::entry::Entry;
pub use memory::files::MemFiles;
pub use memory::sink::{MemSink, NoMemory};
pub use memory::source::MemSource;
pub use outside::{Failed, Files, Sink, Source};
pub use real::dir_files::DirFiles;
pub use real::from_read::FromRead;
pub use real::to_write::ToWrite;
pub use whole::{ReadEnd, read_all, write_all};
