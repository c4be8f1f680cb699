//! The search for one pair more: the kept assignment grows by one, or a closed set shows that it can't.
#![tactic(auto)]

/// From which meters a search begins: all live ones without a pair, or one.
#[derive(Clone, Copy)]
pub enum Sources {
    All,
    One(u32),
}

/// What a search found: one pair more, for this meter, or a closed set.
#[derive(Clone, Copy)]
pub enum Found {
    Grown(u32),
    Closed,
}

/// How pairs were made more: by so many searches, the last of which found a closed set where `closed` is true.
#[derive(Clone, Copy)]
pub struct Lengthened {
    pub searches: u32,
    pub closed: bool,
}

mod back;
mod begin;
mod changed;
mod exchange;
mod find;
mod flags;
mod free;
pub mod laws;
mod like;
mod loss;
mod memory;
mod near;
mod noted;
mod ordered;
mod over;
mod pass;
mod progress;
mod queue;
mod regrown;
mod repeated;
mod scratch;
mod setting;
mod sides;
mod stars;
mod tops;
mod trail;
mod visit;
mod walk;
mod work;

pub use changed::search_by;
pub use exchange::search;
pub use loss::{lose, regain};
pub use memory::NoMemory;
pub use ordered::close_in_order;
pub use over::Over;
pub use regrown::{close, fill, regrow};
pub use repeated::{lengthen, lengthen_from};
pub use work::Work;
