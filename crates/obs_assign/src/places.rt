// Where branches stand in a list: a hint, on which nothing rests.

use crate::memory::NoMemory;
use std::alloc::Global;

/// By branch a place in a list, at which it stood last.
#[derive(Drop)]
pub struct Places {
    at: Vec<u32>,
}

impl Places {
    /// Room for so many branches.
    pub fn make(alloc: Global, most_branches: u32) -> Result<Places, NoMemory> {
        Ok(Places {
            at: vec![in alloc; 0; most_branches as usize]?,
        })
    }

    /// Notes the place of a branch.
    pub fn note(&mut self, e: u32, place: u32) {
        if let Some(at) = self.at.get_mut(e as usize) {
            *at = place;
        }
    }

    /// The place that is noted for a branch.
    pub fn noted(&self, e: u32) -> usize {
        match self.at.get(e as usize) {
            Some(place) => *place as usize,
            None => 0,
        }
    }
}
