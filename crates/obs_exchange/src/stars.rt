// What a search knows of the branches at each vertex.
ghost use Rattle.std.specs.Prelude.{◌≡◌, ◌<◌, IfOk, length, replicate, slice_index_or, slice_set};

use crate::flags::Flags;
use crate::memory::NoMemory;
use std::alloc::Global;
use std::marker::Model;

/// By vertex how many of the first branches at it were walked, and how many were tried in vain. A contract sees the
/// former: nothing rests on the latter.
pub struct Stars {
    // whether branches at the vertex were walked, and how many of the first where that is so
    walked: Flags,
    fronts: Vec<u32>,
    tried: Vec<u32>,
    // by vertex the round in which it was tried, and the number of this round
    rounds: Vec<u32>,
    round: u32,
}

impl Model for Stars {
    ghost use Rattle.std.specs.Prelude.{◌≡◌, ℕ, List, length};
    ghost use Rattle.obs_exchange.specs.inner.Stars.{fronts_of};

    ghost Value = { List ℕ };

    ghost view = { λ s. fronts_of s.walked s.fronts.items };

    ghost invariant = { λ s.
        (length s.fronts.items ≡ length s.walked) × (length s.tried.items ≡ length s.walked)
        × (length s.rounds.items ≡ length s.walked) };
}

// Written out: so a caller's proof sees one call, and not the drop of each field.
impl Drop for Stars {
    fn drop(self) {
        let Stars {
            walked: _,
            fronts: _,
            tried: _,
            rounds: _,
            round: _,
        } = self;
    }
}

impl Stars {
    /// No flag and no count, for so many vertices.
    pub fn make(alloc: Global, most_vertices: u32) -> Result<Stars, NoMemory>
        ensures made { IfOk result (λ s. s ≡ replicate most_vertices 0) }
    {
        let vertices = most_vertices as usize;
        let Ok(walked) = Flags::make(alloc, most_vertices) else {
            return Err(NoMemory);
        };
        let Ok(fronts) = vec![in alloc; 0; vertices] else {
            return Err(NoMemory);
        };
        let Ok(tried) = vec![in alloc; 0; vertices] else {
            return Err(NoMemory);
        };
        let Ok(rounds) = vec![in alloc; 0; vertices] else {
            return Err(NoMemory);
        };
        Ok(Stars {
            walked,
            fronts,
            tried,
            rounds,
            round: 0,
        })
    }

    /// How many of the first branches at the vertex were walked.
    pub fn walked(&self, v: u32) -> u32
        requires v { v < length self.now }
        ensures walked { result ≡ slice_index_or self.now v 0 }
    {
        if self.walked.at(v) {
            self.fronts[v as usize]
        } else {
            0
        }
    }

    /// Notes that so many of the first branches at the vertex were walked.
    pub fn set_walked(&mut self, v: u32, count: u32)
        requires v { v < length self.old }
        ensures walked { self.new ≡ slice_set self.old v count }
    {
        self.walked.set(v);
        self.fronts[v as usize] = count;
    }

    /// Notes that no branch was walked, and keeps how many were tried in vain.
    pub fn clear(&mut self)
        ensures cleared { self.new ≡ replicate (length self.old) 0 }
    {
        self.walked.clear();
    }

    /// How many of the first branches at the vertex were tried in vain.
    pub fn tried(&self, v: u32) -> u32
        requires v { v < length self.now }
    {
        if self.rounds[v as usize] == self.round {
            self.tried[v as usize]
        } else {
            0
        }
    }

    /// Sets the count of a vertex.
    pub fn set_tried(&mut self, v: u32, count: u32)
        requires v { v < length self.old }
        ensures same { self.new ≡ self.old }
    {
        self.tried[v as usize] = count;
        self.rounds[v as usize] = self.round;
    }

    /// Begins all counts anew, where that is asked for.
    pub fn renew(&mut self, anew: bool)
        ensures same { self.new ≡ self.old }
    {
        if anew {
            self.round = self.round.wrapping_add(1);
        }
    }
}
