// The vertices whose rows of the branch table were joined already, while a rank is taken.
ghost use Rattle.std.specs.Prelude.{◌≡◌, ◌<◌, ◌≤◌, ◌⊎◌, [], ℕ, true, IfOk, length};
ghost use Rattle.obs_case.specs.Tables.{IsValid};
ghost use Rattle.obs_graph.specs.Positions.{branches_at};
ghost use Rattle.obs_matroid.specs.Lists.{In};
ghost use Rattle.obs_network.specs.Network.{case_rows, network_of};
ghost use Rattle.obs_cert.specs.inner.Contractions.{FitsIn, IsContracted};
ghost use Rattle.obs_cert.specs.inner.Hubs.{Hubs};
ghost use Rattle.obs_cert.specs.Scopes.{item_touches};

use crate::contraction::Contraction;
use crate::memory::NoMemory;
use crate::stars::star_of;
use obs_network::Present;
use std::alloc::Global;
use std::marker::Model;

// Whether a vertex stands in the list, at the place that is noted for it.
fn stands(list: &[u32], places: &[u32], v: u32) -> bool
    requires v { v < length places.now }
    ensures listed { result ≡ true → In v list.now }
{
    let place = places[v as usize] as usize;
    if place >= list.len() {
        return false;
    }
    list[place] == v
}

/// A list of vertices. Each of them has its place there, so it is soon told whether one is listed, and the list is
/// emptied at once.
pub(crate) struct Hubs {
    // how many vertices are listed
    count: usize,
    // the vertices, at the front
    list: Vec<u32>,
    // the place of each vertex that is listed; of another vertex any number
    places: Vec<u32>,
}

impl Model for Hubs {
    ghost use Rattle.std.specs.Prelude.{◌≡◌, ◌≤◌, ◌<◌, ◌^◌, length, take};
    ghost use Rattle.obs_cert.specs.inner.Hubs.{Hubs};

    ghost Value = { Hubs };

    ghost view = { λ h. record { list = take h.count h.list.items; room = length h.places.items } };

    ghost invariant = { λ h. record {
      count : h.count ≤ length h.list.items;
      few : length h.list.items < 2 ^ 32;
    } };
}

// Written out: so a caller's proof sees one call, and not the drop of each field.
impl Drop for Hubs {
    fn drop(self) {
        let Hubs {
            count: _,
            list: _,
            places: _,
        } = self;
    }
}

impl Hubs {
    /// No vertex, with room for so many.
    pub(crate) fn make(alloc: Global, vertices: u32) -> Result<Hubs, NoMemory>
        ensures empty { IfOk result (λ h. h ≡ record { list = []; room = vertices }) }
    {
        let Ok(list) = vec![in alloc; 0; vertices as usize] else {
            return Err(NoMemory);
        };
        let Ok(places) = vec![in alloc; 0; vertices as usize] else {
            return Err(NoMemory);
        };
        Ok(Hubs {
            count: 0,
            list,
            places,
        })
    }

    // Leaves no vertex.
    fn clear(&mut self)
        ensures empty { self.new ≡ record self.old { list = [] } }
    {
        self.count = 0;
    }

    /// Leaves the vertex whose rows are contracted, if there is one.
    pub(crate) fn begin(&mut self, contraction: Contraction<'_>)
        requires fits { FitsIn self.old.room contraction }
        ensures contracted { (u : ℕ) → In u self.new.list → IsContracted contraction.entry u }
        ensures room { self.new.room ≡ self.old.room }
    {
        self.clear();
        if let Contraction::Star(v, _) = contraction {
            self.add(v);
        }
    }

    // Whether a vertex is listed.
    fn has(&self, v: u32) -> bool
        requires v { v < self.now.room }
        ensures listed { result ≡ true → In v self.now.list }
    {
        stands(&self.list[..self.count], &self.places, v)
    }

    // Lists a vertex, while there is room.
    fn add(&mut self, v: u32)
        requires v { v < self.old.room }
        ensures added { (u : ℕ) → In u self.new.list → In u self.old.list ⊎ (u ≡ v) }
        ensures room { self.new.room ≡ self.old.room }
    {
        if self.count < self.list.len() {
            self.places[v as usize] = self.count as u32;
            self.list[self.count] = v;
            self.count += 1;
        }
    }
}

/// Whether an item touches the rows at a vertex that is listed. Else that vertex is listed, if the item touches the rows at
/// one.
pub(crate) fn is_repeated(present: &Present<'_>, m: u32, hubs: &mut Hubs) -> bool
    requires room { (network_of present.now).graph.vertices ≤ hubs.old.room }
    ensures repeated { result ≡ true →
        (v : ℕ) × (item_touches present.now m ≡ branches_at (case_rows present.now) v) × In v hubs.old.list }
    ensures listed { (u : ℕ) → In u hubs.new.list →
        In u hubs.old.list ⊎ (item_touches present.now m ≡ branches_at (case_rows present.now) u) }
    ensures room { hubs.new.room ≡ hubs.old.room }
    ensures valid { IsValid present.now }
{
    let _ = present.case();
    let Some(hub) = star_of(present, m) else {
        return false;
    };
    if hubs.has(hub.vertex) {
        return true;
    }
    hubs.add(hub.vertex);
    false
}
