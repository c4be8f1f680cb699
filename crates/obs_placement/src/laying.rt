// The layers of a plan, as they are laid out.
ghost use Rattle.std.specs.Prelude.{◌≡◌, ℕ, ◌<◌, ◌≤◌, ◌^◌, ◌++◌, ◌∷◌, [], List, filter, length, slice_index, slice_index_or, take, IfOk};
ghost use Rattle.std.specs.List.{range_with_len};
ghost use Rattle.obs_placement.specs.inner.Choosing.{AreFirstBelow, Laying};
ghost use Rattle.obs_placement.specs.inner.Layers.{is_added};
ghost use Rattle.obs_placement.specs.inner.Order.{IsOrder, item_at};
ghost use Rattle.obs_placement.specs.inner.Taking.{since_at};

use crate::memory::NoMemory;
use crate::order::put_known_in_order;
use crate::plans::Layer;
use std::alloc::Global;
use std::marker::Model;

const NO_LAYER: Layer = Layer {
    from: 0,
    to: 0,
    rank: 0,
    outside: 0,
    upto: 0,
};

/// Copies the items whose price in the order is below `to` behind those that are listed. Says how many are listed then.
fn copy_below(keys: &[(u64, u32)], to: u64, inside: &mut [u32], listed: usize) -> usize
    requires room { length keys.now ≤ length inside.old }
    requires listed { listed ≤ length keys.now }
    ensures from { listed ≤ result }
    ensures upto { result ≤ length keys.now }
    ensures below { (k : ℕ) → listed ≤ k → k < result → (slice_index_or keys.now k (0, 0)).0 < to }
    ensures next { result < length keys.now → to ≤ (slice_index_or keys.now result (0, 0)).0 }
    ensures copied { (k : ℕ) → listed ≤ k → k < result → slice_index inside.new k ≡ item_at keys.now k }
    ensures kept { take listed inside.new ≡ take listed inside.old }
{
    let mut upto = listed;
    while upto < keys.len() && keys[upto].0 < to {
        inside[upto] = keys[upto].1;
        upto += 1;
    }
    upto
}

/// Lists the items of the next layer, which goes to the price `to`, rising, behind those that are listed. Says how many are
/// listed then.
fn list_next(keys: &[(u64, u32)], to: u64, inside: &mut [u32], listed: usize) -> usize
    requires room { length keys.now ≤ length inside.old }
    requires listed { listed ≤ length keys.now }
    ensures upto { result ≤ length keys.now }
    ensures listed { (since : List ℕ) (from : ℕ) → IsOrder (since_at since) (length since) keys.now
        → AreFirstBelow since keys.now listed from → from ≤ to → take result inside.new
        ≡ take listed inside.old ++ filter (is_added since from to) (range_with_len 0 (length since)) }
    ensures below { (since : List ℕ) (from : ℕ) → IsOrder (since_at since) (length since) keys.now
        → AreFirstBelow since keys.now listed from → from ≤ to → AreFirstBelow since keys.now result to }
{
    let upto = copy_below(keys, to, inside, listed);
    inside[listed..upto].sort_unstable();
    upto
}

/// The layers that are laid out, and the items that they list.
pub struct Laying {
    // how many layers there are, how many items they list together, and how many items there are
    count: usize,
    upto: usize,
    items: usize,
    // the layers, at the front
    layers: Vec<Layer>,
    // the items that the layers list, one layer after another, at the front
    inside: Vec<u32>,
    // the price from which on each item isn't critical, with its number: the order in which they are listed, at the front
    keys: Vec<(u64, u32)>,
}

impl Model for Laying {
    ghost use Rattle.std.specs.Prelude.{◌≡◌, ◌≤◌, length, take};
    ghost use Rattle.obs_placement.specs.inner.Choosing.{Laying};

    ghost Value = { Laying };

    ghost view = { λ l. record {
      layers = take l.count l.layers.items;
      inside = take l.upto l.inside.items;
      keys = take l.items l.keys.items;
      room = length l.inside.items;
    } };

    ghost invariant = { λ l. record {
      count : l.count ≤ length l.layers.items;
      upto : l.upto ≤ l.items;
      items : l.items ≤ length l.inside.items;
      layers : length l.layers.items ≡ length l.inside.items;
      keys : length l.keys.items ≡ length l.inside.items;
    } };
}

// Written out: so a caller's proof sees one call, and not the drop of each field.
impl Drop for Laying {
    fn drop(self) {
        let Laying {
            count: _,
            upto: _,
            items: _,
            layers: _,
            inside: _,
            keys: _,
        } = self;
    }
}

impl Laying {
    /// No layer, with room for so many layers, and for so many items that they list together.
    pub fn make(alloc: Global, most: u32) -> Result<Laying, NoMemory>
        ensures empty { IfOk result (λ l. l ≡ record { layers = []; inside = []; keys = []; room = most }) }
    {
        let Ok(layers) = vec![in alloc; NO_LAYER; most as usize] else {
            return Err(NoMemory);
        };
        let Ok(inside) = vec![in alloc; 0; most as usize] else {
            return Err(NoMemory);
        };
        let Ok(keys) = vec![in alloc; (0, 0); most as usize] else {
            return Err(NoMemory);
        };
        Ok(Laying {
            count: 0,
            upto: 0,
            items: 0,
            layers,
            inside,
            keys,
        })
    }

    /// The layers.
    pub fn layers(&self) -> &[Layer]
        ensures layers { result.now ≡ self.now.layers }
    {
        &self.layers[..self.count]
    }

    /// The items that they list, one layer after another.
    pub fn inside(&self) -> &[u32]
        ensures inside { result.now ≡ self.now.inside }
    {
        &self.inside[..self.upto]
    }

    /// Leaves no layer, and puts the items in order by the prices from which on they aren't critical.
    pub fn begin(&mut self, since: &[u64])
        requires few { length since.now < 2 ^ 32 }
        requires room { length since.now ≤ self.old.room }
        ensures begun { self.new ≡ record self.old { layers = []; inside = []; keys = self.new.keys } }
        ensures order { IsOrder (since_at since.now) (length since.now) self.new.keys }
    {
        self.count = 0;
        self.upto = 0;
        self.items = since.len();
        put_known_in_order(since, &mut self.keys);
    }

    /// Lists the items of the next layer, which goes to the price `to`, rising, after the others.
    pub fn list_next(&mut self, to: u64)
        ensures listed { (since : List ℕ) (from : ℕ) → IsOrder (since_at since) (length since) self.old.keys
            → AreFirstBelow since self.old.keys (length self.old.inside) from → from ≤ to
            → self.new ≡ record self.old {
              inside
                  = self.old.inside ++ filter (is_added since from to) (range_with_len 0 (length since));
            } }
        ensures below { (since : List ℕ) (from : ℕ) → IsOrder (since_at since) (length since) self.old.keys
            → AreFirstBelow since self.old.keys (length self.old.inside) from → from ≤ to
            → AreFirstBelow since self.new.keys (length self.new.inside) to }
    {
        self.upto = list_next(&self.keys[..self.items], to, &mut self.inside, self.upto);
    }

    /// Adds a layer after the others.
    pub fn add(&mut self, layer: Layer)
        requires room { length self.old.layers < self.old.room }
        ensures added { self.new ≡ record self.old { layers = self.old.layers ++ layer ∷ [] } }
    {
        self.layers[self.count] = layer;
        self.count += 1;
    }
}
