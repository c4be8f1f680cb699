// Classes of vertices that met branches join. What was met is never walked again: each class has one top, and the tops
// lead there by ever fewer steps.
ghost use Rattle.std.specs.Prelude.{◌≡◌, ◌≢◌, ◌<◌, ◌≤◌, ◌^◌, IfOk, length, slice_index, slice_set};
ghost use Rattle.obs_exchange.specs.inner.Blank.{AreLedFrom, AreNumbers};
ghost use Rattle.obs_exchange.specs.inner.Classes.{AreTops, Rises, SameMet};

use crate::memory::NoMemory;
use crate::setting::Setting;
use std::alloc::Global;
use std::marker::Model;

/// Where more than one of so many vertices were led on, all are set back by a copy.
const FEW: usize = 16;

/// By vertex where it leads to, towards the top of its class. The vertices that lead elsewhere than to themselves are
/// listed, as far as there is room, so that a few are set back one by one.
pub struct Tops {
    tops: Vec<u32>,
    // the numbers of the vertices
    numbers: Vec<u32>,
    // the vertices that were led on, how many there are, and whether others were too
    list: Vec<u32>,
    count: usize,
    more: bool,
}

impl Model for Tops {
    ghost use Rattle.std.specs.Prelude.{◌≡◌, ◌≤◌, ℕ, false, List, length};
    ghost use Rattle.obs_exchange.specs.inner.Blank.{AreLedFrom, AreNumbers};

    ghost Value = { List ℕ };

    ghost view = { λ t. t.tops.items };

    ghost invariant = { λ t. record {
      same_length : length t.numbers.items ≡ length t.tops.items;
      numbers : AreNumbers t.numbers.items;
      count : t.count ≤ length t.list.items;
      listed : t.more ≡ false → AreLedFrom t.tops.items t.list.items 0 t.count;
    } };
}

// Written out: so a caller's proof sees one call, and not the drop of each field.
impl Drop for Tops {
    fn drop(self) {
        let Tops {
            tops: _,
            numbers: _,
            list: _,
            count: _,
            more: _,
        } = self;
    }
}

/// Writes its number at each place.
pub fn number(numbers: &mut [u32])
    requires fits { length numbers.old < 2 ^ 32 }
    ensures length { length numbers.new ≡ length numbers.old }
    ensures own { AreNumbers numbers.new }
{
    for v in 0..numbers.len() {
        numbers[v] = v as u32;
    }
}

/// Leads the vertices that are the first entries of the list to themselves. No others lead elsewhere.
fn lead_back(tops: &mut [u32], list: &[u32], count: usize)
    requires count { count ≤ length list.now }
    requires listed { AreLedFrom tops.old list.now 0 count }
    ensures length { length tops.new ≡ length tops.old }
    ensures own { AreNumbers tops.new }
{
    for i in 0..count {
        let v = list[i];
        if (v as usize) < tops.len() {
            tops[v as usize] = v;
        }
    }
}

impl Tops {
    /// So many vertices, each of which is its own top, with room to list one of `FEW`.
    pub fn make(alloc: Global, most_vertices: u32) -> Result<Tops, NoMemory>
        ensures length { IfOk result (λ t. length t ≡ most_vertices) }
    {
        let vertices = most_vertices as usize;
        let Ok(tops) = vec![in alloc; 0; vertices] else {
            return Err(NoMemory);
        };
        let Ok(mut numbers) = vec![in alloc; 0; vertices] else {
            return Err(NoMemory);
        };
        number(&mut numbers);
        let Ok(list) = vec![in alloc; 0; vertices / FEW] else {
            return Err(NoMemory);
        };
        Ok(Tops {
            tops,
            numbers,
            list,
            count: 0,
            more: true,
        })
    }

    /// How many vertices there are.
    pub fn len(&self) -> usize
        ensures len { result ≡ length self.now }
    {
        self.tops.len()
    }

    /// Where the vertex leads to.
    pub fn at(&self, v: u32) -> u32
        requires v { v < length self.now }
        ensures top { result ≡ slice_index self.now v }
    {
        self.tops[v as usize]
    }

    /// Leads a vertex on.
    pub fn lead(&mut self, v: u32, to: u32)
        requires v { v < length self.old }
        ensures led { self.new ≡ slice_set self.old v to }
    {
        self.tops[v as usize] = to;
        if self.count < self.list.len() {
            self.list[self.count] = v;
            self.count += 1;
        } else {
            self.more = true;
        }
    }

    /// Leads a vertex further that was led on before.
    pub fn lift(&mut self, v: u32, to: u32)
        requires v { v < length self.old }
        requires led { slice_index self.old v ≢ v }
        ensures led { self.new ≡ slice_set self.old v to }
    {
        self.tops[v as usize] = to;
    }

    /// No branch is met: each vertex is its own top. To copy the numbers of all vertices costs less than to count.
    pub fn separate(&mut self)
        ensures length { length self.new ≡ length self.old }
        ensures own { AreNumbers self.new }
    {
        if self.more {
            self.tops.copy_from_slice(&self.numbers);
        } else {
            lead_back(&mut self.tops, &self.list, self.count);
        }
        self.count = 0;
        self.more = false;
    }
}

/// The top of the class of v. Each vertex on the way there is led to one that is higher.
pub fn top_of(over: &Setting<'_>, tops: &mut Tops, v: u32) -> u32
    requires v { v < over.now.graph.vertices }
    requires tops { AreTops over.now tops.old }
    ensures tops { AreTops over.now tops.new }
    ensures same { SameMet over.now tops.old tops.new }
    ensures low { result < over.now.graph.vertices }
    ensures top { slice_index tops.new result ≡ result }
    ensures rises { Rises over.now tops.new v result }
{
    let _ = over;
    let mut x = v;
    while tops.at(x) != x {
        let next = tops.at(x);
        let up = tops.at(next);
        tops.lift(x, up);
        x = up;
    }
    x
}
