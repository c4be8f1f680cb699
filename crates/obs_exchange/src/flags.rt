// Flags that are taken back by a list of those that were set.
ghost use Rattle.std.specs.Prelude.{◌≡◌, ◌<◌, ◌≤◌, IfOk, true, false, length, replicate, slice_set, take};
ghost use Rattle.obs_assign.specs.inner.Assignment.{has_flag};
ghost use Rattle.obs_exchange.specs.inner.Blank.{AreListedFrom};

use crate::memory::NoMemory;
use std::alloc::Global;
use std::marker::Model;

/// Where more than one of so many flags were set, they are taken back by a copy.
const FEW: usize = 16;

/// Flags. What was set is listed, as far as there is room, so that a few are taken back one by one.
pub struct Flags {
    flags: Vec<bool>,
    // the places that were set, how many there are, and whether others were set too
    list: Vec<u32>,
    count: usize,
    more: bool,
    // no flag, for as many
    clear: Vec<bool>,
}

impl Model for Flags {
    ghost use Rattle.std.specs.Prelude.{◌≡◌, ◌≤◌, Bool, false, List, length};
    ghost use Rattle.obs_exchange.specs.inner.Blank.{AreClear, AreListedFrom};

    ghost Value = { List Bool };

    ghost view = { λ f. f.flags.items };

    ghost invariant = { λ f. record {
      clear : AreClear (length f.flags.items) f.clear.items;
      same_length : length f.clear.items ≡ length f.flags.items;
      count : f.count ≤ length f.list.items;
      listed : f.more ≡ false → AreListedFrom f.flags.items f.list.items 0 f.count;
    } };
}

// Written out: so a caller's proof sees one call, and not the drop of each field.
impl Drop for Flags {
    fn drop(self) {
        let Flags {
            flags: _,
            list: _,
            count: _,
            more: _,
            clear: _,
        } = self;
    }
}

/// Takes the flags of the first entries of the list back. No others are set.
fn take_back(flags: &mut [bool], list: &[u32], count: usize)
    requires count { count ≤ length list.now }
    requires listed { AreListedFrom flags.old list.now 0 count }
    ensures cleared { flags.new ≡ replicate (length flags.old) false }
{
    for i in 0..count {
        let k = list[i] as usize;
        if k < flags.len() {
            flags[k] = false;
        }
    }
}

impl Flags {
    /// So many flags, of which none is set, with room to list one of `FEW`.
    pub fn make(alloc: Global, most: u32) -> Result<Flags, NoMemory>
        ensures made { IfOk result (λ f. f ≡ replicate most false) }
    {
        let most = most as usize;
        let Ok(flags) = vec![in alloc; false; most] else {
            return Err(NoMemory);
        };
        let Ok(list) = vec![in alloc; 0; most / FEW] else {
            return Err(NoMemory);
        };
        let Ok(clear) = vec![in alloc; false; most] else {
            return Err(NoMemory);
        };
        Ok(Flags {
            flags,
            list,
            count: 0,
            more: false,
            clear,
        })
    }

    /// How many flags there are.
    pub fn len(&self) -> usize
        ensures len { result ≡ length self.now }
    {
        self.flags.len()
    }

    /// Whether the flag is set.
    pub fn at(&self, k: u32) -> bool
        requires k { k < length self.now }
        ensures flag { result ≡ has_flag self.now k }
    {
        self.flags[k as usize]
    }

    /// The first flags.
    pub fn first(&self, count: usize) -> &[bool]
        requires count { count ≤ length self.now }
        ensures first { result.now ≡ take count self.now }
    {
        &self.flags[..count]
    }

    /// All flags.
    pub fn all(&self) -> &[bool] {
        &self.flags
    }

    /// Whether a flag was set since they were taken back.
    pub fn is_any(&self) -> bool {
        self.more || self.count > 0
    }

    /// Sets a flag.
    pub fn set(&mut self, k: u32)
        requires k { k < length self.old }
        ensures set { self.new ≡ slice_set self.old k true }
    {
        self.flags[k as usize] = true;
        if self.count < self.list.len() {
            self.list[self.count] = k;
            self.count += 1;
        } else {
            self.more = true;
        }
    }

    /// Sets all flags.
    pub fn set_all(&mut self)
        ensures length { length self.new ≡ length self.old }
    {
        self.flags.fill(true);
        self.more = true;
    }

    /// Takes one flag back.
    pub fn take_out(&mut self, k: u32)
        ensures length { length self.new ≡ length self.old }
    {
        if let Some(flag) = self.flags.get_mut(k as usize) {
            *flag = false;
        }
        self.more = true;
    }

    /// Takes all flags back, unless they are kept.
    pub fn clear_unless(&mut self, kept: bool) {
        if !kept {
            self.clear();
        }
    }

    /// Takes all flags back.
    pub fn clear(&mut self)
        ensures cleared { self.new ≡ replicate (length self.old) false }
    {
        if self.more {
            self.flags.copy_from_slice(&self.clear);
        } else {
            take_back(&mut self.flags, &self.list, self.count);
        }
        self.count = 0;
        self.more = false;
    }
}
