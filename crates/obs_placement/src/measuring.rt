// The items of a price: those below it that aren't critical among them, and their bound.
ghost use Rattle.std.specs.Prelude.{◌≡◌, ◌<◌, ℕ, [], length, nat_lt, IfOk};
ghost use Rattle.obs_rankcut.specs.inner.Flags.{marked};
ghost use Rattle.obs_placement.specs.inner.Offer.{AreAllKnown, HasRoomForOffer, IsOffer, price_in};
ghost use Rattle.obs_placement.specs.inner.Choosing.{HasMeasured};
ghost use Rattle.obs_placement.specs.Taking.{is_below};
ghost use Rattle.obs_placement.specs.inner.Taking.{since_at};

use crate::memory::NoMemory;
use crate::offer::Offer;
use crate::order::price_at;
use obs_rankcut::{CutWork, Measured, measure};
use std::alloc::Global;
use std::marker::Model;

/// Marks the items that aren't critical from a price below this one on.
fn mark_known(since: &[u64], to: u64, marks: &mut [bool])
    requires count { length marks.old ≡ length since.now }
    ensures count { length marks.new ≡ length marks.old }
    ensures marks { (m : ℕ) → m < length since.now → marked marks.new m ≡ nat_lt (since_at since.now m) to }
{
    for m in 0..since.len() {
        marks[m] = since[m] < to;
    }
}

/// Marks the items whose price is below this one.
fn mark_below(offer: &Offer<'_>, to: u64, scope: &mut [bool])
    requires offer { IsOffer offer.now }
    requires count { length scope.old ≡ length offer.now.items.now.touches }
    ensures count { length scope.new ≡ length scope.old }
    ensures marks { (m : ℕ) → m < length offer.now.items.now.touches
        → marked scope.new m ≡ is_below (price_in offer.now) to m }
{
    for m in 0..offer.items.count() {
        scope[m as usize] = price_at(offer, m) < to;
    }
}

/// Measures the items below a price that aren't critical among them. The work value then has their list.
fn measure_own(
    offer: &Offer<'_>,
    since: &[u64],
    to: u64,
    marks: &mut [bool],
    scope: &mut [bool],
    cut: &mut CutWork,
) -> Measured
    requires offer { IsOffer offer.now }
    requires known { AreAllKnown offer.now since.now }
    requires room { HasRoomForOffer cut.old.sizes offer.now }
    requires marks { length marks.old ≡ cut.old.sizes.meters }
    requires scope { length scope.old ≡ cut.old.sizes.meters }
    ensures measured { HasMeasured offer.now to cut.new.inside result.rank result.outside }
    ensures same_sizes { cut.new.sizes ≡ cut.old.sizes }
{
    let n = offer.items.count() as usize;
    let marks = &mut marks[..n];
    let scope = &mut scope[..n];
    mark_known(since, to, marks);
    mark_below(offer, to, scope);
    measure(offer.graph, offer.items, marks, scope, cut)
}

/// Room for measuring the items of a price, and the list that was measured last.
pub struct Measuring {
    // which items are measured, and within which scope
    marks: Vec<bool>,
    scope: Vec<bool>,
    // what bounds are measured in
    cut: CutWork,
}

impl Model for Measuring {
    ghost use Rattle.std.specs.Prelude.{◌≡◌, length};
    ghost use Rattle.obs_rankcut.specs.inner.Bounds.{CutWork};

    ghost Value = { CutWork };

    ghost view = { λ m. m.cut };

    ghost invariant = { λ m. record {
      marks : length m.marks.items ≡ m.cut.sizes.meters;
      scope : length m.scope.items ≡ m.cut.sizes.meters;
    } };
}

// Written out: so a caller's proof sees one call, and not the drop of each field.
impl Drop for Measuring {
    fn drop(self) {
        let Measuring {
            marks: _,
            scope: _,
            cut: _,
        } = self;
    }
}

impl Measuring {
    /// Room for so many items, branches and vertices.
    pub fn make(
        alloc: Global,
        most_items: u32,
        most_branches: u32,
        most_vertices: u32,
    ) -> Result<Measuring, NoMemory>
        ensures empty { IfOk result (λ m. m ≡ record {
          inside = [];
          sizes = record { meters = most_items; branches = most_branches; vertices = most_vertices };
        }) }
    {
        let Ok(marks) = vec![in alloc; false; most_items as usize] else {
            return Err(NoMemory);
        };
        let Ok(scope) = vec![in alloc; false; most_items as usize] else {
            return Err(NoMemory);
        };
        let Ok(cut) = CutWork::make(alloc, most_items, most_branches, most_vertices) else {
            return Err(NoMemory);
        };
        Ok(Measuring { marks, scope, cut })
    }

    /// The list that was measured last.
    pub fn inside(&self) -> &[u32]
        ensures inside { result.now ≡ self.now.inside }
    {
        self.cut.inside()
    }

    /// Measures the items below a price that aren't critical among them, and keeps their list.
    pub fn measure(&mut self, offer: &Offer<'_>, since: &[u64], to: u64) -> Measured
        requires offer { IsOffer offer.now }
        requires known { AreAllKnown offer.now since.now }
        requires room { HasRoomForOffer self.old.sizes offer.now }
        ensures measured { HasMeasured offer.now to self.new.inside result.rank result.outside }
        ensures same_sizes { self.new.sizes ≡ self.old.sizes }
    {
        measure_own(
            offer,
            since,
            to,
            &mut self.marks,
            &mut self.scope,
            &mut self.cut,
        )
    }
}
