// The meters that may be sources, where they are noted: a pass over all meters leaves out the others.
ghost use Rattle.std.specs.Prelude.{◌≡◌, ◌+◌, ◌*◌, ◌/◌, ◌<◌, ◌≤◌, ℕ, true, false, IfOk, length, replicate, slice_set};
ghost use Rattle.obs_meter.specs.inner.Touches.{AreInRange};
ghost use Rattle.obs_assign.specs.inner.Assignment.{StandsOver, has_flag};
ghost use Rattle.obs_exchange.specs.declared.Sources.TheVariants.{All};
ghost use Rattle.obs_exchange.specs.inner.Noting.{AreBlocks, AreNoted, HasFlags, Noted, is_noted};
ghost use Rattle.obs_exchange.specs.inner.Setting.{end_of, first_of};

use crate::Sources;
use crate::memory::NoMemory;
use crate::setting::Setting;
use obs_assign::Assignment;
use obs_graph::Graph;
use obs_meter::Meters;
use std::alloc::Global;
use std::marker::Model;

/// How many meters a block has.
const BLOCK: usize = 64;

/// Meters that are noted: all, or those whose flag is set.
pub(crate) struct Noted {
    all: bool,
    flags: Vec<bool>,
    // whether the block has a meter whose flag is set
    blocks: Vec<bool>,
}

impl Model for Noted {
    ghost use Rattle.obs_exchange.specs.inner.Noting.{AreBlocks, Noted};

    ghost Value = { Noted };

    ghost view = { λ n. record { all = n.all; flags = n.flags.items } };

    ghost invariant = { λ n. AreBlocks n.flags.items n.blocks.items };
}

// Written out: so a caller's proof sees one call, and not the drop of each field.
impl Drop for Noted {
    fn drop(self) {
        let Noted {
            all: _,
            flags: _,
            blocks: _,
        } = self;
    }
}

/// Whether a flag is set from one place on, below a limit.
fn is_any(flags: &[bool], first: usize, limit: usize) -> bool
    requires limit { limit ≤ length flags.now }
    ensures none { result ≡ false → (k : ℕ) → first ≤ k → k < limit → has_flag flags.now k ≡ false }
{
    for k in first..limit {
        if flags[k] {
            return true;
        }
    }
    false
}

/// Sets or takes back a flag, and that of its block.
fn put(flags: &mut [bool], blocks: &mut [bool], m: u32, set: bool)
    requires m { m < length flags.old }
    requires blocks { AreBlocks flags.old blocks.old }
    ensures flags { flags.new ≡ slice_set flags.old m set }
    ensures blocks { AreBlocks flags.new blocks.new }
{
    flags[m as usize] = set;
    let block = m as usize / BLOCK;
    let first = block * BLOCK;
    let limit = flags.len().min(first + BLOCK);
    blocks[block] = is_any(flags, first, limit);
}

/// The first place from one on whose flag is set, or one at or above the limit. Blocks without a flag are passed over.
fn next_flag(flags: &[bool], blocks: &[bool], first: u32, limit: u32) -> u32
    requires limit { limit ≤ length flags.now }
    requires blocks { AreBlocks flags.now blocks.now }
    ensures first { first ≤ result }
    ensures passed { (k : ℕ) → first ≤ k → k < result → k < limit → has_flag flags.now k ≡ false }
{
    let mut m = first as usize;
    while m < limit as usize {
        if blocks[m / BLOCK] {
            if flags[m] {
                return m as u32;
            }
            m += 1;
        } else {
            m = (m / BLOCK + 1) * BLOCK;
        }
    }
    first.max(limit)
}

/// Sets the flags of the sources, and takes those of the other meters back.
fn put_sources(over: &Setting<'_>, flags: &mut [bool], blocks: &mut [bool])
    requires first { first_of over.now.sources ≡ 0 }
    requires end { end_of over.now.sources (length over.now.touches) ≡ length over.now.touches }
    requires room { length over.now.touches ≤ length flags.old }
    requires blocks { AreBlocks flags.old blocks.old }
    ensures sources { HasFlags over.now flags.new (length over.now.touches) }
    ensures blocks { AreBlocks flags.new blocks.new }
{
    for m in 0..over.meters() {
        let source = over.is_source(m);
        put(flags, blocks, m, source);
    }
}

impl Noted {
    /// Notes all of so many meters.
    pub(crate) fn make(alloc: Global, most_meters: u32) -> Result<Noted, NoMemory>
        ensures made { IfOk result (λ n. n ≡ record { all = true; flags = replicate most_meters false }) }
    {
        let most = most_meters as usize;
        Ok(Noted {
            all: true,
            flags: vec![in alloc; false; most]?,
            blocks: vec![in alloc; false; most / BLOCK + 1]?,
        })
    }

    /// Notes all meters.
    pub(crate) fn put_all(&mut self)
        ensures all { self.new ≡ record self.old { all = true } }
    {
        self.all = true;
    }

    /// Notes a meter, or notes it no more, where not all are noted.
    pub(crate) fn put(&mut self, m: u32, noted: bool)
        requires m { m < length self.old.flags }
        ensures flags { self.new ≡ record self.old { flags = slice_set self.old.flags m noted } }
    {
        put(&mut self.flags, &mut self.blocks, m, noted);
    }

    /// Notes the live meters without a pair.
    pub(crate) fn put_sources(&mut self, g: &Graph, ms: &Meters, a: &Assignment)
        requires stands { StandsOver a.now g.now ms.now.touches }
        requires in_range { AreInRange g.now ms.now.touches }
        requires room { length ms.now.touches ≤ length self.old.flags }
        ensures noted { AreNoted g.now.ends ms.now.touches All a.now self.new }
        ensures length { length self.new.flags ≡ length self.old.flags }
    {
        self.all = false;
        let over = Setting::new(g, ms, a, Sources::All, g.vertices() as usize);
        put_sources(&over, &mut self.flags, &mut self.blocks);
    }

    /// The first noted meter from one on, or one at or above the limit.
    pub(crate) fn next(&self, first: u32, limit: u32) -> u32
        requires limit { limit ≤ length self.now.flags }
        ensures first { first ≤ result }
        ensures passed { (k : ℕ) → first ≤ k → k < result → k < limit → is_noted self.now k ≡ false }
    {
        if self.all {
            return first;
        }
        next_flag(&self.flags, &self.blocks, first, limit)
    }
}
