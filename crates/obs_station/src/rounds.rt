// What is known of the stations while they are settled many at once.
ghost use Rattle.std.specs.Prelude.{◌≡◌, ◌+◌, ◌<◌, ◌≤◌, if◌then◌else◌, ℕ, IfNone, IfOk, IfSome, None, Some, true, length, slice_index, slice_index_or, slice_set, take};
ghost use Rattle.obs_meter.specs.inner.Sizes.{HasRoomFor};
ghost use Rattle.obs_exchange.specs.declared.Sources.TheVariants.{All as AllSources};
ghost use Rattle.obs_exchange.specs.inner.Closed.{IsSource};
ghost use Rattle.obs_station.specs.inner.Going.{AreKnown, HasPlaces, IsAsLarge, NoneVacant};
ghost use Rattle.obs_station.specs.inner.Rounds.{HasLongest, AreRanked, AreReached, IsBackward, allowance};

use crate::draw::draw;
use crate::grouping::Grouping;
use crate::memory::NoMemory;
use crate::reach::Reach;
use crate::shown::shown_rank;
use crate::stations::Stations;
use obs_assign::{Assignment, Steps};
use obs_exchange::{Work, close_in_order};
use std::alloc::Global;
use std::marker::Model;
use std::sync::ledger::Ledger;

/// What is known of the stations, and from where the meters are reached.
pub(crate) struct Rounds {
    // the first and the last place in the order of the stations from which the meter is reached
    firsts: Vec<u32>,
    lasts: Vec<u32>,
    // the order the other way round, or meters that are lost in a round
    list: Vec<u32>,
    // the rank without each station's meters, where it is known
    ranks: Vec<Option<u32>>,
    // how many rounds there were
    round: u32,
}

impl Model for Rounds {
    ghost use Rattle.std.specs.Prelude.{◌≡◌, length};
    ghost use Rattle.obs_station.specs.inner.Rounds.{Rounds};

    ghost Value = { Rounds };

    ghost view = { λ r. record {
      firsts = r.firsts.items;
      lasts = r.lasts.items;
      list = r.list.items;
      ranks = r.ranks.items;
    } };

    ghost invariant = { λ r.
        (length r.lasts.items ≡ length r.firsts.items) × (length r.list.items ≡ length r.firsts.items) };
}

// Written out: so a caller's proof sees one call, and not the drop of each field.
impl Drop for Rounds {
    fn drop(self) {
        let Rounds {
            firsts: _,
            lasts: _,
            list: _,
            ranks: _,
            round: _,
        } = self;
    }
}

// Writes this place for each meter.
fn put_all(places: &mut [u32], place: u32)
    ensures same_length { length places.new ≡ length places.old }
    ensures put { (m : ℕ) → m < length places.old → slice_index places.new m ≡ place }
{
    for m in 0..places.len() {
        places[m] = place;
    }
}

// Knows no rank.
fn forget(ranks: &mut [Option<u32>])
    ensures same_length { length ranks.new ≡ length ranks.old }
    ensures none { (c : ℕ) → slice_index_or ranks.new c None ≡ None }
{
    for c in 0..ranks.len() {
        ranks[c] = None;
    }
}

// Writes an order the other way round.
fn write_back(order: &[u32], list: &mut [u32])
    requires room { length order.now ≤ length list.old }
    ensures back { IsBackward order.now (take (length order.now) list.new) }
    ensures same_length { length list.new ≡ length list.old }
{
    let count = order.len();
    for k in 0..count {
        list[k] = order[count - 1 - k];
    }
}

// Whether the rank without a station isn't known.
fn waits(ranks: &[Option<u32>], c: u32) -> bool
    requires station { c < length ranks.now }
    ensures waits { result ≡ true → slice_index_or ranks.now c None ≡ None }
{
    ranks[c as usize].is_none()
}

// Notes the rank without a station, where it isn't known and shows, and says how many searches the station may take then.
fn settle_one(
    over: &Grouping<'_>,
    a: &Assignment,
    c: u32,
    reach: &Reach<'_>,
    ranks: &mut [Option<u32>],
) -> u32
    requires paired { HasLongest over.now a.now }
    requires reached { AreReached over.now a.now reach.now.firsts.now reach.now.lasts.now reach.now.both }
    requires station { c < over.now.stations.now.buses.count }
    requires ranks { over.now.stations.now.buses.count ≤ length ranks.old }
    requires ranked { AreRanked over.now ranks.old }
    ensures ranked { AreRanked over.now ranks.new }
    ensures saved { allowance over.now.stations.now ranks.old over.now.stations.now.buses.count + result
        ≤ allowance over.now.stations.now ranks.new over.now.stations.now.buses.count }
    ensures same_length { length ranks.new ≡ length ranks.old }
{
    if !waits(ranks, c) {
        return 0;
    }
    let list = over.stations.meters(c);
    match shown_rank(over, a, c, reach) {
        Some(rank) => {
            ranks[c as usize] = Some(rank);
            (list.len() as u32).saturating_add(1)
        }
        None => 0,
    }
}

// Notes the ranks that show, and says how many searches these stations may take.
fn settle(over: &Grouping<'_>, a: &Assignment, reach: &Reach<'_>, ranks: &mut [Option<u32>]) -> u32
    requires paired { HasLongest over.now a.now }
    requires reached { AreReached over.now a.now reach.now.firsts.now reach.now.lasts.now reach.now.both }
    requires ranks { over.now.stations.now.buses.count ≤ length ranks.old }
    requires ranked { AreRanked over.now ranks.old }
    ensures ranked { AreRanked over.now ranks.new }
    ensures saved { allowance over.now.stations.now ranks.old over.now.stations.now.buses.count + result
        ≤ allowance over.now.stations.now ranks.new over.now.stations.now.buses.count }
    ensures same_length { length ranks.new ≡ length ranks.old }
{
    let mut saved: u32 = 0;
    for c in 0..over.stations.count() {
        let more = settle_one(over, a, c, reach, ranks);
        saved = saved.saturating_add(more);
    }
    saved
}

impl Rounds {
    /// Room for so many nodes and meters.
    pub(crate) fn make(alloc: Global, nodes: u32, meters: u32) -> Result<Rounds, NoMemory>
        ensures meters { IfOk result (λ r. length r.firsts ≡ meters) }
        ensures nodes { IfOk result (λ r. length r.ranks ≡ nodes) }
    {
        Ok(Rounds {
            firsts: vec![in alloc; 0; meters as usize]?,
            lasts: vec![in alloc; 0; meters as usize]?,
            list: vec![in alloc; 0; meters as usize]?,
            ranks: vec![in alloc; None; nodes as usize]?,
            round: 0,
        })
    }

    /// Begins: no rank is known, and nothing is reached.
    pub(crate) fn begin(&mut self, all: u32)
        ensures firsts { (m : ℕ) → m < length self.old.firsts → slice_index self.new.firsts m ≡ all }
        ensures lasts { length self.new.lasts ≡ length self.new.firsts }
        ensures ranks { (c : ℕ) → slice_index_or self.new.ranks c None ≡ None }
        ensures as_large { IsAsLarge self.old self.new }
    {
        put_all(&mut self.firsts, all);
        put_all(&mut self.lasts, all);
        forget(&mut self.ranks);
    }

    /// The rank without a station's meters, where it is known.
    pub(crate) fn rank(&self, c: u32) -> Option<u32>
        requires station { c < length self.now.ranks }
        ensures rank { result ≡ slice_index_or self.now.ranks c None }
    {
        self.ranks[c as usize]
    }

    /// Notes the rank without a station's meters.
    pub(crate) fn put(&mut self, c: u32, rank: u32)
        requires station { c < length self.old.ranks }
        ensures put { self.new ≡ record self.old { ranks = slice_set self.old.ranks c (Some rank) } }
    {
        self.ranks[c as usize] = Some(rank);
    }

    /// Reaches the meters from those without a pair, from the first station to the last, and where that is asked for the
    /// other way round too.
    pub(crate) fn reach<L: Ledger>(
        &mut self,
        over: &Grouping<'_>,
        a: &Assignment,
        both: bool,
        exchange: &mut Work,
        steps: &mut Steps<L>,
    )
        requires paired { HasLongest over.now a.now }
        requires room { HasRoomFor exchange.old.sizes over.now.graph.now over.now.meters.now.touches }
        requires meters { length self.old.firsts ≡ length over.now.meters.now.touches }
        ensures reached { AreReached over.now a.now self.new.firsts self.new.lasts both }
        ensures ticks { steps.new ≡ steps.old + (if both then 2 else 1) }
        ensures same_sizes { exchange.new.sizes ≡ exchange.old.sizes }
        ensures same_ranks { self.new.ranks ≡ self.old.ranks }
        ensures same_meters { length self.new.firsts ≡ length self.old.firsts }
    {
        let order = over.stations.members();
        close_in_order(
            over.graph,
            over.meters,
            a,
            order,
            &mut self.firsts,
            exchange,
            steps,
        );
        if both {
            write_back(order, &mut self.list);
            close_in_order(
                over.graph,
                over.meters,
                a,
                &self.list[..order.len()],
                &mut self.lasts,
                exchange,
                steps,
            );
        }
    }

    /// Notes the ranks that show now, and says how many searches these stations may take.
    pub(crate) fn settle(&mut self, over: &Grouping<'_>, a: &Assignment, both: bool) -> u32
        requires paired { HasLongest over.now a.now }
        requires reached { AreReached over.now a.now self.old.firsts self.old.lasts both }
        requires known { AreKnown over.now self.old }
        ensures known { AreKnown over.now self.new }
        ensures saved { allowance over.now.stations.now self.old.ranks over.now.stations.now.buses.count + result
            ≤ allowance over.now.stations.now self.new.ranks over.now.stations.now.buses.count }
        ensures as_large { IsAsLarge self.old self.new }
    {
        let reach = Reach {
            firsts: &self.firsts,
            lasts: &self.lasts,
            both,
        };
        settle(over, a, &reach, &mut self.ranks)
    }

    /// The first live meter without a pair of a station whose rank isn't known.
    pub(crate) fn vacant(&self, over: &Grouping<'_>, a: &Assignment) -> Option<u32>
        requires paired { HasLongest over.now a.now }
        requires places { HasPlaces over.now self.now }
        ensures vacant { IfSome result (λ m.
            IsSource over.now.graph.now.ends over.now.meters.now.touches AllSources a.now m
            × (slice_index_or self.now.ranks (slice_index over.now.stations.now.keys m) None ≡ None)) }
        ensures none { IfNone result (NoneVacant over.now a.now self.now) }
    {
        for m in 0..over.meters.count() {
            if a.branch_of(m).is_none() && over.meters.live(over.graph, m) {
                if self.ranks[over.stations.station(m) as usize].is_none() {
                    return Some(m);
                }
            }
        }
        None
    }

    /// Lists meters that are to be lost in a round, at most so many: those that are reached of stations whose rank isn't
    /// known, others in each round. Which they are nothing rests on.
    pub(crate) fn draw(&mut self, stations: &Stations, most: u32) -> u32
        requires meters { length self.old.firsts ≡ length stations.now.keys }
        requires ranks { stations.now.buses.count ≤ length self.old.ranks }
        ensures few { result ≤ most }
        ensures room { result ≤ length self.new.list }
        ensures low { (k : ℕ) → k < result → slice_index self.new.list k < length stations.now.keys }
        ensures same { self.new ≡ record self.old { list = self.new.list } }
        ensures same_length { length self.new.list ≡ length self.old.list }
    {
        self.round = self.round.wrapping_add(1);
        draw(
            stations,
            self.round,
            most,
            &self.firsts,
            &self.ranks,
            &mut self.list,
        )
    }

    /// The first meters of the list.
    pub(crate) fn listed(&self, count: u32) -> &[u32]
        requires room { count ≤ length self.now.list }
        ensures listed { result.now ≡ take count self.now.list }
    {
        &self.list[..count as usize]
    }
}
