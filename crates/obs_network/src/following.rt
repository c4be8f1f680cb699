// What items touch, and the lists of live meters, where one row of the graph changed. Only items that touch the row itself, or
// branches at an end that it had or has, are looked at again.
ghost use Rattle.std.specs.Prelude.{◌≡◌, ◌+◌, ◌<◌, ◌≤◌, length, slice_set, take};
ghost use Rattle.obs_graph.specs.Positions.{has_end};
ghost use Rattle.obs_meter.specs.inner.Touches.{IsInRange};
ghost use Rattle.obs_network.specs.inner.Following.{AreFollowed, AreOfAsMany, CanFollow, IsChangeIn, followed, followed_items, is_end, is_near, is_row};
ghost use Rattle.obs_network.specs.inner.Kept.{list_of, lists_of};
ghost use Rattle.obs_network.specs.Located.{touch_component};

use crate::components::Components;
use crate::live_meters::LiveMeters;
use crate::touching::rows_at;
use obs_graph::{Ends, Graph};
use obs_meter::{Meters, Touch};

// So many meters on the row itself, and all lists are made anew. Fewer change theirs one by one.
const MANY: u32 = 9;

/// A row that changed: its position, the ends that it had, and those that it has.
#[derive(Clone, Copy)]
pub(crate) struct Change {
    pub(crate) at: u32,
    pub(crate) before: Option<Ends>,
    pub(crate) after: Option<Ends>,
}

// Whether a branch is present and has an end at the vertex.
fn has_end(ends: Option<Ends>, v: u32) -> bool
    ensures value { result ≡ has_end v ends }
{
    match ends {
        Some(x) => x.a == v || x.b == v,
        None => false,
    }
}

// Whether a vertex was an end of the row, or is one.
fn is_end(before: Option<Ends>, after: Option<Ends>, v: u32) -> bool
    ensures value { result ≡ is_end before after v }
{
    has_end(before, v) || has_end(after, v)
}

// Whether this is the row by its position.
fn is_row(touch: Touch, at: u32) -> bool
    ensures value { result ≡ is_row at touch }
{
    match touch {
        Touch::Edge(e) => e == at,
        _ => false,
    }
}

// Whether what is touched so may be the row: it by its position, or branches at one of the ends.
fn is_near(touch: Touch, change: Change) -> bool
    ensures value { result ≡ is_near change.at change.before change.after touch }
{
    match touch {
        Touch::Star(v) => is_end(change.before, change.after, v),
        Touch::Front { at: v, count: _ } => is_end(change.before, change.after, v),
        _ => is_row(touch, change.at),
    }
}

// What is touched now, where this was touched: at one of the ends, the rows that are there now.
fn followed(graph: &Graph, rows: u32, change: Change, touch: Touch) -> Touch
    requires row { IsChangeIn graph.now rows change }
    ensures touch { result ≡ followed (take rows graph.now.ends) change.before change.after touch }
{
    match touch {
        Touch::Front { at, count: _ } if is_end(change.before, change.after, at) => {
            rows_at(at, graph, rows)
        }
        _ => touch,
    }
}

// Makes the items from the number `first` on touch what they do now. Those before stay.
fn follow_behind(graph: &Graph, rows: u32, change: Change, first: u32, items: &mut Meters)
    requires row { IsChangeIn graph.now rows change }
    ensures items { AreFollowed (followed (take rows graph.now.ends) change.before change.after) items.old items.new
        first (length items.old.touches) }
{
    for m in first..items.count() {
        let touch = items.kind(m);
        if is_near(touch, change) {
            items.set(m, followed(graph, rows, change, touch));
        }
    }
}

// How many more meters on the row may come, and lists still change one by one.
fn left_behind(touch: Touch, at: u32, left: u32) -> u32
    ensures fewer { result ≤ left }
{
    if is_row(touch, at) {
        left.saturating_sub(1)
    } else {
        left
    }
}

// Puts a meter into the list of what it touches, where lists still change one by one.
fn set_list(
    components: &Components,
    graph: &Graph,
    m: u32,
    touch: Touch,
    left: u32,
    live_meters: &mut LiveMeters,
)
    requires vertices { graph.now.vertices
        ≡ length components.now.of_buses + length components.now.first_buses }
    requires in_range { IsInRange graph.now touch }
    requires components { live_meters.old.components ≡ length components.now.first_buses }
    requires list { m < length live_meters.old.lists }
    ensures lists { 0 < left → live_meters.new.lists ≡ slice_set live_meters.old.lists m
        (list_of (length components.now.first_buses)
        (touch_component components.now.of_buses graph.now.ends touch)) }
    ensures one_each { length live_meters.new.lists ≡ length live_meters.old.lists }
    ensures as_many { AreOfAsMany live_meters.old live_meters.new }
{
    if left > 0 {
        live_meters.set(components, graph, m, touch);
    }
}

// Makes the meters touch what they do now, also where they are offered. Each stands in its list then, where the answer is not
// zero.
fn follow_meters(
    components: &Components,
    graph: &Graph,
    rows: u32,
    change: Change,
    meters: &mut Meters,
    offered: &mut Meters,
    live_meters: &mut LiveMeters,
) -> u32
    requires can { CanFollow components.now graph.now rows change meters.old offered.old live_meters.old }
    ensures meters { meters.new ≡ followed_items (take rows graph.now.ends) change meters.old }
    ensures offered { AreFollowed (followed (take rows graph.now.ends) change.before change.after) offered.old offered.new
        0 (length meters.old.touches) }
    ensures lists { 0 < result → live_meters.new.lists ≡ lists_of components.now graph.now meters.new }
    ensures as_many { AreOfAsMany live_meters.old live_meters.new }
{
    let mut left = MANY;
    for m in 0..meters.count() {
        let touch = meters.kind(m);
        if is_near(touch, change) {
            let now = followed(graph, rows, change, touch);
            left = left_behind(touch, change.at, left);
            meters.set(m, now);
            offered.set(m, now);
            set_list(components, graph, m, now, left, live_meters);
        }
    }
    left
}

/// Makes the meters, and these with the candidates behind them, touch what they do now, and puts each meter into the list of
/// what it touches. Where many touch the row itself, all lists are made anew.
pub(crate) fn follow_items(
    components: &Components,
    graph: &Graph,
    rows: u32,
    change: Change,
    meters: &mut Meters,
    offered: &mut Meters,
    live_meters: &mut LiveMeters,
)
    requires can { CanFollow components.now graph.now rows change meters.old offered.old live_meters.old }
    requires most_components { length components.now.first_buses ≤ live_meters.old.most_components }
    requires most_meters { length meters.old.touches ≤ live_meters.old.most_meters }
    ensures meters { meters.new ≡ followed_items (take rows graph.now.ends) change meters.old }
    ensures offered { offered.new ≡ followed_items (take rows graph.now.ends) change offered.old }
    ensures lists { live_meters.new.lists ≡ lists_of components.now graph.now meters.new }
    ensures as_many { AreOfAsMany live_meters.old live_meters.new }
{
    let first = meters.count();
    let left = follow_meters(
        components,
        graph,
        rows,
        change,
        meters,
        offered,
        live_meters,
    );
    follow_behind(graph, rows, change, first, offered);
    if left == 0 {
        live_meters.refill(components, graph, meters);
    }
}
