// What a case says of an item by its number, and of a component by its name.
ghost use Rattle.std.specs.Prelude.{◌≡◌, ◌<◌, ◌==◌, length, IfSome, is_some};
ghost use Rattle.obs_meter.specs.Touches.{touch_at};
ghost use Rattle.obs_network.specs.Located.{component_of_item};
ghost use Rattle.obs_network.specs.Network.{is_meter, network_of};
ghost use Rattle.obs_network.specs.Switched.{case_first_node};
ghost use Rattle.obs_cert.specs.inner.Marks.{is_marked};
ghost use Rattle.obs_meter.specs.Lost.{is_listed};
ghost use Rattle.obs_cert.specs.Scopes.{is_live_item, is_this, item_touches, named_component, named_need, names_at, names_component, price_at};
ghost use Rattle.obs_case.specs.Tables.{has_name, node_names};
ghost use Rattle.obs_cert.specs.inner.InScope.{in_scope};

use obs_case::Case;
use obs_graph::Graph;
use obs_meter::Meters;
use obs_network::Present;

/// Which items a claim may speak of.
#[derive(Clone, Copy)]
pub(crate) enum Scope<'a> {
    /// The live meters of a component.
    Component(u32),
    /// The live meters and the live candidates that are marked with the stamp.
    Plan(&'a [u32], u32),
    /// The live meters and candidates.
    Live,
}

/// Whether an item is live.
pub(crate) fn is_live(present: &Present<'_>, m: u32) -> bool
    ensures live { result ≡ is_live_item present.now m }
{
    let network = present.network();
    if m < network.offered().count() {
        network.offered().live(network.graph(), m)
    } else {
        false
    }
}

/// What a candidate costs, by its number as an item.
pub(crate) fn price_at(case: &Case, m: u32) -> u64
    ensures price { result ≡ price_at case.now m }
{
    let rows = case.candidates();
    let at = m.saturating_sub(case.meters().len() as u32) as usize;
    if at < rows.len() { rows[at].price } else { 0 }
}

/// Whether an item is a meter.
pub(crate) fn is_meter(case: &Case, m: u32) -> bool
    ensures meter { result ≡ is_meter case.now m }
{
    (m as usize) < case.meters().len()
}

/// Whether a number is marked with the stamp.
pub(crate) fn is_marked(marks: &[u32], stamp: u32, x: u32) -> bool
    ensures marked { result ≡ is_marked marks.now stamp x }
{
    let mark = match marks.get(x as usize) {
        Some(mark) => *mark,
        None => 0,
    };
    mark == stamp
}

// Whether an item lies in a component.
fn lies_in(present: &Present<'_>, m: u32, c: u32) -> bool
    ensures inside { result ≡ is_this (component_of_item (network_of present.now) m) c }
{
    let network = present.network();
    if m < network.offered().count() {
        match network.component_of_item(m) {
            Some(d) => d == c,
            None => false,
        }
    } else {
        false
    }
}

// Whether an item touches a branch. What is no position isn't touched.
fn is_touched(g: &Graph, items: &Meters, m: u32, e: u32) -> bool
    requires item { m < length items.now.touches }
    ensures touched { result ≡ is_listed (touch_at g.now.ends items.now.touches m) e }
{
    if e < g.positions() {
        items.is_touched(g, m, e)
    } else {
        false
    }
}

/// Whether an item touches a branch.
pub(crate) fn touches(present: &Present<'_>, m: u32, e: u32) -> bool
    ensures touched { result ≡ is_listed (item_touches present.now m) e }
{
    let network = present.network();
    if m < network.offered().count() {
        is_touched(network.graph(), network.offered(), m, e)
    } else {
        false
    }
}

/// Whether a claim may speak of an item.
pub(crate) fn in_scope(present: &Present<'_>, scope: Scope<'_>, m: u32) -> bool
    ensures inside { result ≡ in_scope present.now scope.entry m }
{
    let case = present.case();
    match scope {
        Scope::Component(c) => is_meter(case, m) && lies_in(present, m, c),
        Scope::Plan(marks, stamp) => {
            is_live(present, m) && (is_meter(case, m) || is_marked(marks, stamp, m))
        }
        Scope::Live => is_live(present, m),
    }
}

// Whether a node is the first one of its bus.
fn is_first_node(present: &Present<'_>, node: u32) -> bool
    requires node { node < length present.now.nodes }
    ensures first { result ≡ (case_first_node present.now node == node) }
{
    let network = present.network();
    let buses = network.buses();
    buses.members(buses.bus(node))[0] == node
}

// Whether a node is the first one of its bus, and this the first bus of an energised component.
fn names(present: &Present<'_>, node: u32) -> bool
    requires node { node < length present.now.nodes }
    ensures names { result ≡ names_at present.now node }
{
    let network = present.network();
    let bus = network.buses().bus(node);
    let c = network.component(bus);
    let first_node = is_first_node(present, node);
    let first_bus = network.first_bus(c) == bus;
    let energised = network.energised(c);
    first_node && (first_bus && energised)
}

/// A component by its name: its number, what it needs, and whether the name is that of an energised one.
#[derive(Clone, Copy)]
pub(crate) struct Named {
    pub component: u32,
    pub need: u32,
    pub energised: bool,
}

/// The component that a name stands for, and None where no node has the name.
pub(crate) fn component_named(present: &Present<'_>, name: &[u8]) -> Option<Named>
    ensures known { is_some result ≡ has_name (node_names present.now) name.now }
    ensures component { IfSome result (λ n. n.component ≡ named_component present.now name.now) }
    ensures need { IfSome result (λ n. n.need ≡ named_need present.now name.now) }
    ensures names { IfSome result (λ n. n.energised ≡ names_component present.now name.now) }
    ensures below { IfSome result (λ n. n.component < length (network_of present.now).components.first_buses) }
{
    let case = present.case();
    let network = present.network();
    let Some(node) = case.find_node(name) else {
        return None;
    };
    let component = network.component(network.buses().bus(node));
    Some(Named {
        component,
        need: network.need(component),
        energised: names(present, node),
    })
}
