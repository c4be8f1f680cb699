// What a placement is of.

use obs_graph::Graph;
use obs_meter::Meters;

/// What is offered over a graph: so many meters, and then the candidates, whose prices these are. It stays as it is
/// while a placement is worked out.
#[derive(Clone, Copy)]
pub struct Offer<'a> {
    pub graph: &'a Graph,
    pub items: &'a Meters,
    pub meters: u32,
    pub prices: &'a [u64],
}
