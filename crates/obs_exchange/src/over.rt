// A graph and its meters, which are lent together.
use obs_graph::Graph;
use obs_meter::Meters;

/// A graph, and the meters that touch its branches and vertices.
#[derive(Clone, Copy)]
pub struct Over<'a> {
    pub graph: &'a Graph,
    pub meters: &'a Meters,
}
