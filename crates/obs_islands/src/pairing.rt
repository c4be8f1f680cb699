// A graph and pairs over it, which are lent together.
use obs_assign::Assignment;
use obs_graph::Graph;

/// A graph, and pairs whose branches are among its own.
#[derive(Clone, Copy)]
pub(crate) struct Pairing<'a> {
    pub graph: &'a Graph,
    pub pairs: &'a Assignment,
}
