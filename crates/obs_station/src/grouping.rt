// The meters of a graph by station.
use crate::stations::Stations;
use obs_graph::Graph;
use obs_meter::Meters;

/// A graph, its meters, and the stations to which these belong. It stays as it is while losses are found.
#[derive(Clone, Copy)]
pub(crate) struct Grouping<'a> {
    pub(crate) graph: &'a Graph,
    pub(crate) meters: &'a Meters,
    pub(crate) stations: &'a Stations,
}
