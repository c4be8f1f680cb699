/// A closed switch between two nodes, by their positions. The two may be one node.
#[derive(Clone, Copy, Debug, PartialEq, Eq)]
pub struct Link {
    pub from: u32,
    pub to: u32,
}
