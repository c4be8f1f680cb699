// Rows that a case has.

use obs_case::Case;

// Whether this row of the nodes has this name and is a source or none.
pub(crate) fn has_node(case: &Case, at: usize, name: &[u8], source: bool) -> bool {
    match case.nodes().get(at) {
        Some(node) => node.name.bytes() == name && node.source == source,
        None => false,
    }
}

// Whether this row of the branches has this name and these ends, and is in service or not.
pub(crate) fn has_branch(
    case: &Case,
    at: usize,
    name: &[u8],
    ends: (u32, u32),
    inservice: bool,
) -> bool {
    match case.branches().get(at) {
        Some(branch) => {
            branch.name.bytes() == name
                && branch.from == ends.0
                && branch.to == ends.1
                && branch.inservice == inservice
        }
        None => false,
    }
}
