// The graph of a case, where the rows of the branch table at one vertex may be contracted.
ghost use Rattle.std.specs.Prelude.{◌≡◌, ◌<◌, ℕ, None, IfSome, slice_index_or};
ghost use Rattle.obs_cert.specs.inner.Contractions.{FitsIn, contracted, contracted_ends};

use crate::joins::ends_of;
use crate::links::has_link;
use obs_graph::{Ends, Graph};

/// What is contracted.
#[derive(Clone, Copy)]
pub(crate) enum Contraction<'a> {
    Nothing,
    /// The rows of the branch table at this vertex, where these are the numbers of all rows.
    Star(u32, &'a [u64]),
}

// The vertex that another one became.
fn contracted(contraction: Contraction<'_>, u: u32) -> u32
    requires fits { (n : ℕ) × FitsIn n contraction }
    ensures vertex { result ≡ contracted contraction.entry u }
{
    match contraction {
        Contraction::Nothing => u,
        Contraction::Star(v, links) => { if has_link(links, v, u) { v } else { u } }
    }
}

/// What became of the ends of the branch at a position, if it is present.
pub(crate) fn contracted_ends(g: &Graph, contraction: Contraction<'_>, e: u32) -> Option<Ends>
    requires fits { FitsIn g.now.vertices contraction }
    ensures ends { result ≡ slice_index_or (contracted_ends contraction.entry g.now.ends) e None }
    ensures in_range { IfSome result (λ x. (x.a < g.now.vertices) × (x.b < g.now.vertices)) }
{
    match ends_of(g, e) {
        Some(ends) => Some(Ends {
            a: contracted(contraction, ends.a),
            b: contracted(contraction, ends.b),
        }),
        None => None,
    }
}
