// Whether a row of the branch table leads between two vertices, by numbers that are sorted once for all claims.
ghost use Rattle.std.specs.Prelude.{◌≡◌, length};
ghost use Rattle.std.specs.List.Sorted.{IsNonDecreasing};
ghost use Rattle.obs_meter.specs.Lost.{is_listed};
ghost use Rattle.obs_cert.specs.inner.Links.{AreLinks, link, link_of, links_of};

use crate::joins::ends_of;
use obs_graph::Ends;
use obs_network::Present;

// The number of two vertices.
fn link(u: u32, v: u32) -> u64
    ensures link { result ≡ link u v }
{
    u64::from(u.min(v)) * 4294967296 + u64::from(u.max(v))
}

// The number of the ends of a branch that may be absent.
fn link_of(ends: Option<Ends>) -> u64
    ensures link { result ≡ link_of ends }
{
    match ends {
        Some(ends) => link(ends.a, ends.b),
        None => 0,
    }
}

// Writes the number of each row.
fn write_links(present: &Present<'_>, links: &mut [u64])
    requires room { length links.old ≡ length present.now.branches }
    ensures links { links.new ≡ links_of present.now }
{
    let graph = present.graph();
    for e in 0..links.len() {
        links[e] = link_of(ends_of(graph, e as u32));
    }
}

/// Writes the numbers of all rows, and sorts them.
pub(crate) fn sort_links(present: &Present<'_>, links: &mut [u64])
    requires room { length links.old ≡ length present.now.branches }
    ensures links { AreLinks present.now links.new }
    ensures len { length links.new ≡ length links.old }
{
    write_links(present, links);
    links.sort_unstable();
}

/// Whether two vertices have one of these numbers.
pub(crate) fn has_link(links: &[u64], u: u32, v: u32) -> bool
    requires rising { IsNonDecreasing links.now }
    ensures listed { result ≡ is_listed links.now (link u v) }
{
    links.binary_search(&link(u, v)).is_ok()
}
