// How far a search is.

use crate::stars::Stars;
use crate::tops::Tops;
use crate::trail::Trail;

/// How far a search is: what it has reached and walked, what it knows of the branches at each vertex, and the classes of
/// vertices that met branches join.
#[derive(Drop)]
pub struct Progress {
    pub trail: Trail,
    pub stars: Stars,
    pub tops: Tops,
}
