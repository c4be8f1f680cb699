// Where a line may stand.
ghost use Rattle.std.specs.Prelude.{◌≡◌, Err, IfErr, IfOk};
ghost use Rattle.obs_cert.specs.Places.{chosen_after, inside_after, is_over, layer_after, pair_after, place_after, step};
ghost use Rattle.obs_cert.specs.inner.Places.{Steps, is_start};
ghost use Rattle.obs_cert.specs.inner.Said.{line_said};

use crate::fault::CertCode;
use crate::line::{Line, read_line};

/// What the lines so far leave open.
#[derive(Clone, Copy)]
pub(crate) enum Place {
    /// Before the first line.
    Start,
    /// After a tree line or a pair line of its claim.
    Tree,
    /// After a bound line or an inside line of its claim.
    Bound,
    /// After a cost line or a chosen line.
    Cost,
    /// After a pair line of a cost claim.
    Pairs,
    /// After a layer line or an inside line of the layer.
    Layer,
    /// After a shortfall line or an inside line of its claim.
    Shortfall,
    /// After the line `end`.
    End,
}

fn after_pair(place: Place) -> Option<Place>
    ensures place { result ≡ pair_after place }
{
    match place {
        Place::Tree => Some(Place::Tree),
        Place::Cost | Place::Pairs => Some(Place::Pairs),
        _ => None,
    }
}

fn after_chosen(place: Place) -> Option<Place>
    ensures place { result ≡ chosen_after place }
{
    match place {
        Place::Cost => Some(Place::Cost),
        _ => None,
    }
}

fn after_layer(place: Place) -> Option<Place>
    ensures place { result ≡ layer_after place }
{
    match place {
        Place::Cost | Place::Pairs | Place::Layer => Some(Place::Layer),
        _ => None,
    }
}

fn after_inside(place: Place) -> Option<Place>
    ensures place { result ≡ inside_after place }
{
    match place {
        Place::Bound | Place::Layer | Place::Shortfall => Some(place),
        _ => None,
    }
}

// The place after a line, where it may stand at this one.
fn after(place: Place, line: &Line<'_>) -> Option<Place>
    ensures place { result ≡ place_after place (line_said line.now) }
{
    match line {
        Line::Tree(_) => Some(Place::Tree),
        Line::Bound(..) => Some(Place::Bound),
        Line::Cost(_) => Some(Place::Cost),
        Line::Shortfall(..) => Some(Place::Shortfall),
        Line::End => Some(Place::End),
        Line::Pair(..) => after_pair(place),
        Line::Chosen(_) => after_chosen(place),
        Line::Layer(..) => after_layer(place),
        Line::Inside(_) => after_inside(place),
    }
}

/// Whether a line starts a claim.
pub(crate) fn starts(line: &Line<'_>) -> bool
    ensures starts { result ≡ is_start (line_said line.now) }
{
    match line {
        Line::Tree(_) | Line::Bound(..) | Line::Cost(_) | Line::Shortfall(..) => true,
        _ => false,
    }
}

/// Whether the line `end` stands before this place.
pub(crate) fn is_over(place: Place) -> bool
    ensures over { result ≡ is_over place }
{
    match place {
        Place::End => true,
        _ => false,
    }
}

/// Whether the line that stands at a place starts a claim, and the place after it, or what is wrong with the line.
pub(crate) fn step(place: Place, bytes: &[u8]) -> Result<(bool, Place), CertCode>
    ensures next { IfOk result (λ next. Steps place bytes.now next.0 next.1) }
    ensures refused { IfErr result (λ code. step place bytes.now ≡ Err code) }
{
    if is_over(place) {
        return Err(CertCode::AfterEnd);
    }
    let Some(line) = read_line(bytes) else {
        return Err(CertCode::BadLine);
    };
    match after(place, &line) {
        Some(next) => Ok((starts(&line), next)),
        None => Err(CertCode::OutOfPlace),
    }
}
