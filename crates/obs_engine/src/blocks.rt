// The parts of answers.
ghost use Rattle.std.specs.Prelude.{◌≡◌};
ghost use Rattle.obs_engine.specs.Asks.{blocks_of};

use obs_script::Ask;

/// A part of an answer: the counts and the verdict, the claims on the components (trees, bounds, or both), the islands,
/// the critical meters, or the placement with its pairs.
#[derive(Clone, Copy)]
pub(crate) enum Block {
    Counts,
    Trees,
    Bounds,
    Claims,
    Islands,
    Critical,
    Placement,
}

/// The parts of the answer to each ask. The last line stands behind them.
pub(crate) fn blocks_of(ask: Ask) -> &'static [Block]
    ensures blocks { result.now ≡ blocks_of ask }
{
    match ask {
        Ask::Status => &[Block::Counts],
        Ask::Tree => &[Block::Trees],
        Ask::Bound => &[Block::Bounds],
        Ask::Islands => &[Block::Islands],
        Ask::Critical => &[Block::Critical],
        Ask::Report => &[
            Block::Counts,
            Block::Claims,
            Block::Islands,
            Block::Critical,
        ],
        Ask::Place => &[Block::Placement],
        Ask::Cert => &[Block::Claims],
    }
}
