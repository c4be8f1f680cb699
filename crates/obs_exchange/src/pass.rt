// Where the next search begins to try sources, for a free branch and for a path.
ghost use Rattle.std.specs.Prelude.{◌≤◌};
ghost use Rattle.obs_exchange.specs.inner.Setting.{first_of};

use crate::Sources;
use obs_assign::{Assignment, Move};

/// Two meters at which a search goes on, as long as the pairs are those of so many turns and so many pairs. Pairs that
/// are only added to make no branch free, and lead no path to a source from which none led. A meter before `next` had a
/// pair or touched no free branch. The last path began at `searched`, and none at the sources that were searched from
/// before it. Nothing rests on this: a source that is passed over here is searched from after the others.
#[derive(Clone, Copy)]
pub(crate) struct Pass {
    next: u32,
    searched: u32,
    turns: u64,
    pairs: u32,
}

/// Where a search begins: the first meter that it tries for a free branch, the first that it searches from, whether the
/// branches at the vertices are counted anew, and whether what earlier searches closed is closed still.
#[derive(Clone, Copy)]
pub(crate) struct Start {
    pub tried: u32,
    pub searched: u32,
    pub anew: bool,
    pub kept: bool,
}

impl Pass {
    /// Begins at the first meter.
    pub(crate) fn new() -> Pass {
        Pass {
            next: 0,
            searched: 0,
            turns: 0,
            pairs: 0,
        }
    }

    /// Goes on at the given meter, and at the one for which a search from all sources found the last of these pairs, but not
    /// behind a search along a way.
    pub(crate) fn after(
        a: &Assignment,
        from: Sources,
        next: u32,
        searched: u32,
        along: Option<u32>,
    ) -> Pass {
        if along.is_some() {
            return Pass::new();
        }
        match from {
            Sources::All => Pass {
                next,
                searched,
                turns: a.turns(),
                pairs: a.length(),
            },
            Sources::One(_) => Pass::new(),
        }
    }

    /// The same pass, where the pairs are still those that it was noted at, or a new one.
    fn resumed(self, a: &Assignment) -> Pass {
        if self.turns == a.turns() && self.pairs == a.length() {
            self
        } else {
            Pass::new()
        }
    }

    /// Where a search begins. A pass over all sources counts anew where it begins, and a search from one meter where the
    /// pairs are fewer than at the search before. Nothing rests on the counts, nor on whether meters were shut, or all but
    /// those along a way from a source.
    pub(crate) fn start(
        self,
        a: &Assignment,
        from: Sources,
        before: u32,
        shut: bool,
        along: Option<u32>,
    ) -> Start
        ensures tried { first_of from ≤ result.tried }
        ensures searched { first_of from ≤ result.searched }
    {
        let pass = self.resumed(a);
        let pairs = a.length();
        match from {
            Sources::All => match along {
                Some(source) => Start {
                    tried: u32::MAX,
                    searched: source,
                    anew: true,
                    kept: true,
                },
                None => Start {
                    tried: pass.next,
                    searched: pass.searched,
                    anew: pass.next == 0,
                    kept: shut && pass.pairs > 0,
                },
            },
            Sources::One(m) => Start {
                tried: m,
                searched: m,
                anew: pairs == 0 || pairs < before,
                kept: along.is_some(),
            },
        }
    }
}

/// The first meter that the search after this path tries for a free branch: the one that took one at once, or none
/// where no source could.
pub(crate) fn next_tried(path: &[Move], meters: u32) -> u32 {
    if path.len() == 1 {
        path[0].meter
    } else {
        meters
    }
}
