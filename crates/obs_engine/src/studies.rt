// Studies of a case: what the loss of one branch, of two meters or of a station's meters does. They need no session.
ghost use Rattle.std.specs.Prelude.{◌≡◌, ◌<◌, Some};
ghost use Rattle.obs_engine.specs.inner.Replies.{IsReplied};
ghost use Rattle.obs_engine.specs.Studies.{study_reply};
ghost use Rattle.obs_engine.specs.Summaries.{IsWholeAnswer, summary_of};

use crate::pair_reply::answer_pairs;
use crate::print_outages::answer_outages;
use crate::station_reply::answer_stations;
use obs_assign::Steps;
use obs_case::Case;
use obs_files::{Status, Study};
use obs_io::Sink;
use obs_notice::Summary;
use std::alloc::Global;
use std::marker::Brand;
use std::sync::ledger::{Blank, Ledger};

// Answers a study of a case, which makes and owns what it needs. Searches are counted in a ledger of its own.
fn study_counted<W: Sink, L: Ledger>(
    alloc: Global,
    study: Study,
    mut case: Case,
    output: &mut W,
    blank: Blank,
) -> (Status, Option<Summary>)
    requires name { blank.name ≡ L.name }
    requires parts { blank.parts ≡ L.parts }
    requires some { 0 < L.parts }
    ensures replied { IsReplied W.written W.faults W.has_room output.old output.new result.0 (study_reply study case) }
    ensures summary { IsWholeAnswer result.0 → result.1 ≡ Some (summary_of case) }
{
    let mut steps = Steps::<L>::begin(blank);
    match study {
        Study::Outages => answer_outages(alloc, output, &mut case, &mut steps),
        Study::Pairs => answer_pairs(alloc, output, &case, &mut steps),
        Study::Stations => answer_stations(alloc, output, &case, &mut steps),
    }
}

/// Answers a study of a case, with the summary of the case. All memory is taken before anything is written.
pub(crate) fn answer_study<W: Sink>(
    alloc: Global,
    study: Study,
    case: Case,
    output: &mut W,
) -> (Status, Option<Summary>)
    ensures replied { IsReplied W.written W.faults W.has_room output.old output.new result.0 (study_reply study case) }
    ensures summary { IsWholeAnswer result.0 → result.1 ≡ Some (summary_of case) }
{
    study_counted::<W, Brand>(alloc, study, case, output, Blank::new(1))
}
