// What a trial says of a case: its counts, its islands, and what losing and regaining each of its meters comes to.
ghost use Rattle.std.specs.Prelude.{◌≡◌, ◌<◌, ◌≤◌, ◌+◌, ◌-◌, ◌++◌, true, length, if◌then◌else◌};
ghost use Rattle.obs_network.specs.Network.{network_of};
ghost use Rattle.obs_network.specs.Switched.{case_bus_count};
ghost use Rattle.obs_report.specs.Counts.{counts_text};
ghost use Rattle.obs_report.specs.inner.Printed.{Appends};
ghost use Rattle.obs_report.specs.Totals.{totals_text, trial_line};
ghost use Rattle.obs_network.specs.Observable.{case_rank};
ghost use Rattle.obs_engine.specs.inner.Replies.{IsReplied};
ghost use Rattle.obs_engine.specs.Trials.{dips_of, edits_of, is_dip, is_first_of_island, island_count, trial_reply};
ghost use Rattle.obs_engine.specs.inner.Trials.{AreInService};
ghost use Rattle.obs_engine.specs.inner.Turns.{AreSearches, AreTurns, IsTurn};

use crate::ask_answers::verdict;
use crate::judged::printed_status;
use obs_assign::Steps;
use obs_edit::{Edit, Session};
use obs_files::Status;
use obs_io::{Failed, Sink};
use obs_report::{print_counts, print_totals, print_trial};
use std::sync::ledger::Ledger;

// After how many losses the rank was lower than at first, and how many searches the edits took.
#[derive(Clone, Copy)]
struct Turns {
    dips: u32,
    searches: u32,
}

// Whether a bus is energised and the first bus of its island.
fn is_first_of_island(session: &Session, bus: u32) -> bool
    requires islands { session.now.at_hand.islands ≡ true }
    requires bus { bus < case_bus_count session.now.tables }
    ensures first { result ≡ is_first_of_island session.now.tables bus }
{
    let network = session.network();
    network.energised(network.component(bus)) && session.found_islands()[bus as usize] == bus
}

// How many islands the energised buses have.
fn count_islands(session: &Session) -> u32
    requires islands { session.now.at_hand.islands ≡ true }
    ensures islands { result ≡ island_count session.now.tables }
{
    let mut islands = 0;
    for bus in 0..session.network().buses().count() {
        if is_first_of_island(session, bus) {
            islands += 1;
        }
    }
    islands
}

/// Finds the islands, and says how many there are.
pub(crate) fn find_island_count<L: Ledger>(session: &mut Session, steps: &mut Steps<L>) -> u32
    ensures tables { session.new.tables ≡ session.old.tables }
    ensures islands { result ≡ island_count session.old.tables }
{
    session.find_islands(steps);
    count_islands(session)
}

// Loses a meter and regains it. `first` is the rank at first.
// The searches that are told are those that the two edits took.
fn turn_meter<L: Ledger>(session: &mut Session, at: u32, first: u32, steps: &mut Steps<L>) -> Turns
    requires meter { at < length session.old.tables.meters }
    requires inservice { AreInService session.old.tables }
    requires first { first ≡ case_rank session.old.tables }
    ensures tables { session.new.tables ≡ session.old.tables }
    ensures turn { IsTurn at session.old session.new result.searches }
    ensures dips { result.dips ≡ (if is_dip session.old.tables at then 1 else 0) }
    ensures least { result.dips ≤ result.searches }
    ensures most { result.searches ≤ 2 }
    ensures ticks { steps.new ≡ steps.old + result.searches }
{
    let lost = session.set(
        Edit::Meter {
            at,
            inservice: false,
        },
        steps,
    );
    let _ = session.pairs();
    let regained = session.set(
        Edit::Meter {
            at,
            inservice: true,
        },
        steps,
    );
    Turns {
        dips: if lost.rank < first { 1 } else { 0 },
        searches: lost.searches + regained.searches,
    }
}

// Loses and regains each meter in turn.
fn turn_meters<L: Ledger>(session: &mut Session, steps: &mut Steps<L>) -> Turns
    requires inservice { AreInService session.old.tables }
    ensures tables { session.new.tables ≡ session.old.tables }
    ensures turns { AreTurns (length session.old.tables.meters) session.old session.new result.searches }
    ensures dips { result.dips ≡ dips_of session.old.tables }
    ensures least { result.dips ≤ result.searches }
    ensures most { result.searches ≤ edits_of session.old.tables }
    ensures ticks { steps.new ≡ steps.old + result.searches }
{
    let first = session.state().rank;
    let count = session.present().meters().len() as u32;
    let mut turns = Turns {
        dips: 0,
        searches: 0,
    };
    for at in 0..count {
        let turn = turn_meter(session, at, first, steps);
        turns.dips += turn.dips;
        turns.searches += turn.searches;
    }
    turns
}

// Prints what was found.
fn print_turns<W: Sink>(
    output: &mut W,
    session: &Session,
    rows: u32,
    seed: u64,
    islands: u32,
    turns: Turns,
) -> Result<(), Failed>
    ensures appends { Appends W.written W.faults W.has_room output.old output.new result
        (trial_line rows seed
        ++ (counts_text (network_of session.now.tables) (case_rank session.now.tables)
        ++ totals_text islands turns.dips (edits_of session.now.tables) turns.searches)) }
{
    let edits = 2 * session.present().meters().len() as u64;
    let Ok(()) = print_trial(output, rows as u64, seed) else {
        return Err(Failed);
    };
    let Ok(()) = print_counts(output, session.network(), session.state().rank) else {
        return Err(Failed);
    };
    print_totals(
        output,
        islands as u64,
        turns.dips as u64,
        edits,
        turns.searches as u64,
    )
}

/// Answers a trial on the case of so many rows and this seed, whose islands were counted: loses and regains each meter,
/// and prints what that comes to. All is done before the first byte is written. The printed number of searches is by
/// how many the count of steps rose in this call.
pub(crate) fn answer_trial<W: Sink, L: Ledger>(
    output: &mut W,
    session: &mut Session,
    rows: u32,
    seed: u64,
    islands: u32,
    steps: &mut Steps<L>,
) -> Status
    requires inservice { AreInService session.old.tables }
    requires islands { islands ≡ island_count session.old.tables }
    ensures later { steps.old ≤ steps.new }
    ensures searches { AreSearches session.old session.new (steps.new - steps.old) }
    ensures replied { IsReplied W.written W.faults W.has_room output.old output.new result
        (trial_reply rows seed session.old.tables (steps.new - steps.old)) }
{
    let turns = turn_meters(session, steps);
    let status = verdict(session);
    printed_status(
        print_turns(output, session, rows, seed, islands, turns),
        status,
    )
}
