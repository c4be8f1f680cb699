// The claims on the components of a session's case, printed.
// Each call finds what is not at hand, and leaves the case as it is.
ghost use Rattle.std.specs.Prelude.{◌≡◌, ◌<◌, []};
ghost use Rattle.obs_network.specs.inner.Located.{live_meters_of};
ghost use Rattle.obs_network.specs.Network.{case_component_count, network_of};
ghost use Rattle.obs_report.specs.inner.Printed.{Appends};
ghost use Rattle.obs_engine.specs.Asks.{bound_claim, claims_text, component_claim, tree_claim};

use obs_assign::Steps;
use obs_edit::Session;
use obs_io::{Failed, Sink};
use obs_report::{print_bound, print_tree};
use std::sync::ledger::Ledger;

// Prints the tree of a component without a live meter: its line alone, since no pair lies in it.
fn print_lone_tree<W: Sink>(output: &mut W, session: &Session, c: u32) -> Result<(), Failed>
    requires component { c < case_component_count session.now.tables }
    requires lone { live_meters_of (network_of session.now.tables) c ≡ [] }
    ensures appends { Appends W.written W.faults W.has_room output.old output.new result
        (tree_claim session.now.tables c) }
{
    print_tree(
        output,
        session.present(),
        session.network(),
        c,
        session.pairs(),
    )
}

// Prints the tree of a component, by the first pairs of the case.
fn print_first_tree<W: Sink, L: Ledger>(
    output: &mut W,
    session: &mut Session,
    c: u32,
    steps: &mut Steps<L>,
) -> Result<(), Failed>
    requires component { c < case_component_count session.old.tables }
    ensures tables { session.new.tables ≡ session.old.tables }
    ensures offered { session.new.offered ≡ session.old.offered }
    ensures appends { Appends W.written W.faults W.has_room output.old output.new result
        (tree_claim session.old.tables c) }
{
    session.find_first(steps);
    print_tree(
        output,
        session.present(),
        session.network(),
        c,
        session.found_pairs(),
    )
}

// Prints the tree of a component. Where no live meter lies in it, no first pairs are needed.
fn print_component_tree<W: Sink, L: Ledger>(
    output: &mut W,
    session: &mut Session,
    c: u32,
    steps: &mut Steps<L>,
) -> Result<(), Failed>
    requires component { c < case_component_count session.old.tables }
    ensures tables { session.new.tables ≡ session.old.tables }
    ensures offered { session.new.offered ≡ session.old.offered }
    ensures appends { Appends W.written W.faults W.has_room output.old output.new result
        (tree_claim session.old.tables c) }
{
    if session.network().live_meters(c).is_empty() {
        return print_lone_tree(output, session, c);
    }
    print_first_tree(output, session, c, steps)
}

// Prints the bound of a component.
fn print_component_bound<W: Sink, L: Ledger>(
    output: &mut W,
    session: &mut Session,
    c: u32,
    steps: &mut Steps<L>,
) -> Result<(), Failed>
    requires component { c < case_component_count session.old.tables }
    ensures tables { session.new.tables ≡ session.old.tables }
    ensures offered { session.new.offered ≡ session.old.offered }
    ensures appends { Appends W.written W.faults W.has_room output.old output.new result
        (bound_claim session.old.tables c) }
{
    session.find_critical(steps);
    session.find_bound(c);
    let bound = session.found_bound(c);
    print_bound(output, session.present(), session.network(), c, &bound)
}

// Prints the claim on an energised component, where claims of its kind are asked for.
fn print_claim<W: Sink, L: Ledger>(
    output: &mut W,
    session: &mut Session,
    trees: bool,
    bounds: bool,
    c: u32,
    steps: &mut Steps<L>,
) -> Result<(), Failed>
    requires component { c < case_component_count session.old.tables }
    ensures tables { session.new.tables ≡ session.old.tables }
    ensures offered { session.new.offered ≡ session.old.offered }
    ensures appends { Appends W.written W.faults W.has_room output.old output.new result
        (component_claim trees bounds session.old.tables c) }
{
    if !session.network().energised(c) {
        return Ok(());
    }
    if session.observable(c) {
        if trees {
            return print_component_tree(output, session, c, steps);
        }
    } else if bounds {
        return print_component_bound(output, session, c, steps);
    }
    Ok(())
}

/// Prints the claims on the components, in their order: trees of observable ones, bounds of the others, as far as they
/// are asked for.
pub(crate) fn print_claims<W: Sink, L: Ledger>(
    output: &mut W,
    session: &mut Session,
    trees: bool,
    bounds: bool,
    steps: &mut Steps<L>,
) -> Result<(), Failed>
    ensures tables { session.new.tables ≡ session.old.tables }
    ensures offered { session.new.offered ≡ session.old.offered }
    ensures appends { Appends W.written W.faults W.has_room output.old output.new result
        (claims_text trees bounds session.old.tables) }
{
    for c in 0..session.network().components() {
        match print_claim(output, session, trees, bounds, c, steps) {
            Ok(()) => {}
            Err(Failed) => return Err(Failed),
        }
    }
    Ok(())
}
