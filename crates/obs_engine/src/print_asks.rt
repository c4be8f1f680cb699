// The answers to the asks of a session, printed. Each call finds what is not at hand, and leaves the case as it is.
ghost use Rattle.std.specs.Prelude.{◌≡◌, true};
ghost use Rattle.obs_matroid.specs.Lists.{In};
ghost use Rattle.obs_report.specs.inner.Printed.{Appends};
ghost use Rattle.obs_script.specs.declared.command.Ask.TheVariants.{Place};
ghost use Rattle.obs_engine.specs.declared.blocks.Block.TheVariants.{Placement};
ghost use Rattle.obs_engine.specs.Asks.{ask_text, block_text, blocks_text};

use crate::blocks::{Block, blocks_of};
use crate::print_claims::print_claims;
use obs_assign::Steps;
use obs_edit::Session;
use obs_io::{Failed, Sink};
use obs_report::{print_counts, print_critical, print_islands, print_last_line, print_placement};
use obs_script::Ask;
use std::sync::ledger::Ledger;

// Prints the counts and the verdict.
fn print_case_counts<W: Sink>(output: &mut W, session: &Session) -> Result<(), Failed>
    ensures appends { Appends W.written W.faults W.has_room output.old output.new result
        (block_text Block.Counts session.now.tables) }
{
    print_counts(output, session.network(), session.state().rank)
}

// Prints the islands.
fn print_case_islands<W: Sink, L: Ledger>(
    output: &mut W,
    session: &mut Session,
    steps: &mut Steps<L>,
) -> Result<(), Failed>
    ensures tables { session.new.tables ≡ session.old.tables }
    ensures offered { session.new.offered ≡ session.old.offered }
    ensures appends { Appends W.written W.faults W.has_room output.old output.new result
        (block_text Block.Islands session.old.tables) }
{
    session.find_islands(steps);
    print_islands(
        output,
        session.present(),
        session.network(),
        session.found_islands(),
    )
}

// Prints the critical meters.
fn print_case_critical<W: Sink, L: Ledger>(
    output: &mut W,
    session: &mut Session,
    steps: &mut Steps<L>,
) -> Result<(), Failed>
    ensures tables { session.new.tables ≡ session.old.tables }
    ensures offered { session.new.offered ≡ session.old.offered }
    ensures appends { Appends W.written W.faults W.has_room output.old output.new result
        (block_text Block.Critical session.old.tables) }
{
    session.find_critical(steps);
    print_critical(output, session.present(), session.found_critical())
}

// Prints the placement.
fn print_case_placement<W: Sink, L: Ledger>(
    output: &mut W,
    session: &mut Session,
    steps: &mut Steps<L>,
) -> Result<(), Failed>
    requires offered { session.old.offered ≡ true }
    ensures tables { session.new.tables ≡ session.old.tables }
    ensures offered { session.new.offered ≡ session.old.offered }
    ensures appends { Appends W.written W.faults W.has_room output.old output.new result
        (block_text Block.Placement session.old.tables) }
{
    session.find_placement(steps);
    print_placement(
        output,
        session.present(),
        &session.found_placement(),
        session.found_plan_pairs(),
    )
}

// Prints a part of an answer.
fn print_block<W: Sink, L: Ledger>(
    output: &mut W,
    session: &mut Session,
    block: Block,
    steps: &mut Steps<L>,
) -> Result<(), Failed>
    requires offered { block ≡ Placement → session.old.offered ≡ true }
    ensures tables { session.new.tables ≡ session.old.tables }
    ensures offered { session.new.offered ≡ session.old.offered }
    ensures appends { Appends W.written W.faults W.has_room output.old output.new result
        (block_text block session.old.tables) }
{
    match block {
        Block::Counts => print_case_counts(output, session),
        Block::Trees => print_claims(output, session, true, false, steps),
        Block::Bounds => print_claims(output, session, false, true, steps),
        Block::Claims => print_claims(output, session, true, true, steps),
        Block::Islands => print_case_islands(output, session, steps),
        Block::Critical => print_case_critical(output, session, steps),
        Block::Placement => print_case_placement(output, session, steps),
    }
}

// Prints parts of an answer, one after the other.
fn print_blocks<W: Sink, L: Ledger>(
    output: &mut W,
    session: &mut Session,
    blocks: &[Block],
    steps: &mut Steps<L>,
) -> Result<(), Failed>
    requires offered { In Placement blocks.now → session.old.offered ≡ true }
    ensures tables { session.new.tables ≡ session.old.tables }
    ensures offered { session.new.offered ≡ session.old.offered }
    ensures appends { Appends W.written W.faults W.has_room output.old output.new result
        (blocks_text blocks.now session.old.tables) }
{
    for k in 0..blocks.len() {
        match print_block(output, session, blocks[k], steps) {
            Ok(()) => {}
            Err(Failed) => return Err(Failed),
        }
    }
    Ok(())
}

/// Prints the answer to an ask.
pub(crate) fn print_ask<W: Sink, L: Ledger>(
    output: &mut W,
    session: &mut Session,
    ask: Ask,
    steps: &mut Steps<L>,
) -> Result<(), Failed>
    requires offered { ask ≡ Place → session.old.offered ≡ true }
    ensures tables { session.new.tables ≡ session.old.tables }
    ensures offered { session.new.offered ≡ session.old.offered }
    ensures appends { Appends W.written W.faults W.has_room output.old output.new result
        (ask_text ask session.old.tables) }
{
    match print_blocks(output, session, blocks_of(ask), steps) {
        Ok(()) => print_last_line(output),
        Err(Failed) => Err(Failed),
    }
}
