// What is said of a case beside its answer: how many of its buses are energised, where not all are, and at how many more than
// one injection stands.
ghost use Rattle.std.specs.Prelude.{◌+◌, ◌++◌, ℕ, length, IsOk};
ghost use Rattle.obs_io.specs.inner.Bytes.{Writes};
ghost use Rattle.obs_notice.specs.Notices.{crowded_notice, energised_notice, part_notice, summary_notice};

use crate::numbers::{write_around, write_pair};
use obs_io::{Failed, Sink, write_all};
use obs_text::Digits;

const NONE: &[u8] =
    b"obs: no bus is energised, since no node is a source. So there is nothing to observe.\n";

const PART: &[u8] = b"obs: buses that are energised: ";

const PART_OF: &[u8] = b" of ";

const PART_END: &[u8] = b". The others are left out.\n";

const CROWDED: &[u8] = b"obs: buses at which more than one live injection or zero stands: ";

const CROWDED_END: &[u8] = b". An estimator has one equation at each.\n";

/// How many buses a case has, how many of them are energised, and at how many more than one live injection or zero stands.
#[derive(Clone, Copy, Debug, PartialEq, Eq)]
pub struct Summary {
    pub buses: u32,
    pub energised: u32,
    pub crowded: u32,
}

// Says how many buses are energised, where these are some of all.
fn say_part<E: Sink>(errors: &mut E, energised: u32, buses: u32) -> Result<(), Failed>
    ensures says { Writes (E.written errors.old) (E.written errors.new) result (part_notice energised buses) }
    ensures succeeds { (rest : ℕ) → E.has_room errors.old (length (part_notice energised buses) + rest) → IsOk result }
    ensures room { (rest : ℕ) → E.has_room errors.old (length (part_notice energised buses) + rest)
        → E.has_room errors.new rest }
{
    let mut part = Digits::new();
    let mut all = Digits::new();
    let some = part.text(energised as u64);
    write_pair(
        errors,
        PART,
        some,
        PART_OF,
        all.text(buses as u64),
        PART_END,
    )
}

// Says which part of the buses is energised, where that isn't all.
fn say_energised<E: Sink>(errors: &mut E, energised: u32, buses: u32) -> Result<(), Failed>
    ensures says { Writes (E.written errors.old) (E.written errors.new) result (energised_notice energised buses) }
    ensures succeeds { (rest : ℕ) → E.has_room errors.old (length (energised_notice energised buses) + rest)
        → IsOk result }
    ensures room { (rest : ℕ) → E.has_room errors.old (length (energised_notice energised buses) + rest)
        → E.has_room errors.new rest }
{
    if energised == 0 {
        return write_all(errors, NONE);
    }
    if energised == buses {
        return Ok(());
    }
    say_part(errors, energised, buses)
}

// Says at how many buses more than one live injection or zero stands, where there are such.
fn say_crowded<E: Sink>(errors: &mut E, crowded: u32) -> Result<(), Failed>
    ensures says { Writes (E.written errors.old) (E.written errors.new) result (crowded_notice crowded) }
    ensures succeeds { (rest : ℕ) → E.has_room errors.old (length (crowded_notice crowded) + rest) → IsOk result }
{
    if crowded == 0 {
        return Ok(());
    }
    let mut digits = Digits::new();
    write_around(errors, CROWDED, digits.text(crowded as u64), CROWDED_END)
}

/// Says what a summary says, where there is one.
pub(crate) fn say_summary<E: Sink>(errors: &mut E, summary: Option<Summary>) -> Result<(), Failed>
    ensures says { Writes (E.written errors.old) (E.written errors.new) result (summary_notice summary) }
    ensures succeeds { (rest : ℕ) → E.has_room errors.old (length (summary_notice summary) + rest) → IsOk result }
{
    let Some(known) = summary else {
        return Ok(());
    };
    match say_energised(errors, known.energised, known.buses) {
        Ok(()) => say_crowded(errors, known.crowded),
        Err(Failed) => Err(Failed),
    }
}
