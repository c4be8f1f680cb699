// The call.
ghost use Rattle.std.specs.Prelude.{◌≡◌, ◌≤◌, ◌⊎◌, drop, length, take};
ghost use Rattle.obs_files.specs.Codes.{code_of};
ghost use Rattle.obs_c.specs.Blocks.{IsCall, malformed, words_in};
ghost use Rattle.obs_c.specs.Calls.{IsAnswered, limits_for, told_by};
ghost use Rattle.obs_files.specs.Limits.{usual_limits};

use crate::block_words::{WordsFault, words_of};
use crate::deliver::deliver;
use crate::front::Front;
use crate::lengths::are_lengths;
use crate::limits::limits_for;
use obs_engine::{Status, run_within};
use obs_io::{BlockFiles, BlockSource};
use std::alloc::Global;

// The number that is answered where the blocks aren't words and contents.
const MALFORMED: u8 = 8;

/// Runs obs: the words are those behind the program's own name, each ended by a zero byte, and `lengths` has for each
/// word how many bytes of `contents` are its file's, one file behind another (0 for a word that names no file). The text
/// is written into `text`, and `written` says how much of it. The answer is the program's exit status, 5 where `text` is
/// too short, or 8 where the words aren't ended, aren't UTF-8, or the lengths aren't those of the words and the contents.
#[unsafe(no_mangle)]
pub extern "C" fn obs_run(
    alloc: Global,
    words: &[u8],
    contents: &[u8],
    lengths: &[usize],
    input: &[u8],
    text: &mut [u8],
    written: &mut usize,
) -> u8
    // Blocks that are no words and contents are refused, and nothing is written.
    ensures refused { (IsCall words.now contents.now lengths.now → ⊥)
        → ((result ≡ malformed) ⊎ (result ≡ code_of Status.NoMemory)) × (written.new ≡ 0) × (text.new ≡ text.old) }

    // A reply that is stated for the words, the contents and the input is given: as much of its text as fits, and its number,
    // or 5 where not all of it does. Or there is no memory, and nothing is written.
    ensures stated { IsCall words.now contents.now lengths.now
        → IsAnswered (words_in words.now) (told_by usual_limits contents.now lengths.now input.now) (length text.old)
        result (take written.new text.new) }

    // Behind what was written the block is as it was.
    ensures within { written.new ≤ length text.old }
    ensures rest { drop written.new text.new ≡ drop written.new text.old }
{
    obs_run_within(alloc, 0, words, contents, lengths, input, text, written)
}

/// Runs obs as `obs_run` does, within its limits where `large` is 0, and else within the largest.
#[unsafe(no_mangle)]
pub extern "C" fn obs_run_within(
    alloc: Global,
    large: u8,
    words: &[u8],
    contents: &[u8],
    lengths: &[usize],
    input: &[u8],
    text: &mut [u8],
    written: &mut usize,
) -> u8
    // Blocks that are no words and contents are refused, and nothing is written.
    ensures refused { (IsCall words.now contents.now lengths.now → ⊥)
        → ((result ≡ malformed) ⊎ (result ≡ code_of Status.NoMemory)) × (written.new ≡ 0) × (text.new ≡ text.old) }

    // A reply that is stated for the words, the contents and the input is given: as much of its text as fits, and its number,
    // or 5 where not all of it does. Or there is no memory, and nothing is written.
    ensures stated { IsCall words.now contents.now lengths.now
        → IsAnswered (words_in words.now) (told_by (limits_for large) contents.now lengths.now input.now) (length text.old)
        result (take written.new text.new) }

    // Behind what was written the block is as it was.
    ensures within { written.new ≤ length text.old }
    ensures rest { drop written.new text.new ≡ drop written.new text.old }
{
    *written = 0;
    let list = match words_of(alloc, words) {
        Ok(list) => list,
        Err(WordsFault::Malformed) => return MALFORMED,
        Err(WordsFault::NoMemory) => return Status::NoMemory.code(),
    };
    if !are_lengths(list.len(), contents, lengths) {
        return MALFORMED;
    }
    let Ok(mut output) = Front::with_room(alloc, text.len() + 1) else {
        return Status::NoMemory.code();
    };
    let mut files = BlockFiles::new(contents, lengths);
    let mut source = BlockSource::new(input);
    let status = run_within(
        alloc,
        limits_for(large),
        &list,
        &mut files,
        &mut source,
        &mut output,
    );
    deliver(output.bytes(), status, text, written)
}
