// A session that stays between calls.
ghost use Rattle.std.specs.Prelude.{◌≡◌, ◌≤◌, None, drop, length, take};
ghost use Rattle.obs_c.specs.Calls.{limits_for};
ghost use Rattle.obs_c.specs.Stays.{IsLineAnswered, IsBeginning};
ghost use Rattle.obs_files.specs.Limits.{usual_limits};

use crate::block_words::{WordsFault, words_of};
use crate::deliver::deliver;
use crate::front::Front;
use crate::lengths::are_lengths;
use crate::limits::limits_for;
use crate::slot::Slot;
use obs_engine::{Status, answer_one, begin_session_within};
use obs_io::BlockFiles;
use std::alloc::Global;

// The number that is answered where the blocks aren't words and contents.
const MALFORMED: u8 = 8;

// The number that is answered where a session has begun already, and where none has whose line is to be answered.
const OUT_OF_TURN: u8 = 9;

/// Begins a session, which stays. The words, the contents and the lengths are those of `obs_run`, with the words of a
/// session. The answer is 0 where it began, and nothing is written; 2 with the usage line for other words; else what
/// `obs_run` answers to these words and files, or 9 where a session stays already, which is left as it is.
#[unsafe(no_mangle)]
pub extern "C" fn obs_session_begin(
    alloc: Global,
    slot: &mut Slot,
    words: &[u8],
    contents: &[u8],
    lengths: &[usize],
    text: &mut [u8],
    written: &mut usize,
) -> u8
    ensures begun { IsBeginning usual_limits words.now contents.now lengths.now (length text.old)
        slot.old.handle.value slot.new.handle.value result (take written.new text.new) }

    // Behind what was written the block is as it was.
    ensures within { written.new ≤ length text.old }
    ensures rest { drop written.new text.new ≡ drop written.new text.old }
{
    obs_session_begin_within(alloc, 0, slot, words, contents, lengths, text, written)
}

/// Begins a session as `obs_session_begin` does, within the limits of `obs_run` where `large` is 0, and else within the
/// largest.
#[unsafe(no_mangle)]
pub extern "C" fn obs_session_begin_within(
    alloc: Global,
    large: u8,
    slot: &mut Slot,
    words: &[u8],
    contents: &[u8],
    lengths: &[usize],
    text: &mut [u8],
    written: &mut usize,
) -> u8
    ensures begun { IsBeginning (limits_for large) words.now contents.now lengths.now (length text.old)
        slot.old.handle.value slot.new.handle.value result (take written.new text.new) }

    // Behind what was written the block is as it was.
    ensures within { written.new ≤ length text.old }
    ensures rest { drop written.new text.new ≡ drop written.new text.old }
{
    *written = 0;
    if let Some(session) = slot.take(alloc) {
        slot.put(session);
        return OUT_OF_TURN;
    }
    let list = match words_of(alloc, words) {
        Ok(list) => list,
        Err(WordsFault::Malformed) => return MALFORMED,
        Err(WordsFault::NoMemory) => return Status::NoMemory.code(),
    };
    if !are_lengths(list.len(), contents, lengths) {
        return MALFORMED;
    }
    let Ok(mut output) = Front::with_room(alloc, text.len() + 1) else {
        return Status::NoMemory.code();
    };
    let mut files = BlockFiles::new(contents, lengths);
    match begin_session_within(alloc, limits_for(large), &list, &mut files, &mut output) {
        Ok(session) => {
            let Ok(session) = Box::new(alloc, session) else {
                return Status::NoMemory.code();
            };
            slot.put(session);
            Status::Done.code()
        }
        Err(status) => deliver(output.bytes(), status, text, written),
    }
}

/// Does what one line of a session says, and writes its answer. The line has no line end, and no carriage return
/// behind it. The answer is 0 or 1, the
/// verdict on the case behind the line, or 5 where the text is too short; 6 where there is no memory, or 9 where no
/// session stays, and nothing is done.
#[unsafe(no_mangle)]
pub extern "C" fn obs_session_line(
    alloc: Global,
    slot: &mut Slot,
    line: &[u8],
    text: &mut [u8],
    written: &mut usize,
) -> u8
    ensures answered { IsLineAnswered line.now (length text.old)
        slot.old.handle.value slot.new.handle.value result (take written.new text.new) }

    // Behind what was written the block is as it was.
    ensures within { written.new ≤ length text.old }
    ensures rest { drop written.new text.new ≡ drop written.new text.old }
{
    *written = 0;
    let Some(mut session) = slot.take(alloc) else {
        return OUT_OF_TURN;
    };
    let Ok(mut output) = Front::with_room(alloc, text.len() + 1) else {
        slot.put(session);
        return Status::NoMemory.code();
    };
    let status = answer_one(&mut output, &mut session, line);
    slot.put(session);
    deliver(output.bytes(), status, text, written)
}

/// Ends a session, and gives back its memory. Nothing stays, also where none had begun.
#[unsafe(no_mangle)]
pub extern "C" fn obs_session_end(alloc: Global, slot: &mut Slot)
    ensures none { slot.new.handle.value ≡ None }
{
    let _session = slot.take(alloc);
}
