// Lines that are gathered before they go to a sink, so that few calls of the sink are made. A failure
// is kept until the end: nothing is printed behind it.
ghost use Rattle.std.specs.Prelude.{◌≡◌, ◌++◌, ◌+◌, ◌⊎◌, ◌≤◌, [], length, map, take};
ghost use Rattle.obs_report.specs.Lines.{line_of};
ghost use Rattle.obs_report.specs.inner.Lines.{word_text};
ghost use Rattle.obs_report.specs.inner.Printed.{Prints, PrintsAt, empty_buffer};

use obs_io::{Failed, Sink, write_all};
use std::marker::Model;

/// The most bytes that are held back.
const CAPACITY: usize = 4096;

/// Bytes that were printed and are held back from the sink, and what printing answers so far.
#[derive(Drop)]
pub struct LineBuffer {
    bytes: [u8; CAPACITY],
    len: usize,
    outcome: Result<(), Failed>,
}

impl Model for LineBuffer {
    ghost use Rattle.std.specs.Prelude.{◌≡◌, ◌≤◌, length, take};
    ghost use Rattle.obs_report.specs.inner.Printed.{Buffered};

    ghost Value = { Buffered };

    ghost view = { λ b. record { held = take b.len b.bytes; outcome = b.outcome } };

    ghost invariant = { λ b. (b.len ≤ length b.bytes) × (length b.bytes ≡ 4096) };
}

// Writes some bytes behind the first ones of a buffer.
fn append(buffer: &mut [u8], end: usize, bytes: &[u8])
    requires room { end + length bytes.now ≤ length buffer.old }
    ensures front { take (end + length bytes.now) buffer.new ≡ take end buffer.old ++ bytes.now }
{
    buffer[end..end + bytes.len()].copy_from_slice(bytes);
}

impl LineBuffer {
    /// No bytes yet.
    pub fn new() -> LineBuffer
        ensures empty { result ≡ empty_buffer }
    {
        LineBuffer {
            bytes: [0; CAPACITY],
            len: 0,
            outcome: Ok(()),
        }
    }

    // Adds bytes for which there is room.
    fn hold(&mut self, bytes: &[u8])
        requires room { length self.old.held + length bytes.now ≤ 4096 }
        ensures held { self.new.held ≡ self.old.held ++ bytes.now }
        ensures outcome { self.new.outcome ≡ self.old.outcome }
    {
        append(&mut self.bytes, self.len, bytes);
        self.len += bytes.len();
    }

    // Sends what is held to the sink.
    fn send<W: Sink>(&mut self, output: &mut W)
        ensures printed { Prints W.written W.faults W.has_room output.old output.new self.old self.new [] }
        ensures empty { self.new.held ≡ [] }
    {
        let len = self.len;
        self.len = 0;
        if let Ok(()) = self.outcome {
            self.outcome = write_all(output, &self.bytes[..len]);
        }
    }

    // Sends what is held where so many bytes more have no room.
    fn make_room<W: Sink>(&mut self, output: &mut W, size: usize)
        ensures printed { Prints W.written W.faults W.has_room output.old output.new self.old self.new [] }
        ensures room { (length self.new.held + size ≤ 4096) ⊎ (self.new.held ≡ []) }
    {
        if size > CAPACITY - self.len {
            self.send(output);
        }
    }

    // Holds some bytes, or sends them at once where they are too many.
    fn store_or_send<W: Sink>(&mut self, output: &mut W, bytes: &[u8])
        requires room { (length self.old.held + length bytes.now ≤ 4096) ⊎ (self.old.held ≡ []) }
        ensures printed { Prints W.written W.faults W.has_room output.old output.new self.old self.new bytes.now }
    {
        if let Ok(()) = self.outcome {
            if bytes.len() > CAPACITY {
                self.outcome = write_all(output, bytes);
            } else {
                self.hold(bytes);
            }
        }
    }

    // Prints some bytes.
    fn print<W: Sink>(&mut self, output: &mut W, bytes: &[u8])
        ensures printed { Prints W.written W.faults W.has_room output.old output.new self.old self.new bytes.now }
    {
        self.make_room(output, bytes.len());
        self.store_or_send(output, bytes);
    }

    /// Prints a word, with a tab before it where it isn't the first of its line.
    pub(crate) fn word<W: Sink>(&mut self, output: &mut W, first: bool, word: &[u8])
        ensures printed { Prints W.written W.faults W.has_room output.old output.new self.old self.new
            (word_text first word.now) }
    {
        if first {
            self.print(output, word);
        } else {
            self.print(output, b"\t");
            self.print(output, word);
        }
    }

    /// Prints a line of these words.
    pub fn line<W: Sink>(&mut self, output: &mut W, words: &[&[u8]])
        ensures printed { Prints W.written W.faults W.has_room output.old output.new self.old self.new
            (line_of (map (λ word. word.now) words.now)) }
    {
        for i in 0..words.len() {
            self.word(output, i == 0, words[i]);
        }
        self.print(output, b"\n");
    }

    /// Sends what is still held, and answers whether all was sent.
    pub fn finish<W: Sink>(&mut self, output: &mut W) -> Result<(), Failed>
        ensures printed { PrintsAt (W.written output.old) (W.written output.new) self.old.held []
            (W.faults output.old) (W.faults output.new) (W.has_room output.old) (W.has_room output.new)
            self.old.outcome result [] }
        ensures empty { self.new.held ≡ [] }
        ensures outcome { self.new.outcome ≡ result }
    {
        self.send(output);
        self.outcome
    }
}
