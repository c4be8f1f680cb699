// A line from its bytes.
ghost use Rattle.std.specs.Prelude.{◌≡◌, List, ℕ, []};
ghost use Rattle.std.specs.Option.{option_copied};
ghost use Rattle.std.specs.Str.Lines.{strip_carriage_return};
ghost use Rattle.obs_text.specs.Lines.{is_feed};
ghost use Rattle.obs_script.specs.inner.Gathered.{Holds, fed, is_passed, line_of};

use std::marker::Model;

/// The most bytes of a line's content.
const LONGEST: usize = 256;

/// The bytes that are kept of a line: where as many came, its content is too long, whether the last
/// of them is a carriage return or not.
const ROOM: usize = 258;

const LINE_FEED: u8 = 0x0A;

const CARRIAGE_RETURN: u8 = 0x0D;

const HASH: u8 = b'#';

/// One line of a session, put together byte by byte in a fixed array. A contract sees the bytes
/// that are kept of it; these say what is answered of the whole line, however long it is.
#[derive(Drop)]
pub struct Gather {
    room: [u8; ROOM],
    len: usize,
}

impl Model for Gather {
    ghost use Rattle.std.specs.Prelude.{ℕ, List, take, ◌≤◌};

    ghost Value = { List ℕ };

    ghost view = { λ g. take g.len g.room };

    ghost invariant = { λ g. g.len ≤ 258 };
}

fn without_return(line: &[u8]) -> &[u8]
    ensures stripped { result.now ≡ strip_carriage_return line.now }
{
    match line {
        [rest @ .., CARRIAGE_RETURN] => rest,
        _ => line,
    }
}

impl Gather {
    /// An empty line.
    pub fn new() -> Gather
        ensures empty { Holds result [] }
    {
        Gather {
            room: [0; ROOM],
            len: 0,
        }
    }

    /// Adds a byte to the line, and answers whether it ends the line, which a line feed does and
    /// leaves the line as it is.
    pub fn feed(&mut self, byte: u8) -> bool
        ensures ends { result ≡ is_feed byte }
        ensures added { (line : List ℕ) → Holds self.old line → Holds self.new (fed line byte) }
    {
        if byte == LINE_FEED {
            return true;
        }
        if self.len < ROOM {
            self.room[self.len] = byte;
            self.len += 1;
        }
        false
    }

    /// The line's content: its bytes without one last carriage return. None where it has more than
    /// 256 bytes.
    pub fn line(&self) -> Option<&[u8]>
        ensures content { (line : List ℕ) → Holds self.now line → option_copied result ≡ line_of line }
    {
        let content = without_return(&self.room[..self.len]);
        if content.len() > LONGEST {
            None
        } else {
            Some(content)
        }
    }

    /// Whether the line gets no answer, which goes before `line`: its content is empty or begins
    /// with `#`.
    pub fn passed(&self) -> bool
        ensures passed { (line : List ℕ) → Holds self.now line → result ≡ is_passed line }
    {
        match without_return(&self.room[..self.len]) {
            [] => true,
            [first, ..] => *first == HASH,
        }
    }

    /// Starts an empty line.
    pub fn clear(&mut self)
        ensures empty { Holds self.new [] }
    {
        self.len = 0;
    }
}
