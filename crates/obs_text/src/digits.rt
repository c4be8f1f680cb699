// Numbers as text.
ghost use Rattle.std.specs.Prelude.{◌≡◌, decimal};

use itoa::Buffer;

/// Room for the digits of one number, on the stack.
#[derive(Drop)]
pub struct Digits {
    buffer: Buffer,
}

impl Digits {
    pub fn new() -> Digits {
        Digits {
            buffer: Buffer::new(),
        }
    }

    /// The number's decimal text, without leading zeros. It stands until the next call.
    pub fn text(&mut self, n: u64) -> &[u8]
        ensures decimal { result.now ≡ decimal n }
    {
        self.buffer.format(n).as_bytes()
    }
}
