// The names of rows.
ghost use Rattle.std.specs.Prelude.{◌≡◌, ◌∷◌, decimal};

use obs_text::Digits;

/// Room for a letter and the digits of a number.
pub(crate) const NAME_ROOM: usize = 21;

// A letter and the number in decimal digits, written into the room.
pub(crate) fn numbered(room: &mut [u8; NAME_ROOM], letter: u8, number: u64) -> &[u8]
    ensures name { result.now ≡ letter ∷ decimal number }
{
    let mut digits = Digits::new();
    let text = digits.text(number);
    room[0] = letter;
    room[1..=text.len()].copy_from_slice(text);
    &room[..=text.len()]
}
