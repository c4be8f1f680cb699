// The names of branches.
ghost use Rattle.std.specs.Prelude.{◌≡◌};
ghost use Rattle.obs_bus_branch.specs.Buses.{branch_name};

use obs_text::Digits;

/// Room for the name of a branch: a letter and the digits of a number.
pub const NAME_ROOM: usize = 21;

/// `L` and the number in decimal digits, written into the room.
pub fn branch_name(room: &mut [u8; NAME_ROOM], number: u64) -> &[u8]
    ensures name { result.now ≡ branch_name number }
{
    let mut digits = Digits::new();
    let text = digits.text(number);
    room[0] = b'L';
    room[1..=text.len()].copy_from_slice(text);
    &room[..=text.len()]
}
