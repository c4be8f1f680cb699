// Numbers from text.
ghost use Rattle.std.specs.Prelude.{◌≡◌};
ghost use Rattle.obs_text.specs.Numbers.{whole_of};

/// The most digits of a whole number: as many as always fit.
const MOST_DIGITS: usize = 19;

/// The number that the bytes write in decimal digits. None for other than 1 to 19 ASCII digits;
/// leading zeros are digits.
pub fn whole(bytes: &[u8]) -> Option<u64>
    ensures value { result ≡ whole_of bytes.now }
{
    if bytes.is_empty() || bytes.len() > MOST_DIGITS {
        return None;
    }
    let mut value: u64 = 0;
    for byte in bytes {
        if !byte.is_ascii_digit() {
            return None;
        }
        value = value * 10 + u64::from(*byte - b'0');
    }
    Some(value)
}
