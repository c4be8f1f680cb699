// Numbers, written with commas.
ghost use Rattle.std.specs.Prelude.{◌+◌, ◌++◌, ℕ, length, IsOk};
ghost use Rattle.obs_io.specs.inner.Bytes.{Writes};
ghost use Rattle.obs_notice.specs.Notices.{comma_said, digits_said};

use obs_io::{Failed, Sink, write_all};

// Writes a digit of a number that has so many digits behind it.
fn write_digit<E: Sink>(errors: &mut E, digit: u8, behind: usize) -> Result<(), Failed>
    ensures writes { Writes (E.written errors.old) (E.written errors.new) result (comma_said behind digit) }
    ensures succeeds { (rest : ℕ) → E.has_room errors.old (length (comma_said behind digit) + rest) → IsOk result }
    ensures room { (rest : ℕ) → E.has_room errors.old (length (comma_said behind digit) + rest) → E.has_room errors.new rest }
{
    if behind > 0 && behind % 3 == 0 {
        return write_all(errors, &[digit, b',']);
    }
    write_all(errors, &[digit])
}

// Writes the digits of a number.
fn write_digits<E: Sink>(errors: &mut E, digits: &[u8]) -> Result<(), Failed>
    ensures writes { Writes (E.written errors.old) (E.written errors.new) result (digits_said digits.now) }
    ensures succeeds { (rest : ℕ) → E.has_room errors.old (length (digits_said digits.now) + rest) → IsOk result }
    ensures room { (rest : ℕ) → E.has_room errors.old (length (digits_said digits.now) + rest) → E.has_room errors.new rest }
{
    if digits.is_empty() {
        return Ok(());
    }
    match write_digit(errors, digits[0], digits.len() - 1) {
        Ok(()) => write_digits(errors, &digits[1..]),
        Err(Failed) => Err(Failed),
    }
}

/// Writes a number's digits and then a text.
pub(crate) fn write_number<E: Sink>(
    errors: &mut E,
    digits: &[u8],
    second: &[u8],
) -> Result<(), Failed>
    ensures writes { Writes (E.written errors.old) (E.written errors.new) result (digits_said digits.now ++ second.now) }
    ensures succeeds { (rest : ℕ) → E.has_room errors.old (length (digits_said digits.now ++ second.now) + rest)
        → IsOk result }
    ensures room { (rest : ℕ) → E.has_room errors.old (length (digits_said digits.now ++ second.now) + rest)
        → E.has_room errors.new rest }
{
    match write_digits(errors, digits) {
        Ok(()) => write_all(errors, second),
        Err(Failed) => Err(Failed),
    }
}

/// Writes a text, then a number's digits and then a text.
pub(crate) fn write_around<E: Sink>(
    errors: &mut E,
    first: &[u8],
    digits: &[u8],
    third: &[u8],
) -> Result<(), Failed>
    ensures writes { Writes (E.written errors.old) (E.written errors.new) result
        (first.now ++ (digits_said digits.now ++ third.now)) }
    ensures succeeds { (rest : ℕ) → E.has_room errors.old (length (first.now ++ (digits_said digits.now ++ third.now)) + rest)
        → IsOk result }
    ensures room { (rest : ℕ) → E.has_room errors.old (length (first.now ++ (digits_said digits.now ++ third.now)) + rest)
        → E.has_room errors.new rest }
{
    match write_all(errors, first) {
        Ok(()) => write_number(errors, digits, third),
        Err(Failed) => Err(Failed),
    }
}

/// Writes a text and a number's digits, a text and another number's digits, and a text.
pub(crate) fn write_pair<E: Sink>(
    errors: &mut E,
    first: &[u8],
    one: &[u8],
    second: &[u8],
    other: &[u8],
    third: &[u8],
) -> Result<(), Failed>
    ensures writes { Writes (E.written errors.old) (E.written errors.new) result
        ((first.now ++ (digits_said one.now ++ second.now)) ++ (digits_said other.now ++ third.now)) }
    ensures succeeds { (rest : ℕ) → E.has_room errors.old (length
        ((first.now ++ (digits_said one.now ++ second.now)) ++ (digits_said other.now ++ third.now)) + rest)
        → IsOk result }
    ensures room { (rest : ℕ) → E.has_room errors.old (length
        ((first.now ++ (digits_said one.now ++ second.now)) ++ (digits_said other.now ++ third.now)) + rest)
        → E.has_room errors.new rest }
{
    match write_around(errors, first, one, second) {
        Ok(()) => write_number(errors, other, third),
        Err(Failed) => Err(Failed),
    }
}
