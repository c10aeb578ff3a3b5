//! The decimal digits of a number, one by one.

ghost use Rattle.std.specs.Prelude.{◌≡◌, ◌<◌, ◌≤◌, ◌-◌, Some, length, slice_get};
ghost use Rattle.std.specs.Fmt.{decimal};

/// The number of digits of a number.
pub(super) fn digit_count(number: u32) -> usize
    requires { number < 100000 }
    ensures count { result ≡ length (decimal number) }
    ensures few { result ≤ 5 }
{
    match number {
        0..=9 => 1,
        10..=99 => 2,
        100..=999 => 3,
        1000..=9999 => 4,
        _ => 5,
    }
}

/// The decimal digit of a number at an index, counted from 0 at its first digit.
pub(super) fn digit_at(number: u32, place: usize) -> u8
    requires few { number < 100000 }
    requires within { place < length (decimal number) }
    ensures { slice_get (decimal number) place ≡ Some result }
{
    digit_before(number, digit_count(number) - 1 - place)
}

/// The digit of a number that is followed by `others` more digits.
fn digit_before(number: u32, others: usize) -> u8
    requires { others < length (decimal number) }
    ensures { slice_get (decimal number) (length (decimal number) - 1 - others) ≡ Some result }
{
    if others == 0 {
        b'0' + (number % 10) as u8
    } else {
        digit_before(number / 10, others - 1)
    }
}
