//! Whole numbers, read from their decimal form and from no other text.

ghost use Rattle.std.specs.Prelude.{◌≡◌, ◌≢◌, ◌<◌, ◌≤◌, ◌^◌, ℕ, ℤ, true, false, length, decimal, MatchBool, MatchOption, slice_index};
ghost use Rattle.std.specs.Fmt.{signed_decimal};
ghost use Rattle.std.specs.Str.{all_ascii_digits};
ghost use Rattle.dam_book.specs.inside.Digits.{value_from, IsShort};

// Each number in a field of a journal is read by one of these: digit by digit, once. `007`, `+1`, `-0` and the empty
// text are refused.

// The limit of each number that is read has fewer digits.
const MOST_DIGITS: usize = 9;

// The number that these bytes are the digits of, or `None` if another byte is among them.
fn value_of_digits(digits: &[u8]) -> Option<u32>
    requires { length digits.now ≤ 9 }
    ensures { MatchOption result
        (all_ascii_digits digits.now ≡ false)
        (λ n. (all_ascii_digits digits.now ≡ true) × (n ≡ value_from 0 digits.now)) }
{
    let mut number = 0;
    for digit in digits {
        if !digit.is_ascii_digit() {
            return None;
        }
        number = number * 10 + u32::from(*digit - b'0');
    }
    Some(number)
}

fn has_leading_zero(text: &[u8]) -> bool
    ensures { MatchBool result
        ((1 < length text.now) × (slice_index text.now 0 ≡ 48))
        (slice_index text.now 0 ≡ 48 → length text.now ≤ 1) }
{
    matches!(text, [b'0', _, ..])
}

// The number of at most nine digits that has this text in decimal; `None` if there is none.
pub(crate) fn read_number(text: &[u8]) -> Option<u32>
    ensures { MatchOption result
        ((n : ℕ) → n < 10 ^ 9 → text.now ≢ decimal n)
        (λ n. (n < 10 ^ 9) × (text.now ≡ decimal n)) }
{
    if text.is_empty() {
        return None;
    }
    if text.len() > MOST_DIGITS {
        return None;
    }
    if has_leading_zero(text) {
        return None;
    }
    value_of_digits(text)
}

// The same with a sign: a number below zero has a dash before its digits.
pub(crate) fn read_signed(text: &[u8]) -> Option<i32>
    ensures { MatchOption result
        ((z : ℤ) → IsShort z → text.now ≢ signed_decimal z)
        (λ z. IsShort z × (text.now ≡ signed_decimal z)) }
{
    let Some((b'-', digits)) = text.split_first() else {
        let number = read_number(text)?;
        return Some(number as i32);
    };
    match read_number(digits)? {
        0 => None,
        number => Some(-(number as i32)),
    }
}
