//! Addresses of up to 64 bits.
ghost use Rattle.std.specs.Prelude.{◌≡◌, ◌<◌, ◌≤◌, length, Some, None, true, if◌then◌else◌};
ghost use Rattle.std.specs.Char.{digit_value};
ghost use Rattle.std.specs.List.{list_all};
ghost use Rattle.std.specs.Str.Parse.{digits_value};
ghost use Rattle.tl_script_words.specs.Words.{is_lower_hex};
ghost use Rattle.tlwire_record.specs.Address.{wide_address_in, wide_address_of};

use tlcheck_record::Cause;

/// The most hexadecimal digits of an address.
const DIGITS: usize = 16;

fn is_lower_hex(digit: u8) -> bool
    ensures { result ≡ is_lower_hex digit }
{
    matches!(digit, b'0'..=b'9' | b'a'..=b'f')
}

fn parse_digit(digit: u8) -> u8
    requires { is_lower_hex digit ≡ true }
    ensures value { result ≡ digit_value digit }
    ensures small { result < 16 }
{
    if digit <= b'9' {
        digit - b'0'
    } else {
        digit - b'a' + 10
    }
}

/// The number that at most sixteen lower-case hexadecimal digits write. None where there is another byte.
fn parse_digits(digits: &[u8]) -> Option<u64>
    requires { length digits.now ≤ 16 }
    ensures { result ≡ (if list_all is_lower_hex digits.now then Some (digits_value 16 digits.now) else None) }
{
    let mut value: u64 = 0;
    let mut rest = digits;
    while let [digit, after @ ..] = rest {
        if !is_lower_hex(*digit) {
            return None;
        }
        value = value * 16 + u64::from(parse_digit(*digit));
        rest = after;
    }
    Some(value)
}

/// The address that a word writes.
fn parse_wide(word: &[u8]) -> Option<u64>
    ensures { result ≡ wide_address_of word.now }
{
    if !word.starts_with(b"0x") || word.len() < 3 || word.len() > 2 + DIGITS {
        return None;
    }
    parse_digits(&word[2..])
}

/// An address in its place: `0x` and one to sixteen lower-case hexadecimal digits.
pub(crate) fn read_wide_address(text: &str) -> Result<u64, Cause>
    ensures { result ≡ wide_address_in text.now }
{
    parse_wide(text.as_bytes()).ok_or(Cause::Number)
}
