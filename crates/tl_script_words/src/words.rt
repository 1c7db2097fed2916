//! The words that a text of a script is made of.

ghost use Rattle.std.specs.Prelude.{◌≡◌, ◌∷◌, ◌<◌, ◌≤◌, ◌==◌, [], length, Some, None, true, if◌then◌else◌, IfOk};
ghost use Rattle.std.specs.Char.{is_ascii_digit, digit_value};
ghost use Rattle.std.specs.List.{list_all, position_or_len, slice_split};
ghost use Rattle.std.specs.Str.Parse.{digits_value};
ghost use Rattle.tl_script_words.specs.Reads.{Reads};
ghost use Rattle.tl_script_words.specs.Words.{words_of, words_in, texts, is_plain, number_of, is_lower_hex, address_of, len_of, byte_of, bytes_of, block_of, access_of};

use crate::error::ParseError;
use arrayvec::ArrayVec;
use std::alloc::{AllocError, Global};
use tl_types::{ACCESS_BYTES, AccessBytes, BLOCK_BYTES, BlockBytes};

/// The words of a text, which stand apart by one space each. The error is want of memory.
pub fn split_words(alloc: Global, text: &str) -> Result<Vec<&str>, AllocError>
    ensures { IfOk result (λ words. texts words.items ≡ words_of text.now) }
{
    text.split(' ').collect(alloc)
}

/// How many bytes stand before the first space, or in all.
fn first_len(text: &[u8]) -> usize
    ensures { result ≡ position_or_len (λ b. b == 32) text.now }
{
    text.iter().take_while(|byte| **byte != b' ').count()
}

/// The first word of a text, and what stands behind the space after it, where there is a space.
#[tactic(auto, using(crate::proofs::SpaceLaws::first_word, crate::proofs::SpaceLaws::all_of, crate::proofs::SpaceLaws::only_word))]
pub(crate) fn split_word(text: &[u8]) -> (&[u8], Option<&[u8]>)
    ensures { words_of text.now ≡ result.0.now ∷ words_in result.1 }
{
    let space = first_len(text);
    if space < text.len() {
        (&text[..space], Some(&text[space + 1..]))
    } else {
        (text, None)
    }
}

/// The fields of a text, which stand apart by one dot each. The error is want of memory.
pub fn split_fields(alloc: Global, text: &str) -> Result<Vec<&str>, AllocError>
    ensures { IfOk result (λ fields. texts fields.items ≡ slice_split (λ b. b == 46) text.now) }
{
    text.split('.').collect(alloc)
}

fn are_digits(text: &str) -> bool
    ensures { result ≡ list_all is_ascii_digit text.now }
{
    text.bytes().all(|digit| digit.is_ascii_digit())
}

fn is_plain(text: &str) -> bool
    ensures { result ≡ is_plain text.now }
{
    if text.is_empty() || (text.len() > 1 && text.starts_with('0')) {
        return false;
    }
    are_digits(text)
}

fn parse_decimal(digit: u8) -> u8
    requires { is_ascii_digit digit ≡ true }
    ensures value { result ≡ digit_value digit }
    ensures small { result < 10 }
{
    digit - b'0'
}

/// The number that at most nine decimal digits write. None where there is another byte.
fn parse_decimals(digits: &[u8]) -> Option<u32>
    requires { length digits.now ≤ 9 }
    ensures { result ≡ (if list_all is_ascii_digit digits.now then Some (digits_value 10 digits.now) else None) }
{
    let mut value: u32 = 0;
    let mut rest = digits;
    while let [digit, after @ ..] = rest {
        if !digit.is_ascii_digit() {
            return None;
        }
        value = value * 10 + u32::from(parse_decimal(*digit));
        rest = after;
    }
    Some(value)
}

/// The number of a text of at most nine bytes: it has 32 bits.
fn parse_short(text: &[u8]) -> Option<u32>
    requires { length text.now ≤ 9 }
    ensures { result ≡ number_of text.now }
{
    if text.is_empty() || (text.len() > 1 && text[0] == b'0') {
        return None;
    }
    parse_decimals(text)
}

/// A number of 32 bits in decimal digits, with no leading 0.
pub fn parse_number(text: &str) -> Option<u32>
    ensures { result ≡ number_of text.now }
{
    if text.len() <= 9 {
        return parse_short(text.as_bytes());
    }
    if is_plain(text) {
        text.parse().ok()
    } else {
        None
    }
}

fn is_lower_hex(digit: u8) -> bool
    ensures { result ≡ is_lower_hex digit }
{
    matches!(digit, b'0'..=b'9' | b'a'..=b'f')
}

fn parse_digit(digit: u8) -> u8
    requires { is_lower_hex digit ≡ true }
    ensures value { result ≡ digit_value digit }
    ensures small { result < 16 }
{
    if digit <= b'9' {
        digit - b'0'
    } else {
        digit - b'a' + 10
    }
}

/// The number that at most eight lower-case hexadecimal digits write. None where there is another byte.
fn parse_digits(digits: &[u8]) -> Option<u32>
    requires { length digits.now ≤ 8 }
    ensures { result ≡ (if list_all is_lower_hex digits.now then Some (digits_value 16 digits.now) else None) }
{
    let mut value: u32 = 0;
    let mut rest = digits;
    while let [digit, after @ ..] = rest {
        if !is_lower_hex(*digit) {
            return None;
        }
        value = value * 16 + u32::from(parse_digit(*digit));
        rest = after;
    }
    Some(value)
}

/// An address: `0x` and one to eight lower-case hexadecimal digits.
pub fn parse_address(text: &str) -> Option<u32>
    ensures { result ≡ address_of text.now }
{
    address_in(text.as_bytes())
}

/// The address that a word writes.
pub(crate) fn address_in(word: &[u8]) -> Option<u32>
    ensures { result ≡ address_of word.now }
{
    if !word.starts_with(b"0x") || word.len() < 3 || word.len() > 10 {
        return None;
    }
    parse_digits(&word[2..])
}

/// A length: one digit from 1 to 8.
pub(crate) fn len_in(word: &[u8]) -> Option<u8>
    ensures { result ≡ len_of word.now }
{
    match word {
        [digit @ b'1'..=b'8'] => Some(digit - b'0'),
        _ => None,
    }
}

fn parse_byte(high: u8, low: u8) -> Option<u8>
    ensures { result ≡ byte_of high low }
{
    if is_lower_hex(high) && is_lower_hex(low) {
        Some(parse_digit(high) * 16 + parse_digit(low))
    } else {
        None
    }
}

/// The bytes that pairs of lower-case hexadecimal digits write. `Malformed` where the text has another
/// character or half a pair, `Memory` where memory is refused.
pub fn parse_bytes(alloc: Global, text: &str) -> Result<Vec<u8>, ParseError>
    ensures { Reads (λ bytes. bytes.items) result (bytes_of text.now) }
{
    let mut bytes = Vec::new(alloc);
    let mut rest = text.as_bytes();
    while let [high, low, after @ ..] = rest {
        bytes.push(parse_byte(*high, *low).ok_or(ParseError::Malformed)?)?;
        rest = after;
    }
    if rest.is_empty() {
        Ok(bytes)
    } else {
        Err(ParseError::Malformed)
    }
}

/// The bytes of an access: one to eight.
pub fn parse_access(text: &str) -> Option<AccessBytes>
    ensures { result ≡ access_of text.now }
{
    access_in(text.as_bytes())
}

/// The bytes of an access that a word writes.
#[tactic(auto, unfolding(crate::specs::Words::access_of))]
pub(crate) fn access_in(word: &[u8]) -> Option<AccessBytes>
    ensures { result ≡ access_of word.now }
{
    let mut bytes = ArrayVec::<u8, ACCESS_BYTES>::new();
    let mut rest = word;
    while let [high, low, after @ ..] = rest {
        if bytes.try_push(parse_byte(*high, *low)?).is_err() {
            return None;
        }
        rest = after;
    }
    if !rest.is_empty() || bytes.is_empty() {
        return None;
    }
    AccessBytes::from_slice(&bytes)
}

/// The bytes of a block: at most 64.
#[tactic(auto, unfolding(crate::specs::Words::block_of))]
pub fn parse_block(text: &str) -> Option<BlockBytes>
    ensures { result ≡ block_of text.now }
{
    let mut bytes = ArrayVec::<u8, BLOCK_BYTES>::new();
    let mut rest = text.as_bytes();
    while let [high, low, after @ ..] = rest {
        if bytes.try_push(parse_byte(*high, *low)?).is_err() {
            return None;
        }
        rest = after;
    }
    if !rest.is_empty() {
        return None;
    }
    BlockBytes::from_slice(&bytes)
}
