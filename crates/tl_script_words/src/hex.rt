//! How bytes and addresses print.

ghost use Rattle.std.specs.Prelude.{◌≡◌, ◌++◌, ◌+◌, ◌*◌, ◌<◌, ◌≤◌, false, codes, length, take, IsAscii, OnOk, Some, string_bytes};
ghost use Rattle.std.specs.Fmt.{digit_glyph};
ghost use Rattle.std.specs.Option.{option_map};
ghost use Rattle.tl_script_words.specs.Hex.{pair, hex_text, carried_text, address_text};

use std::alloc::AllocError;
use std::fmt;
use tl_types::BlockBytes;

// A lower-case hexadecimal digit.
#[inline(always)]
fn digit(value: u8) -> u8
    requires { value < 16 }
    ensures glyph { result ≡ digit_glyph false value }
    ensures ascii { result < 128 }
{
    if value < 10 {
        b'0' + value
    } else {
        b'a' + (value - 10)
    }
}

// Pairs of digits at a place of some room. What stands before it stays.
fn write_hex(digits: &mut [u8], at: usize, bytes: &[u8])
    requires { at + 2 * length bytes.now ≤ length digits.old }
    ensures written { take (at + 2 * length bytes.now) digits.new ≡ take at digits.old ++ hex_text bytes.now }
    ensures ascii { IsAscii (hex_text bytes.now) }
    ensures room { length digits.new ≡ length digits.old }
{
    for (place, byte) in bytes.iter().enumerate() {
        digits[at + 2 * place] = digit(byte / 16);
        digits[at + 2 * place + 1] = digit(byte % 16);
    }
}

// ASCII bytes at the end of a text.
fn push_ascii(text: &mut String, bytes: &[u8]) -> Result<(), AllocError>
    requires { IsAscii bytes.now }
    ensures { OnOk result (string_bytes text.new ≡ string_bytes text.old ++ bytes.now) }
{
    let Ok(read) = std::str::from_utf8(bytes) else {
        unreachable!()
    };
    text.push_str(read)
}

// How many bytes are written at once.
const AT_ONCE: usize = 8;

// At most eight bytes as pairs of digits, at the end of a text.
fn push_few(text: &mut String, bytes: &[u8]) -> Result<(), AllocError>
    requires { length bytes.now ≤ 8 }
    ensures { OnOk result (string_bytes text.new ≡ string_bytes text.old ++ hex_text bytes.now) }
{
    let mut digits = [0; 2 * AT_ONCE];
    write_hex(&mut digits, 0, bytes);
    push_ascii(text, &digits[..2 * bytes.len()])
}

/// Bytes as pairs of lower-case hexadecimal digits, at the end of a text. The error is want of memory; the text is then
/// of no use.
pub fn push_hex(text: &mut String, bytes: &[u8]) -> Result<(), AllocError>
    ensures { OnOk result (string_bytes text.new ≡ string_bytes text.old ++ hex_text bytes.now) }
{
    let mut rest = bytes;
    while !rest.is_empty() {
        let (few, more) = rest.split_at(rest.len().min(AT_ONCE));
        push_few(text, few)?;
        rest = more;
    }
    Ok(())
}

/// An address as `0x` and eight lower-case hexadecimal digits, at the end of a text. The error is want of memory; the
/// text is then of no use.
pub fn push_address(text: &mut String, address: u32) -> Result<(), AllocError>
    ensures { OnOk result (string_bytes text.new ≡ string_bytes text.old ++ address_text address) }
{
    text.push_str("0x")?;
    push_few(text, &address.to_be_bytes())
}

/// An address, a space, and at most eight bytes, at the end of a text: as `push_address` and `push_hex`, at once. The
/// error is want of memory; the text is then of no use.
pub fn push_bytes_at(text: &mut String, address: u32, bytes: &[u8]) -> Result<(), AllocError>
    requires { length bytes.now ≤ 8 }
    ensures { OnOk result
        (string_bytes text.new ≡ string_bytes text.old ++ address_text address ++ codes " " ++ hex_text bytes.now) }
{
    let mut digits = *b"0x                         ";
    write_hex(&mut digits, 2, &address.to_be_bytes());
    digits[10] = b' ';
    write_hex(&mut digits, 11, bytes);
    push_ascii(text, &digits[..11 + 2 * bytes.len()])
}

// A byte as two lower-case hexadecimal digits.
#[derive(Clone, Copy)]
struct Pair(u8);

impl fmt::Display for Pair {
    ghost output = { λ p. Some (pair p.0) };

    fn fmt<W: fmt::Write>(&self, f: &mut fmt::Formatter<W>) -> fmt::Result {
        let byte = self.0;
        write!(f, "{byte:02x}")
    }
}

/// Bytes as pairs of lower-case hexadecimal digits.
#[derive(Clone, Copy, Debug)]
pub struct Hex<'a>(pub &'a [u8]);

impl fmt::Display for Hex<'_> {
    ghost output = { λ h. Some (hex_text h.0.now) };

    fn fmt<W: fmt::Write>(&self, f: &mut fmt::Formatter<W>) -> fmt::Result {
        for byte in self.0 {
            write!(f, "{}", Pair(*byte))?;
        }
        Ok(())
    }
}

/// The bytes that a message carries, with a space before them, or nothing.
#[derive(Clone, Copy, Debug)]
pub struct Carried<'a>(pub Option<&'a BlockBytes>);

impl fmt::Display for Carried<'_> {
    ghost output = { λ c. Some (carried_text (option_map (λ b. b.now) c.0)) };

    fn fmt<W: fmt::Write>(&self, f: &mut fmt::Formatter<W>) -> fmt::Result {
        match self.0 {
            Some(bytes) => write!(f, " {}", Hex(bytes.as_slice())),
            None => Ok(()),
        }
    }
}

/// An address as `0x` and eight lower-case hexadecimal digits.
#[derive(Clone, Copy, Debug)]
pub struct Address(pub u32);

impl fmt::Display for Address {
    ghost output = { λ a. Some (address_text a.0) };

    fn fmt<W: fmt::Write>(&self, f: &mut fmt::Formatter<W>) -> fmt::Result {
        let bytes = self.0.to_be_bytes();
        write!(f, "0x{}", Hex(&bytes))
    }
}
