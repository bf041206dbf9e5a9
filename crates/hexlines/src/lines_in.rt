// Lines in: text of hexadecimal lines, decoded into lent bytes.
ghost use Rattle.std.specs.Prelude.{◌≡◌, true, false, ◌+◌, ◌*◌, ◌/◌, ◌%◌, ◌<◌, ◌≤◌, ◌==◌, not, length, drop};
ghost use Rattle.std.specs.List.{list_all, take_while};
ghost use Rattle.std.proofs.lemmas.List.Edits.{sets};
ghost use Rattle.hexlines.specs.Lines.{room, is_digit, digit_of, all_digits, bytes_in, is_bad};
ghost use Rattle.hexlines.specs.inner.Reading.{line_length, Read};

use crate::{LETTER, LINE_FEED};

// At most so many decoded bytes.
pub const ROOM: usize = 65_536;

// Whether a character is a digit: 0-9 and a-f.
fn is_digit(c: u8) -> bool
    ensures { result ≡ is_digit c }
{
    (b'0' <= c) & (c <= b'9') | (b'a' <= c) & (c <= b'f')
}

// The value of a digit.
fn digit_of(c: u8) -> u8
    requires { is_digit c ≡ true }
    ensures { (result ≡ digit_of c) × (result < 16) }
{
    if c <= b'9' { c - b'0' } else { c - LETTER }
}

// The byte of two digits.
fn byte_of(high: u8, low: u8) -> u8
    requires high_value { is_digit high ≡ true }
    requires low_value { is_digit low ≡ true }
    ensures { result ≡ 16 * digit_of high + digit_of low }
{
    16 * digit_of(high) + digit_of(low)
}

// Whether all characters of a line are digits.
fn all_digits(line: &[u8]) -> bool
    ensures { result ≡ list_all (λ c. is_digit c) line.now }
{
    line.iter().all(|c| is_digit(*c))
}

// Whether a line is empty, odd or not hexadecimal, or passes the limit, so many bytes being decoded before it.
fn is_bad(line: &[u8], decoded: usize) -> bool
    requires { decoded ≤ room }
    ensures { result ≡ is_bad decoded line.now }
{
    line.len() == 0 || line.len() % 2 != 0 || !all_digits(line) || ROOM < decoded + line.len() / 2
}

// Stores the bytes of a line, two digits a byte.
fn decode_line(line: &[u8], bytes: &mut [u8], at: usize)
    requires line_len { length line.now % 2 ≡ 0 }
    requires line_value { all_digits line.now ≡ true }
    requires line_in_bounds { at + length line.now / 2 ≤ length bytes.old }
    ensures { bytes.new ≡ sets bytes.old at (bytes_in line.now) }
{
    for i in 0..line.len() / 2 {
        bytes[at + i] = byte_of(line[2 * i], line[2 * i + 1]);
    }
}

// The characters before the first line feed; all where there is none.
fn before_feed(text: &[u8]) -> usize
    ensures { result ≡ length (take_while (λ c. not (c == 10)) text.now) }
{
    text.iter().take_while(|c| **c != LINE_FEED).count()
}

// The place of the line feed that ends the line at a place; where none does, the end of the text.
fn line_end(text: &[u8], at: usize) -> usize
    requires { at ≤ length text.now }
    ensures { result ≡ at + line_length (drop at text.now) }
{
    at + before_feed(&text[at..])
}

// Decodes a text: how many bytes, or the number of the first bad line.
pub fn decode(text: &[u8], bytes: &mut [u8]) -> Result<usize, usize>
    requires { room ≤ length bytes.old }
    ensures { Read text.now bytes.old result bytes.new }
{
    let mut number = 1;
    let mut decoded = 0;
    let mut at = 0;
    while at < text.len() {
        let end = line_end(text, at);
        if is_bad(&text[at..end], decoded) {
            return Err(number);
        }
        decode_line(&text[at..end], bytes, decoded);
        decoded += (end - at) / 2;
        number += 1;
        at = end + 1;
    }
    Ok(decoded)
}
